// Where the words of a saved state stand, of n modules and with `front` words before those of the modules, section after section.
ghost use Rattle.std.specs.Prelude.{◌≡◌, ◌≤◌};
ghost use Rattle.image.specs.Layout.{own_at, rows_at, latest_at, earlier_at, accounts_at, rewards_at, returns_at, left_at, views_at, image_length};

use changes::section::new_count;
use setup::layout::setup_words;
use views::section::views_count;

// Own number and view, after the setup's words.
pub fn own_at(front: usize, n: usize) -> usize
    requires { (front ≤ 6) × (n ≤ 16) }
    ensures { result ≡ own_at front n }
{
    setup_words(front, n)
}

// The rows of the previous read.
pub fn rows_at(front: usize, n: usize) -> usize
    requires { (front ≤ 6) × (n ≤ 16) }
    ensures { result ≡ rows_at front n }
{
    own_at(front, n) + 1
}

// The latest syndrome.
pub fn latest_at(front: usize, n: usize) -> usize
    requires { (front ≤ 6) × (n ≤ 16) }
    ensures { result ≡ latest_at front n }
{
    rows_at(front, n) + n
}

// The syndrome before it.
pub fn earlier_at(front: usize, n: usize) -> usize
    requires { (front ≤ 6) × (n ≤ 16) }
    ensures { result ≡ earlier_at front n }
{
    latest_at(front, n) + 1
}

// The accounts: the penalties, or the scores.
pub fn accounts_at(front: usize, n: usize) -> usize
    requires { (front ≤ 6) × (n ≤ 16) }
    ensures { result ≡ accounts_at front n }
{
    earlier_at(front, n) + 1
}

// The rewards, after n penalties.
pub fn rewards_at(front: usize, n: usize) -> usize
    requires { (front ≤ 6) × (n ≤ 16) }
    ensures { result ≡ rewards_at front n }
{
    accounts_at(front, n) + n
}

// The return counts.
pub fn returns_at(front: usize, n: usize) -> usize
    requires { (front ≤ 6) × (n ≤ 16) }
    ensures { result ≡ returns_at front n }
{
    rewards_at(front, n) + n
}

// The rounds left.
pub fn left_at(front: usize, n: usize) -> usize
    requires { (front ≤ 6) × (n ≤ 16) }
    ensures { result ≡ left_at front n }
{
    returns_at(front, n) + n
}

// The views of a partitionable setup, by the rounds left.
pub fn views_at(front: usize, n: usize, left: u32) -> usize
    requires { (front ≤ 6) × (n ≤ 16) }
    ensures { result ≡ views_at front n left }
{
    left_at(front, n) + 1 + new_count(n, left)
}

// How many bytes an image has, by the rounds left and whether its setup is partitionable.
pub fn image_length(front: usize, n: usize, left: u32, partitionable: bool) -> usize
    requires { (front ≤ 6) × (n ≤ 16) }
    ensures { result ≡ image_length front n left partitionable }
{
    (views_at(front, n, left) + views_count(partitionable, n)) * 4
}
