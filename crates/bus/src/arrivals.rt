// The bus of a round: what reaches each receiver from each sender, and what each module reads of it.
ghost use Rattle.std.specs.Prelude.{◌≡◌, not, ◌+◌, ◌*◌, ◌≤◌, ◌<◌, eqb, length, get_or};
ghost use Rattle.words.specs.Bits.{pack};
ghost use Rattle.words.specs.Array.{array};
ghost use Rattle.words.specs.Runs.{put_run};
ghost use Rattle.words.specs.Table.{table};
ghost use Rattle.views.specs.ViewWord.{read_words};
ghost use Rattle.bus.specs.Bus.{faultless, arriving, arrived, entry_read, words_read, bits_read};

use crate::Bus;
use rules::hearing::bus_word;
use script::Events;
use views::word::view_word;
use words::array::filled;
use words::bits::{bit_at, full_of, pick};
use words::word::put_word;
use words::{array, bits};

// In rounds before 1 all hear all, with all-ones words and words of the full view.
pub fn faultless(n: usize) -> Bus
    requires { n ≤ 16 }
    ensures { result ≡ faultless n }
{
    let ones = full_of(n);
    Bus {
        bits: filled(n, ones),
        words: [bus_word(ones); 256],
        views: [view_word(ones); 256],
    }
}

// The controller bits of receiver i + 1: those of lost words are clear.
fn bits_to(n: usize, fate: &[u32; 256], i: usize) -> u32
    requires { (n ≤ 16) × (i < 16) }
    ensures { result ≡ pack n (λ j. not (eqb (get_or fate.now (i * 16 + j) 0) 7)) }
{
    bits::from_fn(n, |j| fate[i * 16 + j] != 7)
}

// The controller bits of all receivers.
fn arrived_bits(n: usize, fate: &[u32; 256]) -> [u32; 16]
    requires { n ≤ 16 }
    ensures { result ≡ array n (λ i. pack n (λ j. not (eqb (get_or fate.now (i * 16 + j) 0) 7))) }
{
    array::from_fn(n, |i| bits_to(n, fate, i))
}

// The words or the view words at all receivers: a told one in place of the one sent.
fn arrived_words(sent: [u32; 16], fate: &[u32; 256], told: &[u32; 256]) -> [u32; 256]
    ensures { result ≡ table (arriving fate.now told.now sent) }
{
    let mut words = [0u32; 256];
    for x in 0..256 {
        words[x] = pick(fate[x] == 8, told[x], sent[x % 16]);
    }
    words
}

// The words and the view words sent by the modules, with the events of the round.
pub fn arrived(n: usize, sent: [u32; 16], sent_views: [u32; 16], events: Events) -> Bus
    requires { n ≤ 16 }
    ensures { result ≡ arrived n sent sent_views events }
{
    Bus {
        bits: arrived_bits(n, &events.fate),
        words: arrived_words(sent, &events.fate, &events.told),
        views: arrived_words(sent_views, &events.fate, &events.views),
    }
}

// Rule 3: the words, or the view words, that module i + 1 reads, those of this round below its read place; from `at` on.
fn put_words(
    n: usize,
    place: u32,
    i: usize,
    this: &[u32; 256],
    before: &[u32; 256],
    out: &mut [u8],
    at: usize,
)
    requires { (n ≤ 16) × (i < 16) × (at ≤ 16) × ((at + n) * 4 ≤ length out.old) }
    ensures { out.new ≡ put_run out.old at n (entry_read place i this.now before.now) }
{
    for j in 0..n {
        let x = i * 16 + j;
        let w = pick((j as u32) < place, this[x], before[x]);
        put_word(out, at + j, w);
    }
}

// The read of module i + 1: the words, and after them the view words where the setup is partitionable.
pub fn put_read(
    partitionable: bool,
    n: usize,
    place: u32,
    i: usize,
    this: &[u32; 256],
    before: &[u32; 256],
    this_views: &[u32; 256],
    before_views: &[u32; 256],
    out: &mut [u8],
)
    requires { (n ≤ 16) × (i < 16) × (length out.old ≡ read_words partitionable n * 4) }
    ensures { out.new ≡ words_read partitionable n place i this.now before.now
        this_views.now before_views.now }
{
    put_words(n, place, i, this, before, out, 0);
    if partitionable {
        put_words(n, place, i, this_views, before_views, out, n);
    }
}

// Rule 3: the controller bits of that read.
#[tactic(auto, unfolding(crate::specs::Bus::bits_read))]
pub fn read_bits(n: usize, place: u32, this: u32, before: u32) -> u32
    requires { n ≤ 16 }
    ensures { result ≡ bits_read n place this before }
{
    bits::from_fn(n, |j| bit_at(pick((j as u32) < place, this, before), j))
}
