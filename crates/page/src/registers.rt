// The words of a page, as an opening, a step and the host write them, and the interrupt.
ghost use Rattle.std.specs.Prelude.{◌≡◌, ℕ, ◌^◌, ◌≤◌, ◌<◌, length, get_or};
ghost use Rattle.page.specs.Page.{opened_word, page_opened, four_codes, put_causes, somebody_charged, raised, page_stepped, page_written, interrupt_on};

use crate::flags::{cleared, joined, shared};
use words::bits::{flag, full_of, pick};
use words::word::{put_word, word_at};

// Word i of an opened page.
fn opened_word(n: usize, view: u32, i: usize) -> u32
    requires { n ≤ 16 }
    ensures { result ≡ opened_word n view i }
{
    let health = full_of(n);
    pick(i == 0, health, pick(i == 1, view, 0))
}

// Writes an opened page.
pub fn open_page(n: usize, view: u32, page: &mut [u8])
    requires { (n ≤ 16) × (length page.old ≡ 64) }
    ensures { page.new ≡ page_opened n view }
{
    for i in 0..16 {
        let w = opened_word(n, view, i);
        put_word(page, i, w);
    }
}

// Whether somebody in the view has health 0.
fn somebody_charged(n: usize, view: u32, health: u32) -> bool
    requires { (n ≤ 16) × (view < 2 ^ n) }
    ensures { result ≡ somebody_charged n view health }
{
    cleared(view, health) != 0
}

// The flags after a step.
fn raise(flags: u32, changed: bool, charged: bool) -> u32
    ensures { result ≡ raised flags changed charged }
{
    joined(flags, flag(changed) + flag(charged) * 2)
}

// Four codes in a word, the first topmost.
fn cause_word(a: u32, b: u32, c: u32, d: u32) -> u32
    requires { (a ≤ 3) × (b ≤ 3) × (c ≤ 3) × (d ≤ 3) }
    ensures { result ≡ four_codes a b c d }
{
    a * 16777216 + b * 65536 + c * 256 + d
}

// Writes the causes of a read.
fn put_causes(causes: [u32; 16], page: &mut [u8])
    requires { (length page.old ≡ 64) × ((k : ℕ) → k < 16 → get_or causes k 0 ≤ 3) }
    ensures { page.new ≡ put_causes causes page.old }
{
    for i in 0..4 {
        let k = 4 * i;
        let w = cause_word(causes[k], causes[k + 1], causes[k + 2], causes[k + 3]);
        put_word(page, 4 + i, w);
    }
}

// Writes what a step leaves: the view before it, the health vector, the view after it and the causes of its read.
pub fn step_page(n: usize, before: u32, health: u32, after: u32, causes: [u32; 16], page: &mut [u8])
    requires { (n ≤ 16) × (before < 2 ^ n) × (length page.old ≡ 64) × ((k : ℕ) → k < 16 → get_or causes k 0 ≤ 3) }
    ensures { page.new ≡ page_stepped n before health after causes page.old }
{
    let changed = word_at(page, 1) != after;
    let charged = somebody_charged(n, before, health);
    let flags = raise(word_at(page, 2), changed, charged);
    put_word(page, 0, health);
    put_word(page, 1, after);
    put_word(page, 2, flags);
    put_causes(causes, page);
}

// Writes a word of the host: 8 is the offset of the flags, and any other stands for that of enable.
pub fn write_page(offset: u32, value: u32, page: &mut [u8])
    requires { length page.old ≡ 64 }
    ensures { page.new ≡ page_written offset value page.old }
{
    if offset == 8 {
        let flags = cleared(word_at(page, 2), value);
        put_word(page, 2, flags);
    } else {
        put_word(page, 3, value);
    }
}

// Whether the interrupt is on.
pub fn interrupt_on(page: &[u8]) -> bool
    requires { length page.now ≡ 64 }
    ensures { result ≡ interrupt_on page.now }
{
    shared(word_at(page, 2), word_at(page, 3))
}
