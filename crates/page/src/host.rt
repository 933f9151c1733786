// The calls of the host on a page: it reads any word, writes the flags and enable, and asks for the interrupt. A refused call writes nothing.
// The answer's word is one of the page, or the interrupt as 1 or 0.
ghost use Rattle.std.specs.Prelude.{◌≡◌};
ghost use Rattle.calls.specs.Answers.{word_told};
ghost use Rattle.page.specs.Page.{starts_word};
ghost use Rattle.page.specs.Host.{written, read_call, write_call, interrupt_call};

use crate::registers::{interrupt_on, write_page};
use calls::WordAnswer;
use words::bits::flag;
use words::check::single;
use words::word::word_at;
use words::{Number, Refusal};

// Whether a byte offset is the start of one of the 16 words.
fn starts_word(offset: u32) -> bool
    ensures { result ≡ starts_word offset }
{
    (offset % 4 == 0) & (offset < 64)
}

// The word at a byte offset: 9, 17.
fn read(page: &[u8], offset: u32) -> Result<u32, Refusal>
    ensures { word_told result ≡ read_call page.now offset }
{
    single(page.len() == 64, Number::Lent, 0)?;
    single(starts_word(offset), Number::Offset, 0)?;
    Ok(word_at(page, (offset / 4) as usize))
}

// Writes a word, and tells the interrupt after it: 9, 17, 18.
fn write(page: &mut [u8], offset: u32, value: u32) -> Result<u32, Refusal>
    ensures { written (word_told result) page.new ≡ write_call page.old offset value }
{
    single(page.len() == 64, Number::Lent, 0)?;
    single(starts_word(offset), Number::Offset, 0)?;
    let written = (offset == 8) | (offset == 12);
    single(written, Number::Register, 0)?;
    write_page(offset, value, page);
    Ok(flag(interrupt_on(page)))
}

// Whether the interrupt is on: 9.
fn interrupt(page: &[u8]) -> Result<u32, Refusal>
    ensures { word_told result ≡ interrupt_call page.now }
{
    single(page.len() == 64, Number::Lent, 0)?;
    Ok(flag(interrupt_on(page)))
}

// The word at a byte offset: 9, 17.
pub fn presence_page_read(page: &[u8], offset: u32) -> WordAnswer
    ensures { result ≡ read_call page.now offset }
{
    read(page, offset).into()
}

// Writes a word, and tells the interrupt after it: 9, 17, 18.
pub fn presence_page_write(page: &mut [u8], offset: u32, value: u32) -> WordAnswer
    ensures { written result page.new ≡ write_call page.old offset value }
{
    write(page, offset, value).into()
}

// Whether the interrupt is on: 9.
pub fn presence_page_interrupt(page: &[u8]) -> WordAnswer
    ensures { result ≡ interrupt_call page.now }
{
    interrupt(page).into()
}
