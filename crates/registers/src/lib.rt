// Registers of a state: those of 8 bytes one behind the other, and segments. They are read from a place on, and written over a state.
#![tactic(auto)]

ghost use Rattle.std.specs.Prelude.{◌≡◌, ◌+◌, ◌*◌, min, length};
ghost use Rattle.registers.specs.Registers.{words_at, words_over, segment_in, segment_over};

use wire::{put_u16, put_u32, put_u64, u16_at, u32_at, u64_at};

#[derive(Clone, Copy, Default)]
pub struct Segment {
    pub selector: u16,
    pub base: u64,
    pub limit: u32,
    pub access: u32,
}

// ---- registers of 8 bytes

// Where the register with a number starts, of those from a place on; the end, for all that start behind it.
fn start_of(len: usize, at: usize, i: usize) -> usize
    ensures { result ≡ min (i * 8 + at) len }
{
    i.saturating_mul(8).saturating_add(at).min(len)
}

// As many as the array has, from a place on; those past the end are 0.
pub fn words(s: &[u8], at: usize, a: &mut [u64])
    ensures { a.new ≡ words_at at (length a.old) s.now }
{
    for (i, word) in a.iter_mut().enumerate() {
        *word = u64_at(s, start_of(s.len(), at, i));
    }
}

// All of an array over a state, from a place on; what does not fit is not written.
pub fn put_words(s: &mut [u8], at: usize, a: &[u64])
    ensures { s.new ≡ words_over at a.now s.old }
{
    for (i, word) in a.iter().enumerate() {
        put_u64(s, start_of(s.len(), at, i), *word);
    }
}

// ---- segments

pub fn segment_at(s: &[u8], at: u32) -> Segment
    ensures { result ≡ segment_in s.now at }
{
    let p = at as usize;
    Segment {
        selector: u16_at(s, p),
        base: u64_at(s, p + 2),
        limit: u32_at(s, p + 10),
        access: u32_at(s, p + 14),
    }
}

pub fn put_segment(s: &mut [u8], at: u32, g: Segment)
    ensures { s.new ≡ segment_over at g s.old }
{
    let p = at as usize;
    put_u16(s, p, g.selector);
    put_u64(s, p + 2, g.base);
    put_u32(s, p + 10, g.limit);
    put_u32(s, p + 14, g.access);
}
