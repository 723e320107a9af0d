// Readers of pieces at a place of a slice: a block, a sized piece, a text, a presence byte.
// Each takes every slice and every place, and promises what the format's one reader finds there.
#![tactic(auto)]

ghost use Rattle.std.specs.Prelude.{◌≡◌, ◌+◌, ◌≤◌, length};
ghost use Rattle.answer.specs.Calls.{outcome_of};
ghost use Rattle.wire.specs.Numbers.{le_at};
ghost use Rattle.format.specs.Format.{bytes, blob, text};
ghost use Rattle.format.specs.Places.{read_at, present_at};

use answer::{Fault, Refusal};

// n bytes.
pub fn block_at(s: &[u8], at: usize, n: usize) -> Result<usize, Fault>
    ensures { outcome_of result ≡ read_at (bytes n) s.now at }
{
    if wire::left(s.len(), at) < n {
        return Err(Fault(Refusal::Shape, at));
    }
    Ok(at + n)
}

// Behind a length of w bytes at `at` that says n.
fn held_at(s: &[u8], at: usize, w: usize, n: u64, most: u64) -> Result<usize, Fault>
    requires { (at + w ≤ length s.now) × (n ≡ le_at w s.now at) }
    ensures { outcome_of result ≡ read_at (blob w most) s.now at }
{
    if most < n {
        return Err(Fault(Refusal::Limit, at));
    }
    let b = at + w;
    let left = s.len() - b;
    if (left as u64) < n {
        return Err(Fault(Refusal::Shape, b));
    }
    Ok(b + (n as usize))
}

// A u32 length, at most so much, and as many bytes.
pub fn part_at(s: &[u8], at: usize, most: u32) -> Result<usize, Fault>
    ensures { outcome_of result ≡ read_at (blob 4 most) s.now at }
{
    if wire::fits(s.len(), at, 4) {
        return held_at(s, at, 4, wire::u32_at(s, at) as u64, most as u64);
    }
    Err(Fault(Refusal::Shape, at))
}

// A u64 length, at most so much, and as many bytes. Beside `part_at`, since the two read numbers of two types.
pub fn blob_at(s: &[u8], at: usize, most: u64) -> Result<usize, Fault>
    ensures { outcome_of result ≡ read_at (blob 8 most) s.now at }
{
    if wire::fits(s.len(), at, 8) {
        return held_at(s, at, 8, wire::u64_at(s, at), most);
    }
    Err(Fault(Refusal::Shape, at))
}

// A u32 length, at most so much, and as many bytes of UTF-8.
pub fn text_at(s: &[u8], at: usize, most: u32) -> Result<usize, Fault>
    ensures { outcome_of result ≡ read_at (text most) s.now at }
{
    let e = part_at(s, at, most)?;
    let b = at + 4;
    match utf8::text(&s[b..e]) {
        Ok(()) => Ok(e),
        Err(k) => Err(Fault(Refusal::Text, b + k)),
    }
}

// A presence byte: 0, or 1 with something behind it.
pub fn flag_at(s: &[u8], at: usize) -> Result<bool, Fault>
    ensures { outcome_of result ≡ present_at s.now at }
{
    if s.len() <= at {
        return Err(Fault(Refusal::Shape, at));
    }
    match s[at] {
        0 => Ok(false),
        1 => Ok(true),
        _ => Err(Fault(Refusal::Value, at)),
    }
}
