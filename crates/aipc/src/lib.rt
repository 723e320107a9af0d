// AIPC messages, version 1: one is read from bytes, or written from its kind, its numbers and its data.
// A message is a u16 tag, then the fields of its kind in order, and nothing after.
#![tactic(auto)]

ghost use Rattle.std.specs.Prelude.{◌≡◌, ◌+◌, ◌≤◌, length};
ghost use Rattle.answer.specs.Outcome.{taken, checked};
ghost use Rattle.answer.specs.Calls.{outcome_of, asked, count_answer, Writes};
ghost use Rattle.wire.specs.Numbers.{bytes_of};
ghost use Rattle.wire.specs.Parts.{put};
ghost use Rattle.kinds.specs.Kinds.{cells, ok_of};
ghost use Rattle.messages.specs.Fields.{field_width, allowed as allowedOf};
ghost use Rattle.messages.specs.Reading.{message_most, cell_checks, left_over_checks, data_length, data_fits, body_checks, numbers_end, message_content, read_message};
ghost use Rattle.messages.specs.Writing.{body_bytes, form_bytes, data_checks, write_message};
ghost use Rattle.aipc.specs.Steps.{field_at, formed, text_part, all_allowed, limits as limitsOf, write_faults, writing, put_cells, put_body, put_form};

use answer::{Answer, Fault, Refusal};
pub use kinds::Message;
use kinds::{Body, Cell, Field, Form};
pub use messages::{Content, Reading};
use utf8::is_text;
use wire::{fits, u32_at};

const MOST: usize = 65536;

// How many bytes a field has. The error code is there exactly if `ok` is 0.
fn width(ok: u64, c: Cell) -> usize
    ensures { (result ≡ field_width ok c.0) × (result ≤ 8) }
{
    match c.0 {
        Field::Absent => 0,
        Field::U8 | Field::Flag | Field::Level => 1,
        Field::U16 => 2,
        Field::U32 => 4,
        Field::U64 => 8,
        Field::Error => {
            if ok == 0 {
                return 4;
            }
            0
        }
    }
}

// Whether a number is among the values of its field.
fn allowed(ok: u64, c: Cell) -> bool
    ensures { result ≡ allowedOf ok c.0 c.1 }
{
    let number = c.1;
    match c.0 {
        Field::Absent | Field::U8 | Field::U16 | Field::U32 | Field::U64 => true,
        Field::Flag => number <= 1,
        Field::Level => number <= 4,
        Field::Error => ok == 0 || number == 0,
    }
}

// ---- reading

// One field at a place: it fits, then its value; where it ends.
fn field_at(m: &[u8], ok: u64, c: Cell, at: usize) -> Result<usize, Fault>
    ensures { outcome_of result ≡ field_at ok c m.now at }
{
    let w = width(ok, c);
    if !fits(m.len(), at, w) {
        return Err(Fault(Refusal::Shape, at));
    }
    if !allowed(ok, c) {
        return Err(Fault(Refusal::Value, at));
    }
    Ok(at + w)
}

// The numbers, behind the tag; where they end. Four steps: as a loop over `cells` it took half again as long.
fn numbers(m: &[u8], f: Form) -> Result<usize, Fault>
    ensures { outcome_of result ≡ checked (cell_checks (ok_of f) (cells f) 2 m.now) (taken (numbers_end f)) }
{
    let ok = f.ok();
    let a = field_at(m, ok, f.a, 2)?;
    let b = field_at(m, ok, f.b, a)?;
    let c = field_at(m, ok, f.c, b)?;
    field_at(m, ok, f.d, c)
}

// Nothing follows: the first byte left over is SHAPE.
fn ended(m: &[u8], at: usize) -> Result<(), Fault>
    ensures { outcome_of result ≡ asked (left_over_checks m.now at) }
{
    if at < m.len() {
        return Err(Fault(Refusal::Shape, at));
    }
    Ok(())
}

// A length and as many bytes; where they end.
fn data_end(m: &[u8], at: usize) -> Result<usize, Fault>
    requires { at ≤ message_most }
    ensures { outcome_of result ≡ checked (data_fits at m.now) (taken (at + 4 + data_length at m.now)) }
{
    if !fits(m.len(), at, 4) {
        return Err(Fault(Refusal::Shape, at));
    }
    let n = u32_at(m, at) as usize;
    if !fits(m.len(), at + 4, n) {
        return Err(Fault(Refusal::Shape, at + 4));
    }
    Ok(at + 4 + n)
}

// The part from start to end is UTF-8, or TEXT at the byte at which it breaks.
fn text_part(m: &[u8], start: usize, end: usize) -> Result<(), Fault>
    requires { (start ≤ end) × (end ≤ length m.now) }
    ensures { outcome_of result ≡ asked (text_part start end m.now) }
{
    match utf8::text(&m[start..end]) {
        Ok(()) => Ok(()),
        Err(k) => Err(Fault(Refusal::Text, start + k)),
    }
}

// What stands behind the numbers, and nothing after.
fn body_test(m: &[u8], body: Body, at: usize) -> Result<(), Fault>
    requires { at ≤ message_most }
    ensures { outcome_of result ≡ asked (body_checks body at m.now) }
{
    match body {
        Body::Empty => ended(m, at),
        Body::Bytes => {
            let end = data_end(m, at)?;
            ended(m, end)
        }
        Body::Text => {
            let end = data_end(m, at)?;
            text_part(m, at + 4, end)?;
            ended(m, end)
        }
    }
}

// The message with the place and the length of its data.
fn content(m: &[u8], message: Message, body: Body, at: usize) -> Content
    requires { at ≤ message_most }
    ensures { result ≡ message_content message body at m.now }
{
    match body {
        Body::Empty => Content {
            message,
            start: 0,
            len: 0,
        },
        Body::Bytes | Body::Text => Content {
            message,
            start: (at + 4) as u64,
            len: u32_at(m, at) as u64,
        },
    }
}

// A message whose tag is known.
fn known(m: &[u8], message: Message, f: Form) -> Result<Content, Fault>
    ensures { outcome_of result ≡ formed message f m.now }
{
    let at = numbers(m, f)?;
    body_test(m, f.body, at)?;
    Ok(content(m, message, f.body, at))
}

// A message as its kind with its numbers, and its data by place and length; or the first refusal.
pub fn read(message: &[u8]) -> Result<Content, Fault>
    ensures { outcome_of result ≡ read_message message.now }
{
    if MOST < message.len() {
        return Err(Fault(Refusal::Limit, 0));
    }
    if message.len() < 2 {
        return Err(Fault(Refusal::Shape, 0));
    }
    let said = messages::said(message);
    let f = kinds::form_of(said);
    if !f.known {
        return Err(Fault(Refusal::Tag, 0));
    }
    known(message, said, f)
}

// ---- writing

// Whether each number is among the values of its field.
fn all_allowed(f: Form) -> bool
    ensures { result ≡ all_allowed f }
{
    let ok = f.ok();
    allowed(ok, f.a) && allowed(ok, f.b) && allowed(ok, f.c) && allowed(ok, f.d)
}

// Whether the data may stand there: none for a kind that has none, UTF-8 for a text.
fn data_test(body: Body, bytes: &[u8]) -> Result<(), Fault>
    ensures { outcome_of result ≡ asked (data_checks body bytes.now) }
{
    match body {
        Body::Empty if !bytes.is_empty() => Err(Fault(Refusal::Value, 0)),
        Body::Text if !is_text(bytes) => Err(Fault(Refusal::Text, 0)),
        _ => Ok(()),
    }
}

// The checks that go by the numbers and the data.
fn faults(f: Form, bytes: &[u8]) -> Result<(), Fault>
    ensures { outcome_of result ≡ asked (write_faults f bytes.now) }
{
    if !f.known {
        return Err(Fault(Refusal::Value, 0));
    }
    if !all_allowed(f) {
        return Err(Fault(Refusal::Value, 0));
    }
    data_test(f.body, bytes)
}

// The checks that go by the length needed.
fn limits(need: usize, have: usize) -> Result<(), Fault>
    ensures { outcome_of result ≡ asked (limitsOf need have) }
{
    if MOST < need {
        return Err(Fault(Refusal::Limit, 0));
    }
    answer::roomy(have, need)
}

// Where the numbers end. Here, where they are asked and where they are stored there are four terms: with loops over `cells` a call that writes took a quarter longer.
fn numbers_end(f: Form) -> usize
    ensures { (result ≡ numbers_end f) × (result ≤ 34) }
{
    let ok = f.ok();
    2 + width(ok, f.a) + width(ok, f.b) + width(ok, f.c) + width(ok, f.d)
}

fn body_size(body: Body, bytes: &[u8]) -> usize
    ensures { (result ≡ length (body_bytes body bytes.now)) × (result ≤ 4 + length bytes.now) }
{
    match body {
        Body::Empty => 0,
        Body::Bytes | Body::Text => 4 + bytes.len(),
    }
}

// How many bytes a message takes.
fn size(f: Form, bytes: &[u8]) -> usize
    ensures { result ≡ length (form_bytes f bytes.now) }
{
    numbers_end(f) + body_size(f.body, bytes)
}

// VALUE and TEXT, LIMIT, ROOM.
fn write_test(f: Form, bytes: &[u8], need: usize, have: usize) -> Result<(), Fault>
    requires { need ≡ length (form_bytes f bytes.now) }
    ensures { outcome_of result ≡ asked (writing f bytes.now have) }
{
    faults(f, bytes)?;
    limits(need, have)
}

// One field at a place.
fn put_field(out: &mut [u8], ok: u64, c: Cell, at: usize)
    ensures { out.new ≡ put at (bytes_of (field_width ok c.0) c.1) out.old }
{
    let x = c.1;
    match width(ok, c) {
        1 => wire::put_u8(out, at, (x % 256) as u8),
        2 => wire::put_u16(out, at, (x % 65536) as u16),
        4 => wire::put_u32(out, at, (x % 4294967296) as u32),
        8 => wire::put_u64(out, at, x),
        _ => {}
    }
}

// The numbers, behind the tag.
fn put_numbers(out: &mut [u8], f: Form)
    ensures { out.new ≡ put_cells (ok_of f) (cells f) 2 out.old }
{
    let ok = f.ok();
    let second = 2 + width(ok, f.a);
    let third = second + width(ok, f.b);
    let fourth = third + width(ok, f.c);
    put_field(out, ok, f.a, 2);
    put_field(out, ok, f.b, second);
    put_field(out, ok, f.c, third);
    put_field(out, ok, f.d, fourth);
}

// What stands behind them: nothing, or a length and as many bytes.
fn put_body(out: &mut [u8], body: Body, bytes: &[u8], at: usize)
    requires { at ≤ 34 }
    ensures { out.new ≡ put_body body bytes.now at out.old }
{
    match body {
        Body::Empty => {}
        Body::Bytes | Body::Text => {
            wire::put_u32(out, at, (bytes.len() % 4294967296) as u32);
            wire::copy(out, at + 4, bytes);
        }
    }
}

// A whole message.
fn put_form(out: &mut [u8], f: Form, bytes: &[u8])
    ensures { out.new ≡ put_form f bytes.now out.old }
{
    wire::put_u16(out, 0, f.tag);
    put_numbers(out, f);
    put_body(out, f.body, bytes, numbers_end(f));
}

fn try_write(message: Message, bytes: &[u8], out: &mut [u8]) -> Result<usize, Fault>
    ensures { Writes (write_message message bytes.now (length out.old)) out.old (count_answer (outcome_of result)) out.new }
{
    let f = kinds::form_of(message);
    let need = size(f, bytes);
    write_test(f, bytes, need, out.len())?;
    put_form(out, f, bytes);
    Ok(need)
}

// A message with its data, written from the start of `out` on; or the first refusal, and `out` stays as it was.
pub fn write(message: Message, bytes: &[u8], out: &mut [u8]) -> Answer
    ensures { Writes (write_message message bytes.now (length out.old)) out.old result out.new }
{
    Answer::from(try_write(message, bytes, out))
}
