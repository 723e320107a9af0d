// A message as a tag and four numbers, for callers that have no enum of kinds: the numbers of the kind in the order of its fields, 0 where there is none.
// Calls by numbers are those of `aipc` behind one table; nothing here reads or writes a message's bytes.
#![tactic(auto)]

ghost use Rattle.std.specs.Prelude.{◌≡◌, length};
ghost use Rattle.answer.specs.Calls.{outcome_of, Writes};
ghost use Rattle.kinds.specs.Kinds.{kinds};
ghost use Rattle.messages.specs.Reading.{read_message, reading};
ghost use Rattle.numbers.specs.Numbers.{numbers_of, message_of, told, write_numbers};
ghost use Rattle.numbers.specs.Steps.{narrow_in, same_numbers};

use answer::{Answer, Fault, Refusal};
use kinds::{Form, Message};
use messages::{Content, Reading};

// A message by its tag and its numbers.
#[derive(Clone, Copy)]
pub struct Numbers {
    pub tag: u32,
    pub a: u64,
    pub b: u64,
    pub c: u64,
    pub d: u64,
}

// What reading a message gives: number and place of the first refusal, or 0 and 0 with the tag, the numbers, and the place and length of the data.
#[repr(C)]
#[derive(Clone, Copy)]
pub struct Told {
    pub number: u32,
    pub place: u64,
    pub tag: u32,
    pub a: u64,
    pub b: u64,
    pub c: u64,
    pub d: u64,
    pub data_place: u64,
    pub data_length: u64,
}

// ---- from a message to its numbers

// The tag and the numbers of a message; all 0 of the case for nothing.
pub fn numbers_of(message: Message) -> Numbers
    ensures { result ≡ numbers_of message }
{
    let f = kinds::form_of(message);
    Numbers {
        tag: f.tag as u32,
        a: f.a.1,
        b: f.b.1,
        c: f.c.1,
        d: f.d.1,
    }
}

impl From<Result<Content, Fault>> for Told {
    ghost from_gives = { λ r shown. shown ≡ told (reading (outcome_of r)) };

    fn from(r: Result<Content, Fault>) -> Told {
        let read = Reading::from(r);
        let n = numbers_of(read.message);
        Told {
            number: read.number,
            place: read.place,
            tag: n.tag,
            a: n.a,
            b: n.b,
            c: n.c,
            d: n.d,
            data_place: read.start,
            data_length: read.len,
        }
    }
}

// ---- from numbers to a message

// The message of the tag, with as many low bytes of each number as its field has; nothing for an unknown tag.
#[tactic(auto, using(crate::proofs::Rows::whole), unfolding(kinds::specs::Kinds::paper))]
fn narrowed(tag: u16, n: Numbers) -> Message
    ensures { result ≡ narrow_in kinds tag n.a n.b n.c n.d }
{
    let a8 = (n.a % 256) as u8;
    let a16 = (n.a % 65536) as u16;
    let a32 = (n.a % 4294967296) as u32;
    let b8 = (n.b % 256) as u8;
    let b16 = (n.b % 65536) as u16;
    let b32 = (n.b % 4294967296) as u32;
    let c32 = (n.c % 4294967296) as u32;
    let d32 = (n.d % 4294967296) as u32;
    match tag {
        kinds::NOP => Message::Nop(a32),
        kinds::SHUTDOWN => Message::Shutdown,
        kinds::MMIO_READ => Message::MmioRead(a32, n.b, c32),
        kinds::MMIO_WRITE => Message::MmioWrite(a32, n.b),
        kinds::PORT_READ => Message::PortRead(a32, b16, c32),
        kinds::PORT_WRITE => Message::PortWrite(a32, b16, c32, d32),
        kinds::DISK_READ => Message::DiskRead(a32, n.b, c32, n.d),
        kinds::DISK_WRITE => Message::DiskWrite(a32, n.b, c32, n.d),
        kinds::ACK => Message::Ack(a32),
        kinds::MMIO_READ_RESP => Message::MmioReadResp(a32),
        kinds::PORT_READ_RESP => Message::PortReadResp(a32, b32),
        kinds::MMIO_WRITE_RESP => Message::MmioWriteResp(a32),
        kinds::PORT_WRITE_RESP => Message::PortWriteResp(a32),
        kinds::DISK_READ_RESP => Message::DiskReadResp(a32, b8, c32, d32),
        kinds::DISK_WRITE_RESP => Message::DiskWriteResp(a32, b8, c32, d32),
        kinds::FRAME_READY => Message::FrameReady(n.a),
        kinds::IRQ_RAISE => Message::IrqRaise(a8),
        kinds::IRQ_LOWER => Message::IrqLower(a8),
        kinds::A20_SET => Message::A20Set(a8),
        kinds::RESET_REQUEST => Message::ResetRequest,
        kinds::LOG => Message::Log(a8),
        kinds::SERIAL_OUTPUT => Message::SerialOutput(a16),
        kinds::PANIC => Message::Panic,
        kinds::TRIPLE_FAULT => Message::TripleFault,
        _ => Message::Nothing,
    }
}

// Whether a row has just these numbers.
fn same_numbers(f: Form, n: Numbers) -> bool
    ensures { result ≡ same_numbers f n }
{
    f.a.1 == n.a && f.b.1 == n.b && f.c.1 == n.c && f.d.1 == n.d
}

// The message of a tag and its numbers; an unknown tag is TAG, a number too wide for its field or beside a field that is not there VALUE.
pub fn message_of(n: Numbers) -> Result<Message, Fault>
    ensures { outcome_of result ≡ message_of n }
{
    let Ok(tag) = u16::try_from(n.tag) else {
        return Err(Fault(Refusal::Tag, 0));
    };
    let message = narrowed(tag, n);
    let f = kinds::form_of(message);
    if !f.known {
        return Err(Fault(Refusal::Tag, 0));
    }
    // a number that lost bytes on the way, or that went nowhere, is no longer the same
    if !same_numbers(f, n) {
        return Err(Fault(Refusal::Value, 0));
    }
    Ok(message)
}

// ---- the calls

// A message as its tag and its numbers, and its data by place and length; or the first refusal, and all else 0.
pub fn read(message: &[u8]) -> Told
    ensures { result ≡ told (reading (read_message message.now)) }
{
    Told::from(aipc::read(message))
}

// A message by its numbers, with its data, written from the start of `out` on; or the first refusal, and `out` stays as it was.
pub fn write(n: Numbers, bytes: &[u8], out: &mut [u8]) -> Answer
    ensures { Writes (write_numbers n bytes.now (length out.old)) out.old result out.new }
{
    match message_of(n) {
        Ok(message) => aipc::write(message, bytes, out),
        Err(fault) => Answer::from(fault),
    }
}
