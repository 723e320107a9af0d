// What messages are: definitions of reading and writing one, and their laws. The functions that read and write are in `aipc`;
// here is what they share, a reading and what the bytes of a message say.
#![tactic(auto)]

ghost use Rattle.std.specs.Prelude.{◌≡◌};
ghost use Rattle.answer.specs.Calls.{outcome_of};
ghost use Rattle.wire.specs.Numbers.{le_at};
ghost use Rattle.messages.specs.Fields.{field_width, message_in, message_at};
ghost use Rattle.messages.specs.Reading.{reading};
ghost use Rattle.messages.specs.Steps.{commands, replies, notices};
ghost use Rattle.kinds.specs.declared.Field.TheVariants.{Error};

use answer::{Fault, TAKEN};
use kinds::Message;
use wire::{u8_at, u16_at, u32_at, u64_at};

// A message, and its data by place and length: 0 and 0 for a kind that has no data.
#[derive(Clone, Copy)]
pub struct Content {
    pub message: Message,
    pub start: u64,
    pub len: u64,
}

// The same in numbers: those of the first refusal, or 0 and 0 with the message and its data. The theorems of `demands` on readers speak of it.
#[derive(Clone, Copy)]
pub struct Reading {
    pub number: u32,
    pub place: u64,
    pub message: Message,
    pub start: u64,
    pub len: u64,
}

impl From<Result<Content, Fault>> for Reading {
    ghost from_gives = { λ r shown. shown ≡ reading (outcome_of r) };

    fn from(r: Result<Content, Fault>) -> Reading {
        match r {
            Ok(read) => Reading {
                number: TAKEN,
                place: 0,
                message: read.message,
                start: read.start,
                len: read.len,
            },
            Err(fault) => Reading {
                number: u32::from(fault.0),
                place: fault.1 as u64,
                message: Message::Nothing,
                start: 0,
                len: 0,
            },
        }
    }
}

// The error code, which is there exactly if `ok`, at 6, is 0.
fn error_at(m: &[u8]) -> u32
    ensures { result ≡ le_at (field_width (le_at 1 m.now 6) Error) m.now 11 }
{
    if u8_at(m, 6) == 0 {
        return u32_at(m, 11);
    }
    0
}

// What a message with the tag of a command says, be its bytes right or not.
#[tactic(auto, unfolding(crate::specs::Fields::numbers_at, kinds::specs::Kinds::paper))]
fn command(m: &[u8], tag: u16) -> Message
    ensures { result ≡ message_in commands tag m.now }
{
    match tag {
        kinds::NOP => Message::Nop(u32_at(m, 2)),
        kinds::SHUTDOWN => Message::Shutdown,
        kinds::MMIO_READ => Message::MmioRead(u32_at(m, 2), u64_at(m, 6), u32_at(m, 14)),
        kinds::MMIO_WRITE => Message::MmioWrite(u32_at(m, 2), u64_at(m, 6)),
        kinds::PORT_READ => Message::PortRead(u32_at(m, 2), u16_at(m, 6), u32_at(m, 8)),
        kinds::PORT_WRITE => Message::PortWrite(
            u32_at(m, 2),
            u16_at(m, 6),
            u32_at(m, 8),
            u32_at(m, 12),
        ),
        kinds::DISK_READ => Message::DiskRead(
            u32_at(m, 2),
            u64_at(m, 6),
            u32_at(m, 14),
            u64_at(m, 18),
        ),
        kinds::DISK_WRITE => Message::DiskWrite(
            u32_at(m, 2),
            u64_at(m, 6),
            u32_at(m, 14),
            u64_at(m, 18),
        ),
        _ => Message::Nothing,
    }
}

// The same of replies.
#[tactic(auto, unfolding(crate::specs::Fields::numbers_at, kinds::specs::Kinds::paper))]
fn reply(m: &[u8], tag: u16) -> Message
    ensures { result ≡ message_in replies tag m.now }
{
    match tag {
        kinds::ACK => Message::Ack(u32_at(m, 2)),
        kinds::MMIO_READ_RESP => Message::MmioReadResp(u32_at(m, 2)),
        kinds::PORT_READ_RESP => Message::PortReadResp(u32_at(m, 2), u32_at(m, 6)),
        kinds::MMIO_WRITE_RESP => Message::MmioWriteResp(u32_at(m, 2)),
        kinds::PORT_WRITE_RESP => Message::PortWriteResp(u32_at(m, 2)),
        kinds::DISK_READ_RESP => Message::DiskReadResp(
            u32_at(m, 2),
            u8_at(m, 6),
            u32_at(m, 7),
            error_at(m),
        ),
        kinds::DISK_WRITE_RESP => Message::DiskWriteResp(
            u32_at(m, 2),
            u8_at(m, 6),
            u32_at(m, 7),
            error_at(m),
        ),
        _ => Message::Nothing,
    }
}

// The same of the other events.
#[tactic(auto, unfolding(crate::specs::Fields::numbers_at, kinds::specs::Kinds::paper))]
fn notice(m: &[u8], tag: u16) -> Message
    ensures { result ≡ message_in notices tag m.now }
{
    match tag {
        kinds::FRAME_READY => Message::FrameReady(u64_at(m, 2)),
        kinds::IRQ_RAISE => Message::IrqRaise(u8_at(m, 2)),
        kinds::IRQ_LOWER => Message::IrqLower(u8_at(m, 2)),
        kinds::A20_SET => Message::A20Set(u8_at(m, 2)),
        kinds::RESET_REQUEST => Message::ResetRequest,
        kinds::LOG => Message::Log(u8_at(m, 2)),
        kinds::SERIAL_OUTPUT => Message::SerialOutput(u16_at(m, 2)),
        kinds::PANIC => Message::Panic,
        kinds::TRIPLE_FAULT => Message::TripleFault,
        _ => Message::Nothing,
    }
}

// What the bytes of a message say, be they right or not: the kind of the tag with the numbers behind it.
pub fn said(m: &[u8]) -> Message
    ensures { result ≡ message_at m.now }
{
    let tag = u16_at(m, 0);
    if tag < kinds::ACK {
        return command(m, tag);
    }
    if tag < kinds::FRAME_READY {
        return reply(m, tag);
    }
    notice(m, tag)
}
