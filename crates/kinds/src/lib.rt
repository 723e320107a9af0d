// The kinds of AIPC messages: the enum of commands and events with their numbers, and each kind's row of document 000's tables.
#![tactic(auto)]

ghost use Rattle.std.specs.Prelude.{◌≡◌, slice_index_or};
ghost use Rattle.kinds.specs.declared.Field.TheVariants.{U16, U32, U64, Flag, Error};
ghost use Rattle.kinds.specs.declared.Body.TheVariants.{Empty};
ghost use Rattle.kinds.specs.Kinds.{paper, form_row, cell, cells, ok_of, none};

// A command or an event with its numbers, in the order of its fields. Nothing stands where there is no reading.
// `Nothing` is a case and no `Option`: `aipc::write` takes it and refuses it, as `paper` and `write_checks` say.
#[derive(Clone, Copy)]
pub enum Message {
    Nothing,
    Nop(u32),
    Shutdown,
    MmioRead(u32, u64, u32),
    MmioWrite(u32, u64),
    PortRead(u32, u16, u32),
    PortWrite(u32, u16, u32, u32),
    DiskRead(u32, u64, u32, u64),
    DiskWrite(u32, u64, u32, u64),
    Ack(u32),
    MmioReadResp(u32),
    PortReadResp(u32, u32),
    MmioWriteResp(u32),
    PortWriteResp(u32),
    DiskReadResp(u32, u8, u32, u32),
    DiskWriteResp(u32, u8, u32, u32),
    FrameReady(u64),
    IrqRaise(u8),
    IrqLower(u8),
    A20Set(u8),
    ResetRequest,
    Log(u8),
    SerialOutput(u16),
    Panic,
    TripleFault,
}

// What a field is: a number of so many bytes, a flag (`ok`, A20), a log level, or the error code beside an `ok`.
#[derive(Clone, Copy)]
pub enum Field {
    Absent,
    U8,
    U16,
    U32,
    U64,
    Flag,
    Level,
    Error,
}

// What stands behind the numbers: nothing, or a u32 length and as many bytes, which in a text are UTF-8.
#[derive(Clone, Copy)]
pub enum Body {
    Empty,
    Bytes,
    Text,
}

// A field and its number.
#[derive(Clone, Copy)]
pub struct Cell(pub Field, pub u64);

// A message in document 01's terms: its tag, its fields with their numbers (0 where there is none), and what stands behind them.
// `known` is no `Option`: `paper` gives each message its row, and `read_checks` asks of it whether the tag is known.
#[derive(Clone, Copy)]
pub struct Form {
    pub known: bool,
    pub tag: u16,
    pub a: Cell,
    pub b: Cell,
    pub c: Cell,
    pub d: Cell,
    pub body: Body,
}

impl Form {
    // The fields with their numbers, in order.
    pub fn cells(self) -> [Cell; 4]
        ensures { result ≡ cells self }
    {
        [self.a, self.b, self.c, self.d]
    }

    // `ok`, the second number of the two kinds that have it.
    pub fn ok(self) -> u64
        ensures { result ≡ ok_of self }
    {
        self.b.1
    }
}

// ---- the tags: commands, then events
// Constants and no enum of tags: each number stands once for both directions, where an enum's `TryFrom` would say it again.

pub const NOP: u16 = 0x0000;

pub const SHUTDOWN: u16 = 0x0001;

pub const MMIO_READ: u16 = 0x0100;

pub const MMIO_WRITE: u16 = 0x0101;

pub const PORT_READ: u16 = 0x0102;

pub const PORT_WRITE: u16 = 0x0103;

pub const DISK_READ: u16 = 0x0104;

pub const DISK_WRITE: u16 = 0x0105;

pub const ACK: u16 = 0x1000;

pub const MMIO_READ_RESP: u16 = 0x1100;

pub const PORT_READ_RESP: u16 = 0x1101;

pub const MMIO_WRITE_RESP: u16 = 0x1102;

pub const PORT_WRITE_RESP: u16 = 0x1103;

pub const DISK_READ_RESP: u16 = 0x1104;

pub const DISK_WRITE_RESP: u16 = 0x1105;

pub const FRAME_READY: u16 = 0x1200;

pub const IRQ_RAISE: u16 = 0x1300;

pub const IRQ_LOWER: u16 = 0x1301;

pub const A20_SET: u16 = 0x1302;

pub const RESET_REQUEST: u16 = 0x1303;

pub const LOG: u16 = 0x1400;

pub const SERIAL_OUTPUT: u16 = 0x1500;

pub const PANIC: u16 = 0x1FFE;

pub const TRIPLE_FAULT: u16 = 0x1FFF;

// ---- the rows: a tag, up to four numbers, and what stands behind them

const NONE: Cell = Cell(Field::Absent, 0);

const NOTHING: Form = Form {
    known: false,
    tag: 0,
    a: NONE,
    b: NONE,
    c: NONE,
    d: NONE,
    body: Body::Empty,
};

impl From<u16> for Cell {
    ghost from_gives = { λ x c. c ≡ cell U16 x };

    fn from(x: u16) -> Cell {
        Cell(Field::U16, x as u64)
    }
}

impl From<u32> for Cell {
    ghost from_gives = { λ x c. c ≡ cell U32 x };

    fn from(x: u32) -> Cell {
        Cell(Field::U32, x as u64)
    }
}

impl From<u64> for Cell {
    ghost from_gives = { λ x c. c ≡ cell U64 x };

    fn from(x: u64) -> Cell {
        Cell(Field::U64, x)
    }
}

// One byte, which may be a flag or a level.
fn byte(field: Field, x: u8) -> Cell
    ensures { result ≡ cell field x }
{
    Cell(field, x as u64)
}

// A row of as many cells as a message has numbers, up to four.
#[inline]
fn row(tag: u16, cells: &[Cell], body: Body) -> Form
    ensures { result ≡ form_row tag (slice_index_or cells.now 0 none) (slice_index_or cells.now 1 none) (slice_index_or cells.now 2 none) (slice_index_or cells.now 3 none) body }
{
    let cell_at = |i: usize| cells.get(i).copied().unwrap_or(NONE);
    Form {
        known: true,
        tag,
        a: cell_at(0),
        b: cell_at(1),
        c: cell_at(2),
        d: cell_at(3),
        body,
    }
}

// What a disk answers: `ok`, the bytes, and the error code that stands there beside an `ok` of 0.
fn disk_resp(tag: u16, id: u32, ok: u8, bytes: u32, error: u32) -> Form
    ensures { result ≡ form_row tag (cell U32 id) (cell Flag ok) (cell U32 bytes) (cell Error error) Empty }
{
    let error = Cell(Field::Error, error as u64);
    row(
        tag,
        &[id.into(), byte(Field::Flag, ok), bytes.into(), error],
        Body::Empty,
    )
}

// A message in document 01's terms: each case of the enum has its row of document 000's tables.
#[tactic(auto, unfolding(crate::specs::Kinds::paper))]
pub fn form_of(message: Message) -> Form
    ensures { result ≡ paper message }
{
    match message {
        Message::Nothing => NOTHING,
        Message::Nop(seq) => row(NOP, &[seq.into()], Body::Empty),
        Message::Shutdown => row(SHUTDOWN, &[], Body::Empty),
        Message::MmioRead(id, addr, size) => row(
            MMIO_READ,
            &[id.into(), addr.into(), size.into()],
            Body::Empty,
        ),
        Message::MmioWrite(id, addr) => row(MMIO_WRITE, &[id.into(), addr.into()], Body::Bytes),
        Message::PortRead(id, at, size) => row(
            PORT_READ,
            &[id.into(), at.into(), size.into()],
            Body::Empty,
        ),
        Message::PortWrite(id, at, size, value) => row(
            PORT_WRITE,
            &[id.into(), at.into(), size.into(), value.into()],
            Body::Empty,
        ),
        Message::DiskRead(id, at, len, to) => row(
            DISK_READ,
            &[id.into(), at.into(), len.into(), to.into()],
            Body::Empty,
        ),
        Message::DiskWrite(id, at, len, from) => row(
            DISK_WRITE,
            &[id.into(), at.into(), len.into(), from.into()],
            Body::Empty,
        ),
        Message::Ack(seq) => row(ACK, &[seq.into()], Body::Empty),
        Message::MmioReadResp(id) => row(MMIO_READ_RESP, &[id.into()], Body::Bytes),
        Message::PortReadResp(id, x) => row(PORT_READ_RESP, &[id.into(), x.into()], Body::Empty),
        Message::MmioWriteResp(id) => row(MMIO_WRITE_RESP, &[id.into()], Body::Empty),
        Message::PortWriteResp(id) => row(PORT_WRITE_RESP, &[id.into()], Body::Empty),
        Message::DiskReadResp(id, ok, n, error) => disk_resp(DISK_READ_RESP, id, ok, n, error),
        Message::DiskWriteResp(id, ok, n, error) => disk_resp(DISK_WRITE_RESP, id, ok, n, error),
        Message::FrameReady(frame_id) => row(FRAME_READY, &[frame_id.into()], Body::Empty),
        Message::IrqRaise(irq) => row(IRQ_RAISE, &[byte(Field::U8, irq)], Body::Empty),
        Message::IrqLower(irq) => row(IRQ_LOWER, &[byte(Field::U8, irq)], Body::Empty),
        Message::A20Set(enabled) => row(A20_SET, &[byte(Field::Flag, enabled)], Body::Empty),
        Message::ResetRequest => row(RESET_REQUEST, &[], Body::Empty),
        Message::Log(level) => row(LOG, &[byte(Field::Level, level)], Body::Text),
        Message::SerialOutput(at) => row(SERIAL_OUTPUT, &[at.into()], Body::Bytes),
        Message::Panic => row(PANIC, &[], Body::Text),
        Message::TripleFault => row(TRIPLE_FAULT, &[], Body::Empty),
    }
}
