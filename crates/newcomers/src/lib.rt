// Many devices at once, from entries by value: each is stored as a record among bytes, and the call over bytes answers for the records.
// The call over a slice of structs, in `cimbrolau`, is made of these, each of which takes an entry by value.
#![tactic(auto)]

ghost use Rattle.std.specs.Prelude.{◌≡◌, ◌+◌, ◌*◌, ◌≤◌, ◌<◌, ◌^◌, length, take};
ghost use Rattle.wire.specs.Parts.{Wrote};
ghost use Rattle.cards.specs.Cards.{WritesBeside};
ghost use Rattle.cards.specs.Whole.{many_card};
ghost use Rattle.newcomers.specs.Records.{looked_at, record_of, record_put, stored_in, WideEntry};

use aerosnap::NewDevice;
use cards::{Card, Edited};

// A list holds 4,096 devices, so the next one is refused, and no entry behind it is met.
const LOOKED_AT: usize = 4097;

// How many entries of a table are looked at.
pub fn looked_at(count: usize) -> usize
    ensures { result ≡ looked_at count }
{
    count.min(LOOKED_AT)
}

// The record of one device, over the start of `out`.
fn put_record(out: &mut [u8], d: NewDevice)
    requires { 24 ≤ length out.old }
    ensures { Wrote (record_of d) out.old out.new 24 }
{
    wire::put_u32(out, 0, d.id);
    wire::put_u16(out, 4, d.version);
    wire::put_u16(out, 6, d.flags);
    wire::put_u64(out, 8, d.place);
    wire::put_u64(out, 16, d.length);
}

// Record i of a table in bytes; what does not fit is not written.
fn put_at(records: &mut [u8], i: usize, d: NewDevice)
    requires { i * 24 + 24 < 2 ^ 64 }
    ensures { records.new ≡ record_put i d records.old }
{
    let at = i * 24;
    if wire::fits(records.len(), at, 24) {
        put_record(&mut records[at..], d);
    }
}

// Record i of a table in bytes, if i is among the entries that are looked at, and the next number, which never passes theirs. An entry by value has numbers as wide as its fields.
pub fn put(records: &mut [u8], i: usize, d: NewDevice) -> usize
    ensures stored { (result ≡ looked_at (i + 1)) × (records.new ≡ stored_in i d records.old) }
    ensures wide { WideEntry d }
{
    if i < LOOKED_AT {
        put_at(records, i, d);
        return i + 1;
    }
    LOOKED_AT
}

// The call over bytes, for the first n records.
pub fn add_records(
    file: &[u8],
    card: Card,
    records: &[u8],
    n: usize,
    store: &[u8],
    out: &mut [u8],
) -> Edited
    ensures { WritesBeside card (many_card (length out.old) card file.now (take (n * 24) records.now) store.now) out.old result out.new }
{
    let end = records.len().min(n.saturating_mul(24));
    snapshot::add_devices(file, card, &records[..end], store, out)
}
