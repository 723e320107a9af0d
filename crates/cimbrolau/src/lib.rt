// The front door: each call of the library for callers in C and in languages that call C. include/cimbrolau.h is its declaration.
// Each function hands its parameters to the call of the same meaning and returns what that answers; a slice comes as a pointer and a length.
#![tactic(auto)]

ghost use Rattle.std.specs.Prelude.{◌≡◌, length};
ghost use Rattle.answer.specs.Calls.{asked, verdict, Writes};
ghost use Rattle.aerosnap.specs.Calls.{check_call, sections_call, devices_call, disks_call, cpus_call, mmus_call, canonical_call};
ghost use Rattle.aerosnap.specs.Salvage.{salvage};
ghost use Rattle.salvage.specs.Salvaging.{Salvages};
ghost use Rattle.cards.specs.Cards.{open_answer, WritesBeside};
ghost use Rattle.cards.specs.Calls.{open_call, add_device_call, add_disk_call, remove_device_call, remove_disk_call, replace_device_call};
ghost use Rattle.cards.specs.Whole.{many_card};
ghost use Rattle.cards.specs.Whole.{add_all_card};
ghost use Rattle.snapshot.specs.MetaSection.{meta_call, as_meta};
ghost use Rattle.dskc.specs.Wrapper as wrapped;
ghost use Rattle.messages.specs.Reading.{read_message, reading};
ghost use Rattle.numbers.specs.Numbers.{told, write_numbers};
ghost use Rattle.region.specs.Region.{region_checks};
ghost use Rattle.region.specs.Report.{as_cursors, report_call};
ghost use Rattle.ready.specs.Missing.{ready_call, Tells};
ghost use Rattle.access.specs.Access.{access_of};
ghost use Rattle.fields.specs.declared.State.TheVariants.{Cpu, Mmu};
ghost use Rattle.fields.specs.Fields.{field_call, set_call, Changes};
ghost use Rattle.rings.specs.Calls.{as_answer, as_pair, as_record, Leaves, reserve_call, fill_call, commit_call, take_call};

use access::Access;
use aerosnap::NewDevice;
use answer::Answer;
use cards::{Card, Edited};
use numbers::{Numbers, Told};
use ready::Readiness;
use region::Cursors;
use rings::{Pair, Record};
use salvage::Salvaged;
use snapshot::MetaFields;

// ---- snapshot files

#[unsafe(no_mangle)]
pub extern "C" fn cimbrolau_check(file: &[u8]) -> Answer
    ensures { result ≡ verdict (check_call file.now) }
{
    snapshot::check(file)
}

#[unsafe(no_mangle)]
pub extern "C" fn cimbrolau_sections(file: &[u8], table: &mut [u8]) -> Answer
    ensures { Writes (sections_call (length table.old) file.now) table.old result table.new }
{
    snapshot::sections(file, table)
}

#[unsafe(no_mangle)]
pub extern "C" fn cimbrolau_devices(file: &[u8], table: &mut [u8]) -> Answer
    ensures { Writes (devices_call (length table.old) file.now) table.old result table.new }
{
    snapshot::devices(file, table)
}

#[unsafe(no_mangle)]
pub extern "C" fn cimbrolau_disks(file: &[u8], table: &mut [u8]) -> Answer
    ensures { Writes (disks_call (length table.old) file.now) table.old result table.new }
{
    snapshot::disks(file, table)
}

#[unsafe(no_mangle)]
pub extern "C" fn cimbrolau_cpus(file: &[u8], table: &mut [u8]) -> Answer
    ensures { Writes (cpus_call (length table.old) file.now) table.old result table.new }
{
    snapshot::cpus(file, table)
}

#[unsafe(no_mangle)]
pub extern "C" fn cimbrolau_mmus(file: &[u8], table: &mut [u8]) -> Answer
    ensures { Writes (mmus_call (length table.old) file.now) table.old result table.new }
{
    snapshot::mmus(file, table)
}

#[unsafe(no_mangle)]
pub extern "C" fn cimbrolau_meta(file: &[u8]) -> MetaFields
    ensures { result ≡ as_meta (meta_call file.now) }
{
    snapshot::meta(file)
}

#[unsafe(no_mangle)]
pub extern "C" fn cimbrolau_canonical(file: &[u8], out: &mut [u8]) -> Answer
    ensures { Writes (canonical_call (length out.old) file.now) out.old result out.new }
{
    snapshot::canonical(file, out)
}

#[unsafe(no_mangle)]
pub extern "C" fn cimbrolau_salvage(file: &[u8], out: &mut [u8], losses: &mut [u8]) -> Salvaged
    ensures { Salvages (salvage (length out.old) (length losses.old) file.now) out.old losses.old result out.new losses.new }
{
    snapshot::salvage(file, out, losses)
}

#[unsafe(no_mangle)]
pub extern "C" fn cimbrolau_open(file: &[u8]) -> Edited
    ensures { result ≡ open_answer (open_call file.now) }
{
    snapshot::open(file)
}

#[unsafe(no_mangle)]
pub extern "C" fn cimbrolau_add_device(
    file: &[u8],
    card: Card,
    id: u32,
    version: u16,
    flags: u16,
    payload: &[u8],
    out: &mut [u8],
) -> Edited
    ensures { WritesBeside card (add_device_call (length out.old) card file.now id version flags payload.now) out.old result out.new }
{
    snapshot::add_device(file, card, id, version, flags, payload, out)
}

#[unsafe(no_mangle)]
pub extern "C" fn cimbrolau_add_devices(
    file: &[u8],
    card: Card,
    table: &[u8],
    store: &[u8],
    out: &mut [u8],
) -> Edited
    ensures { WritesBeside card (many_card (length out.old) card file.now table.now store.now) out.old result out.new }
{
    snapshot::add_devices(file, card, table, store, out)
}

// The call over structs. Its records stand in an array of its own: no more than 4,097 entries are looked at.
#[unsafe(no_mangle)]
pub extern "C" fn cimbrolau_add_devices_of(
    file: &[u8],
    card: Card,
    table: &[NewDevice],
    store: &[u8],
    out: &mut [u8],
) -> Edited
    ensures { WritesBeside card (add_all_card (length out.old) card file.now table.now store.now) out.old result out.new }
{
    let mut records = [0u8; 98328];
    let n = newcomers::looked_at(table.len());
    for i in 0..n {
        newcomers::put(&mut records, i, table[i]);
    }
    newcomers::add_records(file, card, &records, n, store, out)
}

#[unsafe(no_mangle)]
pub extern "C" fn cimbrolau_add_disk(
    file: &[u8],
    card: Card,
    id: u32,
    base: &[u8],
    overlay: &[u8],
    out: &mut [u8],
) -> Edited
    ensures { WritesBeside card (add_disk_call (length out.old) card file.now id base.now overlay.now) out.old result out.new }
{
    snapshot::add_disk(file, card, id, base, overlay, out)
}

#[unsafe(no_mangle)]
pub extern "C" fn cimbrolau_remove_device(
    file: &[u8],
    card: Card,
    id: u32,
    version: u16,
    flags: u16,
    out: &mut [u8],
) -> Edited
    ensures { WritesBeside card (remove_device_call (length out.old) card file.now id version flags) out.old result out.new }
{
    snapshot::remove_device(file, card, id, version, flags, out)
}

#[unsafe(no_mangle)]
pub extern "C" fn cimbrolau_remove_disk(file: &[u8], card: Card, id: u32, out: &mut [u8]) -> Edited
    ensures { WritesBeside card (remove_disk_call (length out.old) card file.now id) out.old result out.new }
{
    snapshot::remove_disk(file, card, id, out)
}

#[unsafe(no_mangle)]
pub extern "C" fn cimbrolau_replace_device(
    file: &[u8],
    card: Card,
    id: u32,
    version: u16,
    flags: u16,
    payload: &[u8],
    out: &mut [u8],
) -> Edited
    ensures { WritesBeside card (replace_device_call (length out.old) card file.now id version flags payload.now) out.old result out.new }
{
    snapshot::replace_device(file, card, id, version, flags, payload, out)
}

// ---- disk-controller wrappers

#[unsafe(no_mangle)]
pub extern "C" fn cimbrolau_wrapper_check(wrapper: &[u8]) -> Answer
    ensures { result ≡ verdict (wrapped.wrapper_of wrapper.now) }
{
    dskc::check(wrapper)
}

#[unsafe(no_mangle)]
pub extern "C" fn cimbrolau_controllers(wrapper: &[u8], table: &mut [u8]) -> Answer
    ensures { Writes (wrapped.controllers_call (length table.old) wrapper.now) table.old result table.new }
{
    dskc::controllers(wrapper, table)
}

#[unsafe(no_mangle)]
pub extern "C" fn cimbrolau_wrapper_canonical(wrapper: &[u8], out: &mut [u8]) -> Answer
    ensures { Writes (wrapped.wrapper_canonical_call (length out.old) wrapper.now) out.old result out.new }
{
    dskc::canonical(wrapper, out)
}

// ---- readiness

#[unsafe(no_mangle)]
pub extern "C" fn cimbrolau_ready(file: &[u8], list: &mut [u8]) -> Readiness
    ensures { Tells (ready_call (length list.old) file.now) list.old result list.new }
{
    ready::ready(file, list)
}

// ---- messages

#[unsafe(no_mangle)]
pub extern "C" fn cimbrolau_message_read(message: &[u8]) -> Told
    ensures { result ≡ told (reading (read_message message.now)) }
{
    numbers::read(message)
}

#[unsafe(no_mangle)]
pub extern "C" fn cimbrolau_message_write(
    tag: u32,
    a: u64,
    b: u64,
    c: u64,
    d: u64,
    bytes: &[u8],
    out: &mut [u8],
) -> Answer
    ensures { Writes (write_numbers (record { tag = tag; a = a; b = b; c = c; d = d }) bytes.now (length out.old)) out.old result out.new }
{
    numbers::write(Numbers { tag, a, b, c, d }, bytes, out)
}

// ---- rings

#[unsafe(no_mangle)]
pub extern "C" fn cimbrolau_region_check(region: &[u8]) -> Answer
    ensures { result ≡ verdict (asked (region_checks region.now)) }
{
    region::check(region)
}

#[unsafe(no_mangle)]
pub extern "C" fn cimbrolau_ring_report(region: &[u8], queue: u32) -> Cursors
    ensures { result ≡ as_cursors (report_call region.now queue) }
{
    region::report(region, queue)
}

#[unsafe(no_mangle)]
pub extern "C" fn cimbrolau_ring_reserve(region: &mut [u8], queue: u32, length: u64) -> Pair
    ensures { Leaves as_pair (reserve_call region.old queue length) region.old result region.new }
{
    rings::reserve(region, queue, length)
}

#[unsafe(no_mangle)]
pub extern "C" fn cimbrolau_ring_fill(
    region: &mut [u8],
    queue: u32,
    start: u32,
    end: u32,
    payload: &[u8],
) -> Answer
    ensures { Leaves as_answer (fill_call region.old queue start end payload.now) region.old result region.new }
{
    rings::fill(region, queue, start, end, payload)
}

#[unsafe(no_mangle)]
pub extern "C" fn cimbrolau_ring_commit(
    region: &mut [u8],
    queue: u32,
    start: u32,
    end: u32,
) -> Answer
    ensures { Leaves as_answer (commit_call region.old queue start end) region.old result region.new }
{
    rings::commit(region, queue, start, end)
}

#[unsafe(no_mangle)]
pub extern "C" fn cimbrolau_ring_take(region: &mut [u8], queue: u32) -> Record
    ensures { Leaves as_record (take_call region.old queue) region.old result region.new }
{
    rings::take(region, queue)
}

// ---- register sheets

#[unsafe(no_mangle)]
pub extern "C" fn cimbrolau_cpu_field(
    state: &[u8],
    field: u32,
    index: u32,
    out: &mut [u8],
) -> Answer
    ensures { Writes (field_call Cpu (length out.old) state.now field index) out.old result out.new }
{
    fields::cpu_field(state, field, index, out)
}

#[unsafe(no_mangle)]
pub extern "C" fn cimbrolau_mmu_field(
    state: &[u8],
    field: u32,
    index: u32,
    out: &mut [u8],
) -> Answer
    ensures { Writes (field_call Mmu (length out.old) state.now field index) out.old result out.new }
{
    fields::mmu_field(state, field, index, out)
}

#[unsafe(no_mangle)]
pub extern "C" fn cimbrolau_cpu_set(
    state: &mut [u8],
    field: u32,
    index: u32,
    value: &[u8],
) -> Answer
    ensures { Changes (length value.now) (set_call Cpu state.old field index value.now) state.old result state.new }
{
    fields::cpu_set(state, field, index, value)
}

#[unsafe(no_mangle)]
pub extern "C" fn cimbrolau_mmu_set(
    state: &mut [u8],
    field: u32,
    index: u32,
    value: &[u8],
) -> Answer
    ensures { Changes (length value.now) (set_call Mmu state.old field index value.now) state.old result state.new }
{
    fields::mmu_set(state, field, index, value)
}

#[unsafe(no_mangle)]
pub extern "C" fn cimbrolau_access(word: u32) -> Access
    ensures { result ≡ access_of word }
{
    access::parts(word)
}
