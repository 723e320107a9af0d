// Snapshot files, all calls: checked whole, their tables handed out, written in canonical form, and edited: a device or a disk more, one fewer, a payload exchanged.
// Slices that are handed on as `&s[..]` go in registers (decision 38).
#![tactic(auto)]

ghost use Rattle.std.specs.Prelude.{◌≡◌, true, cond, List, ℕ, ◌+◌, ◌*◌, ◌≤◌, eqb, length};
ghost use Rattle.answer.specs.Outcome.{taken, done};
ghost use Rattle.answer.specs.Calls.{outcome_of, verdict, Writes, WritesCount};
ghost use Rattle.wire.specs.Numbers.{le_at};
ghost use Rattle.wire.specs.Parts.{Wrote};
ghost use Rattle.tables.specs.Tables.{ROW, described};
ghost use Rattle.aerosnap.specs.Known.{known};
ghost use Rattle.aerosnap.specs.Payloads.{list, body_of};
ghost use Rattle.aerosnap.specs.File.{file_most, file_of};
ghost use Rattle.aerosnap.specs.Tables as file_tables;
ghost use Rattle.aerosnap.specs.Calls.{check_call, sections_call, devices_call, disks_call, cpus_call, mmus_call, canonical_call};
ghost use Rattle.aerosnap.specs.Salvage.{salvage};
ghost use Rattle.salvage.specs.Salvaging.{Salvages};
ghost use Rattle.cards.specs.Cards.{open_answer, WritesBeside};
ghost use Rattle.cards.specs.Calls.{open_call, add_device_call, add_disk_call, remove_device_call, remove_disk_call, replace_device_call};
ghost use Rattle.cards.specs.Whole.{many_card};
ghost use Rattle.sections.specs.Steps.{HoldsStarts};
ghost use Rattle.snapshot.specs.Walks.{Lists};
ghost use Rattle.snapshot.specs.MetaSection.{silent, meta_at, meta_call, as_meta};

use answer::{Answer, Fault, roomy};
use cards::{Card, Edited};
use edits::Edit;
use salvage::Salvaged;
use sections::Places;
use tables::{ROW, Table};

// A file that is no longer than its header has no section, and its tables are empty.
const HEADER: usize = 16;

const META: u32 = 1;

// The ids of the lists that have a table.
const DEVICES: u32 = 4;

const DISKS: u32 = 5;

const CPUS: u32 = 7;

const MMUS: u32 = 8;

// The first fault of a file, if any. Nothing is written before the whole file is looked at.
fn faults(file: &[u8]) -> Result<(), Fault>
    ensures { outcome_of result ≡ done (file_of file.now) }
{
    let mut index = [0u32; 1];
    sections::scan(file, &mut index[..0])?;
    Ok(())
}

// Whether a file is taken, or its first fault.
pub fn check(file: &[u8]) -> Answer
    ensures { result ≡ verdict (check_call file.now) }
{
    Answer::from(faults(file))
}

// Where the section at a place ends.
fn end_at(file: &[u8], at: usize) -> usize
    requires { at + (16 + le_at 8 file.now (at + 8)) ≤ file_most }
    ensures { result ≡ at + (16 + le_at 8 file.now (at + 8)) }
{
    at + (16 + (wire::u64_at(file, at + 8) as usize))
}

// The records of a file's sections, each with its number and into the tail of the output from where the last ended.
fn put_rows(file: &[u8], out: &mut [u8])
    requires { (l : List (List ℕ)) × (file_of file.now ≡ taken l) × (ROW * length l ≤ length out.old) }
    ensures { (l : List (List ℕ)) → file_of file.now ≡ taken l → Wrote (file_tables.section_rows 16 0 l) out.old out.new (ROW * length l) }
{
    let mut at = 16;
    let mut t = 0;
    let mut q = 0;
    // The place jumps by the length that each section says.
    while at < file.len() {
        tables::put_section(&mut out[t..], at as u32, q, wire::tail(file, at));
        at = end_at(file, at);
        t += ROW;
        q += 1;
    }
}

// The table of sections in file order. That a file has none is seen first.
fn section_table(file: &[u8], table: &mut [u8]) -> Result<usize, Fault>
    ensures { WritesCount (sections_call (length table.old) file.now) table.old result table.new }
{
    if file.len() <= HEADER {
        faults(file)?;
        return Ok(0);
    }
    let mut index = [0u32; 1];
    let n = sections::scan(file, &mut index[..0])?;
    let size = ROW * n;
    roomy(table.len(), size)?;
    put_rows(file, table);
    Ok(size)
}

// The table of sections in file order.
pub fn sections(file: &[u8], table: &mut [u8]) -> Answer
    ensures { Writes (sections_call (length table.old) file.now) table.old result table.new }
{
    Answer::from(section_table(file, table))
}

// The table of a list, by the id and the version of its section.
fn table_in(id: u32, version: u16) -> Table
    ensures { result ≡ file_tables.table_in id version }
{
    match id {
        DEVICES => Table::Devices,
        DISKS => Table::Disks,
        CPUS => Table::Cpus(version),
        _ => Table::Mmus(version),
    }
}

// The records of the list whose section is at a place, from its starts in the index, where there is room for them.
fn put_table(
    id: u32,
    file: &[u8],
    at: usize,
    index: &[u32],
    first: usize,
    table: &mut [u8],
) -> Result<usize, Fault>
    requires { Lists id file.now at index.now first }
    ensures { WritesCount (file_tables.list_table id (length table.old) file.now) table.old result table.new }
{
    let b = at + 16;
    let e = end_at(file, at);
    let n = wire::u32_at(file, b) as usize;
    let need = ROW * n;
    roomy(table.len(), need)?;
    let t = table_in(id, wire::u16_at(file, at + 4));
    let last = first + n;
    tables::put_rows(t, &file[b..e], b as u32, &index[first..last], table);
    Ok(need)
}

// The table of the list with an id, with room for the file's index.
fn list_table_in(id: u32, file: &[u8], index: &mut [u32], table: &mut [u8]) -> Result<usize, Fault>
    requires { (known id ≡ true) × ((v : ℕ) → body_of id v ≡ list (described (file_tables.table_in id v))) × HoldsStarts file.now (length index.old) }
    ensures { WritesCount (file_tables.list_table id (length table.old) file.now) table.old result table.new }
{
    let (at, first) = sections::check_and_find(&file[..], id, index)?;
    if file.len() <= at {
        return Ok(0);
    }
    put_table(id, &file[..], at, index, first, table)
}

// The same, with an index of so many places.
fn list_table_with<const N: usize>(id: u32, file: &[u8], table: &mut [u8]) -> Result<usize, Fault>
    requires is_list { (known id ≡ true) × ((v : ℕ) → body_of id v ≡ list (described (file_tables.table_in id v))) }
    requires places { HoldsStarts file.now N × (N ≤ 4864) }
    ensures { WritesCount (file_tables.list_table id (length table.old) file.now) table.old result table.new }
{
    let mut index = [0u32; N];
    list_table_in(id, &file[..], &mut index, table)
}

// The same, with an index of as many places as the file needs: clearing places costs more than reading a short list.
// Out of line: a file that has no section pays for no index.
#[inline(never)]
fn placed_table(id: u32, file: &[u8], table: &mut [u8]) -> Result<usize, Fault>
    requires { (known id ≡ true) × ((v : ℕ) → body_of id v ≡ list (described (file_tables.table_in id v))) }
    ensures { WritesCount (file_tables.list_table id (length table.old) file.now) table.old result table.new }
{
    match sections::places_for(&file[..], 64) {
        Places::Few => list_table_with::<32>(id, &file[..], table),
        Places::Some => list_table_with::<256>(id, &file[..], table),
        Places::All => list_table_with::<4864>(id, &file[..], table),
    }
}

// The table of the list with an id. That a file has no section is seen first.
fn list_table(id: u32, file: &[u8], table: &mut [u8]) -> Result<usize, Fault>
    requires { (known id ≡ true) × ((v : ℕ) → body_of id v ≡ list (described (file_tables.table_in id v))) }
    ensures { WritesCount (file_tables.list_table id (length table.old) file.now) table.old result table.new }
{
    if file.len() <= HEADER {
        faults(file)?;
        return Ok(0);
    }
    placed_table(id, &file[..], table)
}

// The table of devices in key order.
pub fn devices(file: &[u8], table: &mut [u8]) -> Answer
    ensures { Writes (devices_call (length table.old) file.now) table.old result table.new }
{
    Answer::from(list_table(DEVICES, file, table))
}

// The table of disks in key order.
pub fn disks(file: &[u8], table: &mut [u8]) -> Answer
    ensures { Writes (disks_call (length table.old) file.now) table.old result table.new }
{
    Answer::from(list_table(DISKS, file, table))
}

// The table of CPUs in key order; empty where a file has one CPU in a section of its own.
pub fn cpus(file: &[u8], table: &mut [u8]) -> Answer
    ensures { Writes (cpus_call (length table.old) file.now) table.old result table.new }
{
    Answer::from(list_table(CPUS, file, table))
}

// The table of MMUs in key order; empty where a file has one MMU in a section of its own.
pub fn mmus(file: &[u8], table: &mut [u8]) -> Answer
    ensures { Writes (mmus_call (length table.old) file.now) table.old result table.new }
{
    Answer::from(list_table(MMUS, file, table))
}

// ---- META

// What META says: number and place of the file's first fault, or 0 and 0; whether META is there, and if so the snapshot's id, whether it has a parent and the parent's id,
// the time in ms, whether it has a label, and the label's place in the file and length. What is not there is 0.
#[repr(C)]
#[derive(Clone, Copy)]
pub struct MetaFields {
    pub number: u32,
    pub present: u32,
    pub place: u64,
    pub id: u64,
    pub has_parent: u32,
    pub has_label: u32,
    pub parent: u64,
    pub time: u64,
    pub label_place: u64,
    pub label_length: u64,
}

// Where nothing is said.
fn silent(number: u32, place: u64) -> MetaFields
    ensures { result ≡ silent number place }
{
    MetaFields {
        number,
        present: 0,
        place,
        id: 0,
        has_parent: 0,
        has_label: 0,
        parent: 0,
        time: 0,
        label_place: 0,
        label_length: 0,
    }
}

// 1 behind a byte that says that something follows it.
fn follows(flag: u8) -> u32
    ensures { result ≡ cond (eqb flag 0) 0 1 }
{
    u32::from(flag != 0)
}

// A number that follows such a byte, or 0.
fn following(flag: u8, n: u64) -> u64
    ensures { result ≡ cond (eqb flag 0) 0 n }
{
    if flag == 0 { 0 } else { n }
}

// Where the time stands.
fn time_in(flag: u8) -> usize
    ensures { (result ≡ cond (eqb flag 0) 9 17) × (result ≤ 17) }
{
    if flag == 0 { 9 } else { 17 }
}

// What the payload of META says, which stands at a place of the file.
fn meta_at(at: u32, b: &[u8]) -> MetaFields
    ensures { result ≡ meta_at at b.now }
{
    let old = wire::u8_at(b, 8);
    let t = time_in(old);
    let l = t + 8;
    let named = wire::u8_at(b, l);
    let id = wire::u64_at(b, 0);
    let time = wire::u64_at(b, t);
    let parent = following(old, wire::u64_at(b, 9));
    let place = following(named, (at as u64) + ((l + 5) as u64));
    let length = following(named, wire::u32_at(b, l + 1) as u64);
    let has_parent = follows(old);
    let has_label = follows(named);
    MetaFields {
        number: 0,
        present: 1,
        place: 0,
        id,
        has_parent,
        has_label,
        parent,
        time,
        label_place: place,
        label_length: length,
    }
}

// What META says of a snapshot.
pub fn meta(file: &[u8]) -> MetaFields
    ensures { result ≡ as_meta (meta_call file.now) }
{
    let mut index = [0u32; 1];
    match sections::check_and_find(&file[..], META, &mut index[..0]) {
        Err(fault) => silent(u32::from(fault.0), fault.1 as u64),
        Ok((at, _)) => {
            if file.len() <= at {
                return silent(0, 0);
            }
            let b = at + 16;
            let e = end_at(file, at);
            meta_at(b as u32, &file[b..e])
        }
    }
}

// ---- writing, which crate canon does

// The canonical form of a file: the bytes that are written for its content.
pub fn canonical(file: &[u8], out: &mut [u8]) -> Answer
    ensures { Writes (canonical_call (length out.old) file.now) out.old result out.new }
{
    canon::canonical(file, out)
}

// What can be kept of a file, written canonically, and one record for each loss: u64 start, u64 bytes lost, u32 refusal number, u32 0. The place counts the file's bytes.
pub fn salvage(file: &[u8], out: &mut [u8], losses: &mut [u8]) -> Salvaged
    ensures { Salvages (salvage (length out.old) (length losses.old) file.now) out.old losses.old result out.new losses.new }
{
    salvage::salvage(file, out, losses)
}

// The true card of a file's canonical form.
pub fn open(file: &[u8]) -> Edited
    ensures { result ≡ open_answer (open_call file.now) }
{
    edits::open(file)
}

// The canonical form of a file's content and one device more.
pub fn add_device(
    file: &[u8],
    card: Card,
    id: u32,
    version: u16,
    flags: u16,
    payload: &[u8],
    out: &mut [u8],
) -> Edited
    ensures { WritesBeside card (add_device_call (length out.old) card file.now id version flags payload.now) out.old result out.new }
{
    let none = &file[..0];
    edits::edited(
        Edit::AddDevice(id, version, flags),
        card,
        payload,
        none,
        file,
        out,
    )
}

// The canonical form of a file's content and the devices of a table more: a record of 24 bytes for each, whose payload lies in the second buffer.
pub fn add_devices(file: &[u8], card: Card, table: &[u8], store: &[u8], out: &mut [u8]) -> Edited
    ensures { WritesBeside card (many_card (length out.old) card file.now table.now store.now) out.old result out.new }
{
    edits::added(card, table, store, file, out)
}

// The canonical form of a file's content and one disk more.
pub fn add_disk(
    file: &[u8],
    card: Card,
    id: u32,
    base: &[u8],
    overlay: &[u8],
    out: &mut [u8],
) -> Edited
    ensures { WritesBeside card (add_disk_call (length out.old) card file.now id base.now overlay.now) out.old result out.new }
{
    edits::edited(Edit::AddDisk(id), card, base, overlay, file, out)
}

// The canonical form of a file's content without one of its devices.
pub fn remove_device(
    file: &[u8],
    card: Card,
    id: u32,
    version: u16,
    flags: u16,
    out: &mut [u8],
) -> Edited
    ensures { WritesBeside card (remove_device_call (length out.old) card file.now id version flags) out.old result out.new }
{
    let none = &file[..0];
    edits::edited(
        Edit::RemoveDevice(id, version, flags),
        card,
        none,
        none,
        file,
        out,
    )
}

// The canonical form of a file's content without one of its disks.
pub fn remove_disk(file: &[u8], card: Card, id: u32, out: &mut [u8]) -> Edited
    ensures { WritesBeside card (remove_disk_call (length out.old) card file.now id) out.old result out.new }
{
    let none = &file[..0];
    edits::edited(Edit::RemoveDisk(id), card, none, none, file, out)
}

// The canonical form of a file's content with another payload in one of its devices.
pub fn replace_device(
    file: &[u8],
    card: Card,
    id: u32,
    version: u16,
    flags: u16,
    payload: &[u8],
    out: &mut [u8],
) -> Edited
    ensures { WritesBeside card (replace_device_call (length out.old) card file.now id version flags payload.now) out.old result out.new }
{
    let none = &file[..0];
    edits::edited(
        Edit::ReplaceDevice(id, version, flags),
        card,
        payload,
        none,
        file,
        out,
    )
}
