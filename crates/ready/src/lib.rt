// Ready to restore? One yes or no before a panel is switched, and for a no the list of what is missing.
// The crate stands above `snapshot` and `dskc` and knows them by their promises. The file is checked whole and once, by `snapshot::sections`, whose table says
// where the payloads of DEVICES and DISKS stand; their entries are passed by their lengths, and the wrapper is judged by `dskc::check`.
#![tactic(auto)]

ghost use Rattle.std.specs.Prelude.{◌≡◌, List, ℕ, ◌+◌, ◌≤◌, length, take, drop};
ghost use Rattle.answer.specs.Outcome.{taken, fitting};
ghost use Rattle.answer.specs.Calls.{WritesCount};
ghost use Rattle.wire.specs.Parts.{Wrote};
ghost use Rattle.format.specs.Format.{span};
ghost use Rattle.entries.specs.Kinds as kinds;
ghost use Rattle.entries.specs.Code.{describe};
ghost use Rattle.aerosnap.specs.File.{file_of};
ghost use Rattle.ready.specs.Missing.{ready_call, list_answer, Tells};
ghost use Rattle.ready.specs.Steps as steps;

use answer::{Fault, TAKEN, roomy};
use entries::Kind;
use tables::ROW;

// The answer: number and place; 1 for a yes, 0 for a no and beside a refusal.
#[repr(C)]
#[derive(Clone, Copy)]
pub struct Readiness {
    pub number: u32,
    pub ready: u32,
    pub place: u64,
}

// How many bytes of the list of what is missing are written: none of them is a yes.
impl From<Result<usize, Fault>> for Readiness {
    ghost from_gives = { λ r a. a ≡ list_answer r };

    fn from(r: Result<usize, Fault>) -> Readiness {
        match r {
            Ok(written) => Readiness {
                number: TAKEN,
                ready: u32::from(written == 0),
                place: written as u64,
            },
            Err(f) => Readiness {
                number: u32::from(f.0),
                ready: 0,
                place: f.1 as u64,
            },
        }
    }
}

// The ids of the sections that are looked into.
const DEVICES: u32 = 4;

const DISKS: u32 = 5;

// The pairs that name what is needed, as C reads them: 1 and the id of a device, 2 and that of a disk.
const NAMES: [[u32; 2]; 9] = [
    [1, 3],
    [1, 4],
    [1, 6],
    [1, 13],
    [1, 16],
    [1, 17],
    [1, 21],
    [2, 0],
    [2, 1],
];

// ---- the payloads of DEVICES and DISKS

// So many bytes from a place on, or as many as there are.
fn bytes_in(s: &[u8], at: usize, len: usize) -> &[u8]
    ensures { result.now ≡ take len (drop at s.now) }
{
    let rest = wire::tail(s, at);
    &rest[..len.min(rest.len())]
}

// The payload of the section of a file with an id, by the table of its sections; no bytes where none has the id.
fn payload_of<'a>(file: &'a [u8], table: &[u8], id: u32) -> &'a [u8]
    ensures { (l : List (List ℕ)) → steps.NamesSections file.now l table.now → result.now ≡ steps.payload_in id l }
{
    for row in table.chunks_exact(ROW) {
        if wire::u32_at(row, 0) == id {
            let at = wire::u64_at(row, 8) as usize;
            let len = wire::u64_at(row, 16) as usize;
            return bytes_in(file, at, len);
        }
    }
    &file[..0]
}

// ---- what is there

// What is noted when an entry with an id starts at a place: the place, or 1 if another had the id before. Ids past the last note are passed over.
// A note is a number and no enum: 0 for no entry and 1 for several are told from a place, 4 or more, by one test each, here and in `wrapper_at`.
fn note(id: usize, at: usize, notes: &mut [usize])
    ensures { notes.new ≡ steps.noted notes.old id at }
{
    if id < notes.len() {
        notes[id] = if notes[id] == 0 { at } else { 1 };
    }
}

// How many bytes the entry at a place has; that the list is one of devices is asked first, and their reader goes into the loop (decision 119).
fn length_in(kind: Kind, list: &[u8], at: usize) -> usize
    ensures { result ≡ length (take (span (describe kind).form (drop at list.now)) (drop at list.now)) }
{
    match kind {
        Kind::Devices => entries::device_length(list, at),
        _ => entries::length_at(kind, list, at),
    }
}

// The ids of a list's entries noted, one entry after another by their lengths.
fn note_all(kind: Kind, list: &[u8], notes: &mut [usize])
    ensures { (m : List (List ℕ)) → steps.Stands (describe kind) list.now m → steps.NotedAll m notes.old notes.new }
{
    let n = wire::u32_at(list, 0) as usize;
    let mut at = 4;
    for _ in 0..n {
        note(wire::u32_at(list, at) as usize, at, notes);
        at += length_in(kind, list, at);
    }
}

// Whether the one entry that starts at a place of the list of devices holds an accepted wrapper. No entry starts before the fourth byte.
fn wrapper_at(devices: &[u8], at: usize) -> bool
    ensures { result ≡ steps.wrapper_at devices.now at }
{
    if at < 4 {
        return false;
    }
    let entry = wire::tail(devices, at);
    let len = wire::u64_at(entry, 8) as usize;
    let answer = dskc::check(bytes_in(entry, 16, len));
    answer.number == TAKEN
}

// Whether each thing that is needed is there, in the order of NAMES. The notes are of the ids 0 to 21 of devices, and 0 and 1 of disks.
fn look(devices: &[u8], disks: &[u8]) -> [bool; 9]
    ensures { (m k : List (List ℕ)) → steps.Stands kinds.devices devices.now m → steps.Stands kinds.disks disks.now k → result ≡ steps.found_in devices.now m k }
{
    let mut d = [0usize; 22];
    note_all(Kind::Devices, devices, &mut d);
    let mut k = [0usize; 2];
    note_all(Kind::Disks, disks, &mut k);
    let wrapper = wrapper_at(devices, d[6]);
    let controller = d[2] != 0 || d[21] != 0;
    [
        d[3] != 0,
        d[4] != 0,
        wrapper,
        d[13] != 0,
        d[16] != 0,
        d[17] != 0,
        controller,
        k[0] != 0,
        k[1] != 0,
    ]
}

// ---- the list of what is missing

// The pair with the number i if what it names is missing; and where the next one goes.
fn put_name(there: bool, i: usize, at: usize, out: &mut [u8]) -> usize
    requires { (i ≤ 8) × (at + 8 ≤ length out.old) }
    ensures { steps.PutAt (steps.pair_for (steps.wanted_name i) there) at out.old out.new result }
{
    if there {
        return at;
    }
    let p = NAMES[i];
    wire::put_u32(out, at, p[0]);
    wire::put_u32(out, at + 4, p[1]);
    at + 8
}

// The pairs of what is missing.
fn put_missing(found: [bool; 9], out: &mut [u8]) -> usize
    requires { 72 ≤ length out.old }
    ensures { Wrote (steps.pairs_for steps.names found) out.old out.new result }
{
    let mut at = 0;
    for i in 0..9 {
        at = put_name(found[i], i, at, out);
    }
    at
}

// The list of what is missing, where there is room for it, and how many bytes it has.
fn hand_list(found: [bool; 9], list: &mut [u8]) -> Result<usize, Fault>
    ensures { WritesCount (fitting (length list.old) (steps.pairs_for steps.names found)) list.old result list.new }
{
    let mut pairs = [0u8; 72];
    let n = put_missing(found, &mut pairs);
    roomy(list.len(), n)?;
    wire::copy(list, 0, &pairs[..n]);
    Ok(n)
}

// The same for a file that is taken, by the table of its sections.
fn by_table(file: &[u8], table: &[u8], list: &mut [u8]) -> Result<usize, Fault>
    requires { (l : List (List ℕ)) × (file_of file.now ≡ taken l) × steps.NamesSections file.now l table.now }
    ensures { WritesCount (ready_call (length list.old) file.now) list.old result list.new }
{
    let devices = payload_of(file, table, DEVICES);
    let disks = payload_of(file, table, DISKS);
    hand_list(look(devices, disks), list)
}

// Whether a file is ready to restore; if it is not, what is missing, as pairs in `list`.
pub fn ready(file: &[u8], list: &mut [u8]) -> Readiness
    ensures { Tells (ready_call (length list.old) file.now) list.old result list.new }
{
    // 64 records, as many as a file has sections at most.
    let mut table = [0u8; 2048];
    let sections = snapshot::sections(file, &mut table);
    if sections.number != TAKEN {
        // Both are structs for C, so the refusal goes on by its number.
        return Readiness {
            number: sections.number,
            ready: 0,
            place: sections.place,
        };
    }
    let n = sections.place as usize;
    Readiness::from(by_table(file, &table[..n], list))
}
