// The sections of a snapshot file: the header, one step of the walk, the walk up to the end of the file, and where a section stands in a file that is taken.
// Slices that are handed on as `&s[..]` go in registers (decision 38).
#![tactic(auto)]

ghost use Rattle.std.specs.Prelude.{◌≡◌, true, not, ◌||◌, cond, List, [], ◌∷◌, ◌++◌, ℕ, ◌+◌, ◌≤◌, ◌<◌, leb, eqb, length, take, drop, get_or};
ghost use Rattle.answer.specs.Outcome.{taken};
ghost use Rattle.answer.specs.Calls.{outcome_of, asked};
ghost use Rattle.answer.specs.Refusals.{number_of};
ghost use Rattle.wire.specs.Numbers.{le_at};
ghost use Rattle.lists.specs.Lists.{whole};
ghost use Rattle.lists.specs.Promises.{zeros};
ghost use Rattle.lists.specs.Steps.{MayWrite};
ghost use Rattle.wire.specs.Parts.{Wrote};
ghost use Rattle.aerosnap.specs.Known as known;
ghost use Rattle.aerosnap.specs.Payloads.{body_of};
ghost use Rattle.aerosnap.specs.File.{file_most, devices_most, header_checks, id_of, fits_in, file_of};
ghost use Rattle.aerosnap.specs.File as file;
ghost use Rattle.aerosnap.specs.Salvage.{length_of_part, read_part, loss_bytes};
ghost use Rattle.payloads.specs.Starts.{starts};
ghost use Rattle.sections.specs.Walks.{sections_in, Read, place_of};
ghost use Rattle.sections.specs.Steps.{walked_from, Marks, Keeps, FirstOf, losses_by, Parted, Divided, tallied, seated, written_size};
ghost use Rattle.sections.specs.Index.{starts_of, first_of, is_list_id, count_in, counts, Scanned, Spotted};
ghost use Rattle.sections.specs.Places.{places_for};
ghost use Rattle.sections.specs.Directory.{directory_places, Divides, IndexesFile};

use aerosnap::{DEVICES_MOST, SECTIONS_MOST};
use answer::{Fault, Refusal};
use lists::FILE_MOST;
use wire::{u8_at, u16_at, u32_at, u64_at};

// `AEROSNAP`, as the number that the letters are in the file.
const LETTERS: u64 = 0x50414E534F524541;

fn known(id: u32) -> bool
    ensures { result ≡ known.known id }
{
    matches!(id, 1..=8)
}

// The sections that have a version 2: CPU, MMU, CPUS, MMUS.
fn has_two(id: u32) -> bool
    ensures { result ≡ (eqb id 2 || eqb id 3 || eqb id 7 || eqb id 8) }
{
    matches!(id, 2 | 3 | 7 | 8)
}

fn takes(id: u32, version: u16) -> bool
    ensures { result ≡ known.takes id version }
{
    match version {
        1 => true,
        2 => has_two(id),
        _ => false,
    }
}

// CPU and CPUS share a slot, and MMU and MMUS.
fn slot(id: u32) -> usize
    requires { known.known id ≡ true }
    ensures { (result ≡ known.slot id) × (1 ≤ result) × (result ≤ 8) }
{
    match id {
        7 => 2,
        8 => 3,
        _ => id as usize,
    }
}

// The bound of a section's payload: only DEVICES has one.
pub fn small(id: u32, n: usize) -> bool
    ensures { result ≡ (not (eqb id 4) || leb n devices_most) }
{
    if id == 4 {
        return n <= DEVICES_MOST;
    }
    true
}

// A known section: its version, its flags, whether it came before, its payload by its own reader, which keeps its starts.
fn ruled(
    id: u32,
    version: u16,
    flags: u16,
    at: usize,
    seen: &[u8; 9],
    p: &[u8],
    index: &mut [u32],
) -> Result<usize, Fault>
    requires { (known.known id ≡ true) × (at + 16 + length p.now ≤ file_most) }
    ensures { (l : List (List ℕ)) (n : ℕ) → Marks seen.now l n
        → Keeps (file.ruled l at id version flags p.now) (whole (length index.old) (starts (body_of id version) p.now)) index.old result index.new }
{
    if !takes(id, version) {
        return Err(Fault(Refusal::Secver, at + 4));
    }
    if 0 < flags {
        return Err(Fault(Refusal::Reserved, at + 6));
    }
    let k = slot(id);
    if seen[k] == 1 {
        return Err(Fault(Refusal::Twice, at));
    }
    if !small(id, p.len()) {
        return Err(Fault(Refusal::Limit, at + 8));
    }
    match payloads::index(id, version, p, index) {
        Err(Fault(refusal, place)) => Err(Fault(refusal, at + 16 + place)),
        Ok(n) => Ok(n),
    }
}

// The section at a place, whose payload has m bytes and is there.
fn judged(s: &[u8], at: usize, m: usize, seen: &[u8; 9], index: &mut [u32]) -> Result<usize, Fault>
    requires { (at + 16 + m ≤ length s.now) × (length s.now ≤ file_most) }
    ensures { (l : List (List ℕ)) (n : ℕ) → Marks seen.now l n
        → Keeps (file.ruled l at (le_at 4 s.now at) (le_at 2 s.now (at + 4)) (le_at 2 s.now (at + 6)) (take m (drop (at + 16) s.now)))
        (whole (length index.old) (starts (body_of (le_at 4 s.now at) (le_at 2 s.now (at + 4))) (take m (drop (at + 16) s.now)))) index.old result index.new }
{
    let id = u32_at(s, at);
    if !known(id) {
        return Ok(0);
    }
    let version = u16_at(s, at + 4);
    let flags = u16_at(s, at + 6);
    let b = at + 16;
    let e = b + m;
    ruled(id, version, flags, at, seen, &s[b..e], index)
}

// The section at a place, after n others: how many starts were kept, or its first fault.
fn section_at(
    s: &[u8],
    at: usize,
    n: usize,
    seen: &[u8; 9],
    index: &mut [u32],
) -> Result<usize, Fault>
    requires { (at ≤ length s.now) × (length s.now ≤ file_most) }
    ensures { (l : List (List ℕ)) → Marks seen.now l n
        → Keeps (file.section_of l at (drop at s.now)) (whole (length index.old) (starts_of (drop at s.now))) index.old result index.new }
{
    if s.len() - at < 16 {
        return Err(Fault(Refusal::Cut, at));
    }
    if SECTIONS_MOST <= n {
        return Err(Fault(Refusal::Many, at));
    }
    let w = u64_at(s, at + 8);
    let left = (s.len() - (at + 16)) as u64;
    if left < w {
        return Err(Fault(Refusal::Cut, at));
    }
    judged(s, at, w as usize, seen, index)
}

// One section more was passed.
fn note(seen: &mut [u8; 9], id: u32)
    ensures { (l : List (List ℕ)) (n : ℕ) (e : List ℕ) → id_of e ≡ id → Marks seen.old l n → Marks seen.new (l ++ (e ∷ [])) (n + 1) }
{
    if known(id) {
        let k = slot(id);
        seen[k] = 1;
    }
}

// How many sections there are behind the header, or the first fault. The starts of each list go into the tail of the index from where the last ended.
fn walk(s: &[u8], index: &mut [u32]) -> Result<usize, Fault>
    requires { (16 ≤ length s.now) × (length s.now ≤ file_most) × MayWrite (walked_from s.now) index.old (Ok tt) }
    ensures { Scanned (walked_from s.now) index.old result index.new }
{
    let mut seen = [0u8; 9];
    let mut at = 16;
    let mut i = 0;
    let mut used = 0;
    // The place jumps by the length that each section says.
    while at < s.len() {
        match section_at(s, at, i, &seen, &mut index[used..]) {
            Err(fault) => {
                lists::forget(index);
                return Err(fault);
            }
            Ok(n) => {
                note(&mut seen, u32_at(s, at));
                at = at + (16 + (u64_at(s, at + 8) as usize));
                i += 1;
                used += n;
            }
        }
    }
    Ok(i)
}

fn header(s: &[u8]) -> Result<(), Fault>
    ensures { outcome_of result ≡ asked (header_checks s.now) }
{
    if FILE_MOST < s.len() {
        return Err(Fault(Refusal::Size, 0));
    }
    if s.len() < 16 {
        return Err(Fault(Refusal::Short, 0));
    }
    if u64_at(s, 0) != LETTERS {
        return Err(Fault(Refusal::Magic, 0));
    }
    if u16_at(s, 8) != 1 {
        return Err(Fault(Refusal::Version, 8));
    }
    if u8_at(s, 10) != 1 {
        return Err(Fault(Refusal::Endian, 10));
    }
    if u8_at(s, 11) != 0 {
        return Err(Fault(Refusal::Reserved, 11));
    }
    if u32_at(s, 12) != 0 {
        return Err(Fault(Refusal::Reserved, 12));
    }
    Ok(())
}

// Whether the index may be written over before the whole file is judged: one that holds nothing is cleared after a refusal, and another is lent to a file that has no fault.
fn may_write(s: &[u8], index: &[u32]) -> Result<(), Fault>
    requires { (16 ≤ length s.now) × (length s.now ≤ file_most) }
    ensures { MayWrite (walked_from s.now) index.now result }
{
    if lists::blank(index) {
        return Ok(());
    }
    let mut none = [0u32; 1];
    walk(s, &mut none[..0])?;
    Ok(())
}

// The sections behind a header that is as it should be.
fn behind_header(s: &[u8], index: &mut [u32]) -> Result<usize, Fault>
    requires { (16 ≤ length s.now) × (length s.now ≤ file_most) }
    ensures { Scanned (walked_from s.now) index.old result index.new }
{
    may_write(&s[..], index)?;
    walk(&s[..], index)
}

// The whole file: how many sections it has, or its first fault. The starts of its lists stand in the index then, as far as there is room for whole lists; a refusal leaves it as it was.
pub fn scan(file: &[u8], index: &mut [u32]) -> Result<usize, Fault>
    ensures { Scanned (file_of file.now) index.old result index.new }
{
    header(&file[..])?;
    behind_header(&file[..], index)
}

// ---- where a section stands

// The sections that are lists: DEVICES, DISKS, CPUS, MMUS.
pub fn is_list(id: u32) -> bool
    ensures { result ≡ is_list_id id }
{
    matches!(id, 4 | 5 | 7 | 8)
}

// How many entries the section at a place says that it has.
fn entries_at(s: &[u8], at: usize) -> usize
    requires { at ≤ length s.now }
    ensures { (result ≡ count_in (drop at s.now)) × (result < 4294967296) }
{
    if is_list(u32_at(s, at)) {
        return u32_at(s, at + 16) as usize;
    }
    0
}

// Where the section with an id starts in a file that is taken, and how many starts stand before its own; the end of the file and all starts where there is none.
fn seek(file: &[u8], id: u32) -> (usize, usize)
    requires { Read file.now }
    ensures { (result.0 ≡ place_of id 16 (sections_in file.now)) × (result.1 ≡ first_of id (sections_in file.now)) }
{
    let mut at = 16;
    let mut first = 0;
    // The place jumps by the length that each section says.
    while at < file.len() {
        if u32_at(file, at) == id {
            return (at, first);
        }
        first += entries_at(file, at);
        at = at + (16 + (u64_at(file, at + 8) as usize));
    }
    (at, first)
}

// The whole file: where the section with an id starts and how many starts stand before its own, or the file's first fault. The index is left as by `scan`.
pub fn check_and_find(file: &[u8], id: u32, index: &mut [u32]) -> Result<(usize, usize), Fault>
    ensures { Spotted id (file_of file.now) index.old result index.new }
{
    scan(&file[..], index)?;
    Ok(seek(&file[..], id))
}

// Whether the section at a place is there whole.
pub fn fits(s: &[u8], at: usize) -> bool
    ensures { result ≡ fits_in (drop at s.now) }
{
    if s.len() < at {
        return false;
    }
    if s.len() - at < 16 {
        return false;
    }
    let left = (s.len() - (at + 16)) as u64;
    u64_at(s, at + 8) <= left
}

// ---- the size of an index

// How many places an index has for starts. Clearing more costs more than reading a small file.
#[derive(Clone, Copy)]
pub enum Places {
    Few,
    Some,
    All,
}

// How many entries the first sections of a file say that they have, at most so many sections: nothing is checked. Above 256 it is not counted further.
fn count_starts(file: &[u8], most: usize) -> usize
    ensures { places_for result ≡ places_for (counts most (drop 16 file.now)) }
{
    let mut at = 16;
    let mut n = 0;
    for i in 0..most {
        if 256 < n {
            return n;
        }
        if !fits(file, at) {
            return n;
        }
        n += entries_at(file, at);
        at = at + (16 + (u64_at(file, at + 8) as usize));
    }
    n
}

// As many places as the entries need that the first sections of a file say that they have. A file that is taken has 64 sections; what is kept of another may stand behind any number of them.
pub fn places_for(file: &[u8], most: usize) -> Places
    ensures { result ≡ places_for (counts most (drop 16 file.now)) }
{
    let n = count_starts(file, most);
    if n <= 32 {
        return Places::Few;
    }
    if n <= 256 {
        return Places::Some;
    }
    Places::All
}

// ---- what is kept of a file, and what is lost

// How many places of an index say where the sections stand that are kept: first how many others there are, then for each known id where its section starts, and at which place of the index
// the starts of its list begin, then how many sections and bytes the canonical form has.
pub const DIRECTORY: usize = 19;

// What is lost of a file: how many parts, and the first fault that the reader finds.
#[derive(Clone, Copy)]
pub struct Losses {
    pub parts: usize,
    pub first: Fault,
}

// How long the part at a place is: a section that fits in the file, or else all that is left.
fn part_length(s: &[u8], at: usize) -> usize
    requires { (at ≤ length s.now) × (length s.now ≤ file_most) }
    ensures { result ≡ length_of_part (drop at s.now) }
{
    if fits(s, at) {
        return 16 + (u64_at(s, at + 8) as usize);
    }
    s.len() - at
}

// What the reader says of it after the n sections that are kept: whether it fits is asked first.
fn part_at(
    s: &[u8],
    at: usize,
    n: usize,
    seen: &[u8; 9],
    starts: &mut [u32],
) -> Result<usize, Fault>
    requires { (at ≤ length s.now) × (length s.now ≤ file_most) }
    ensures { (l : List (List ℕ)) → Marks seen.now l n
        → Keeps (read_part l at (drop at s.now)) (whole (length starts.old) (starts_of (drop at s.now))) starts.old result starts.new }
{
    if !fits(s, at) {
        return Err(Fault(Refusal::Cut, at));
    }
    section_at(s, at, n, seen, starts)
}

// The record of a loss over the start of `out`, if there is room for it.
fn put_loss(at: usize, w: usize, refusal: Refusal, out: &mut [u8]) -> usize
    ensures { Wrote (whole (length out.old) (loss_bytes at w (number_of refusal))) out.old out.new result }
{
    if out.len() < 24 {
        return 0;
    }
    wire::put_u64(out, 0, at as u64);
    wire::put_u64(out, 8, w as u64);
    wire::put_u32(out, 16, u32::from(refusal));
    wire::put_u32(out, 20, 0);
    24
}

// How many bytes are written of a section of w bytes.
fn written_size(id: u32, w: usize) -> usize
    ensures { result ≡ written_size id w }
{
    if !is_list(id) {
        return w;
    }
    if w == 20 {
        return 0;
    }
    w
}

// One section more in the directory: a known one at its id, another counted.
fn seat(id: u32, at: u32, first: u32, dir: &mut [u32])
    requires { (length dir.old ≡ directory_places) × (get_or dir.old 0 0 ≤ 64) }
    ensures { dir.new ≡ seated id at first dir.old }
{
    if known(id) {
        let k = id as usize;
        dir[k] = at;
        dir[k + 8] = first;
        return;
    }
    dir[0] += 1;
}

// How many sections a size stands for: none is written of a section of no bytes.
fn one_of(size: u32) -> u32
    ensures { (result ≡ cond (eqb size 0) 0 1) × (result ≤ 1) }
{
    u32::from(size != 0)
}

// So many bytes more are written.
fn tally(size: u32, dir: &mut [u32])
    requires { (length dir.old ≡ directory_places) × (get_or dir.old 17 0 ≤ 64) × (get_or dir.old 18 0 + size ≤ file_most) }
    ensures { dir.new ≡ tallied size dir.old }
{
    dir[17] += one_of(size);
    dir[18] += size;
}

// The same of a section of w bytes at a place, before whose list so many starts are kept.
fn enter(id: u32, at: usize, w: usize, used: usize, dir: &mut [u32])
    requires { (length dir.old ≡ directory_places) × (get_or dir.old 0 0 ≤ 64) × (get_or dir.old 17 0 ≤ 64) × (get_or dir.old 18 0 + w ≤ file_most) × (at ≤ file_most) × (used ≤ 4864) }
    ensures { dir.new ≡ tallied (written_size id w) (seated id at (directory_places + used) dir.old) }
{
    seat(id, at as u32, (DIRECTORY + used) as u32, dir);
    tally(written_size(id, w) as u32, dir);
}

// The first fault of a file, where a part is lost at a place after n sections that are kept: the one that was found before, or what the reader says of the part. It counts a section before it asks whether its
// payload fits.
fn first_of(
    first: Result<(), Fault>,
    s: &[u8],
    at: usize,
    n: usize,
    fault: Fault,
) -> Result<(), Fault>
    requires { at ≤ length s.now }
    ensures { FirstOf first s.now at n fault result }
{
    first?;
    if n < SECTIONS_MOST {
        return Err(fault);
    }
    if s.len() - at < 16 {
        return Err(fault);
    }
    Err(Fault(Refusal::Many, at))
}

// What is answered of the parts of a file, so many of which are lost.
fn losses_by(first: Result<(), Fault>, parts: usize) -> Option<Losses>
    ensures { result ≡ losses_by first parts }
{
    match first {
        Err(first) => Some(Losses { parts, first }),
        Ok(()) => None,
    }
}

// The parts behind a header that is as it should be: how many are lost, and the file's first fault. The directory is filled, the starts of each list go into the tail of the starts, and the record of each loss into the tail of the records.
fn find_parts(s: &[u8], dir: &mut [u32], starts: &mut [u32], losses: &mut [u8]) -> Option<Losses>
    requires { (16 ≤ length s.now) × (length s.now ≤ file_most) × (dir.old ≡ zeros directory_places) }
    ensures { Parted s.now dir.new starts.old starts.new losses.old losses.new result }
{
    let mut seen = [0u8; 9];
    let mut at = 16;
    let mut n = 0;
    let mut used = 0;
    let mut lost = 0;
    let mut t = 0;
    let mut first = Ok(());
    // The place jumps by the length of each part.
    while at < s.len() {
        let w = part_length(s, at);
        match part_at(s, at, n, &seen, &mut starts[used..]) {
            Err(fault) => {
                t += put_loss(at, w, fault.0, &mut losses[t..]);
                first = first_of(first, s, at, n, fault);
                lost += 1;
                at += w;
            }
            Ok(k) => {
                let id = u32_at(s, at);
                enter(id, at, w, used, dir);
                note(&mut seen, id);
                n += 1;
                used += k;
                at += w;
            }
        }
    }
    losses_by(first, lost)
}

// A number of the directory of an index, 0 past the end.
pub fn noted(index: &[u32], i: usize) -> usize
    ensures { result ≡ get_or index.now i 0 }
{
    match index.get(i) {
        Some(&x) => x as usize,
        None => 0,
    }
}

// The directory into the first places of an index.
fn put_directory(dir: &[u32], index: &mut [u32])
    requires { (length dir.now ≡ directory_places) × (directory_places ≤ length index.old) }
    ensures { index.new ≡ dir.now ++ drop directory_places index.old }
{
    index[..DIRECTORY].copy_from_slice(dir);
}

// The parts of a file whose header is as it should be, for an index that has room for the directory.
fn divide_in(file: &[u8], index: &mut [u32], losses: &mut [u8]) -> Option<Losses>
    requires { (16 ≤ length file.now) × (length file.now ≤ file_most) × (directory_places ≤ length index.old) }
    ensures { Divided file.now index.old index.new losses.old losses.new result }
{
    let mut dir = [0u32; 19];
    let r = find_parts(file, &mut dir, &mut index[DIRECTORY..], losses);
    dir[18] += 16;
    put_directory(&dir, index);
    r
}

// What is kept of a file and what is lost: how many parts are lost, and the first fault that the reader finds; or the first fault of the header. An index that has no room for the directory is refused. The index then holds the directory and the
// starts of the lists that are kept, as far as there is room for whole lists, and `losses` the records of what is lost, as far as there is room for whole records. A refusal leaves both as they were.
pub fn divide(file: &[u8], index: &mut [u32], losses: &mut [u8]) -> Result<Option<Losses>, Fault>
    ensures { Divides file.now index.old losses.old result index.new losses.new }
{
    header(&file[..])?;
    if index.len() < DIRECTORY {
        return Err(Fault(Refusal::Room, DIRECTORY));
    }
    Ok(divide_in(&file[..], index, losses))
}

// The index of a file that is taken, with its directory, or the file's first fault; an index that has no room for the directory is refused. The index is left as by `divide`.
pub fn index_file(file: &[u8], index: &mut [u32]) -> Result<(), Fault>
    ensures { IndexesFile file.now index.old result index.new }
{
    let mut none = [0u8; 1];
    match divide(&file[..], index, &mut none[..0])? {
        None => Ok(()),
        Some(losses) => Err(losses.first),
    }
}
