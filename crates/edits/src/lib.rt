// Edits of a snapshot file beside a card: a device or a disk more, one fewer, a payload exchanged, or the devices of a table; and the card of a file. An edit is planned whole before the first byte is written. The file
// is written by the directory of its index, each section into the tail of the output from where the last one ended, and the new entry between those of its list.
// Slices that are handed on as `&s[..]` go in registers (decision 38).
#![tactic(auto)]

ghost use Rattle.std.specs.Prelude.{◌≡◌, true, cond, ◌&&◌, ◌||◌, ◌⊎◌, List, [], ◌++◌, map, ℕ, ◌+◌, ◌-◌, ◌*◌, ◌/◌, ◌≤◌, ◌<◌, eqb, leb, length, take, drop};
ghost use Rattle.answer.specs.Calls.{outcome_of, asked};
ghost use Rattle.answer.specs.Outcome.{taken, Pass};
ghost use Rattle.wire.specs.Parts.{Wrote};
ghost use Rattle.entries.specs.Kinds.{image_most, devices};
ghost use Rattle.entries.specs.Code.{describe};
ghost use Rattle.order.specs.Entries.{join};
ghost use Rattle.writer.specs.Runs.{entry_by, fits};
ghost use Rattle.aerosnap.specs.Payloads.{body_of, list};
ghost use Rattle.aerosnap.specs.Known as known;
ghost use Rattle.aerosnap.specs.File.{file_most, sections_most, header_checks, id_of, version_of, file_of};
ghost use Rattle.sections.specs.Steps.{held, HoldsParts, HasDirectory, WholeFile};
ghost use Rattle.aerosnap.specs.Content.{content_of, secs, render, kind_at, id_at};
ghost use Rattle.aerosnap.specs.Adding.{device, disk, device_named, entry_of, own_checks};
ghost use Rattle.aerosnap.specs.Edits.{target, key_of, edit_file};
ghost use Rattle.aerosnap.specs.Edits as edits;
ghost use Rattle.aerosnap.specs.Calls.{canonical_call};
ghost use Rattle.cards.specs.Cards.{payload_size, open_file, open_answer, edit_card, edited_answer, WritesBeside};
ghost use Rattle.order.specs.Keyed.{has, flat, weigh};
ghost use Rattle.sections.specs.Walks.{sections_in, Read};
ghost use Rattle.sections.specs.Index.{starts_of, count_in};
ghost use Rattle.lists.specs.Lists.{key_at};
ghost use Rattle.lists.specs.Promises.{find_in};
ghost use Rattle.aerosnap.specs.declared.Side.TheVariants.{OfDevices};
ghost use Rattle.aerosnap.specs.Many.{new_device_at, is_inside};
ghost use Rattle.cards.specs.Whole.{many_card};
ghost use Rattle.edits.specs.Steps.{frame, bound_checks, Holds};
ghost use Rattle.edits.specs.Edits.{edit_of};
ghost use Rattle.edits.specs.Cuts.{bare, side_for, own_rows, entry_for, old_entries, payload_long, HoldsList, Fair, CutBy, Cuts, shown, space, list_head, front_bytes, span_bytes, PayloadWith, BytesBehind, low_bytes, high_bytes, old_tail, back_bytes, file_bytes, bounded_edit, keyed_edit};
ghost use Rattle.edits.specs.Rows.{keyed_entry, table_row, HoldsRows, OwnKeys, tallied_by, Modestly, RowAsked, pass_of, CountedBy, row_entry, place_in, before, turn_bytes, turns, InsideAt, Begun, old_from, with_rows, TableReady, PreparedBy, RowsFor, StandsAt};
ghost use Rattle.edits.specs.Plans.{Measured, Planning, EditReady, PlanOf, Modest, card_before, card_behind, Lightly};

use aerosnap::{SECTIONS_MOST, Side};
use answer::{Fault, Refusal, TAKEN, roomy};
use cards::{Card, Edited, Refused, Written, edited_answer};
use entries::{
    IMAGE_MOST, Kind, PAYLOAD_MOST, device_key, device_length, key_at, length_at, most_of,
};
use lists::{FILE_MOST, find, find_ordered};
use sections::Places;
use wire::{u16_at, u32_at, u64_at};

// An edit by its numbers: a device or a disk more, one fewer, a device's payload exchanged. What it brings stands beside it: `a` is the payload or the base image, `b` the overlay image.
#[derive(Clone, Copy)]
pub enum Edit {
    AddDevice(u32, u16, u16),
    AddDisk(u32),
    RemoveDevice(u32, u16, u16),
    RemoveDisk(u32),
    ReplaceDevice(u32, u16, u16),
}

// The list that it changes.
fn side_of(edit: Edit) -> Side
    ensures { result ≡ side_for edit }
{
    match edit {
        Edit::AddDevice(_, _, _) => Side::OfDevices,
        Edit::AddDisk(_) => Side::OfDisks,
        Edit::RemoveDevice(_, _, _) => Side::OfDevices,
        Edit::RemoveDisk(_) => Side::OfDisks,
        Edit::ReplaceDevice(_, _, _) => Side::OfDevices,
    }
}

// What the entries of that list are.
fn kind_at(side: Side) -> Kind
    ensures { describe result ≡ kind_at side }
{
    match side {
        Side::OfDevices => Kind::Devices,
        Side::OfDisks => Kind::Disks,
    }
}

// The id of its section.
fn id_at(side: Side) -> u32
    ensures { (result ≡ id_at side) × (1 ≤ result) × (result ≤ 8) }
{
    match side {
        Side::OfDevices => 4,
        Side::OfDisks => 5,
    }
}

// Whether an entry with the key has to be there.
fn wants(edit: Edit) -> bool
    ensures { result ≡ edits.wants (bare edit) }
{
    match edit {
        Edit::AddDevice(_, _, _) => false,
        Edit::AddDisk(_) => false,
        Edit::RemoveDevice(_, _, _) => true,
        Edit::RemoveDisk(_) => true,
        Edit::ReplaceDevice(_, _, _) => true,
    }
}

// The key that it changes.
fn edit_key(edit: Edit) -> u64
    ensures { result ≡ key_of (target (bare edit)) }
{
    match edit {
        Edit::AddDevice(id, version, flags) => device_key(id, version, flags),
        Edit::AddDisk(id) => id as u64,
        Edit::RemoveDevice(id, version, flags) => device_key(id, version, flags),
        Edit::RemoveDisk(id) => id as u64,
        Edit::ReplaceDevice(id, version, flags) => device_key(id, version, flags),
    }
}

// ---- what an edit brings

// A device's payload: its length.
fn payload(p: &[u8]) -> Result<(), Fault>
    ensures { outcome_of result ≡ asked (own_checks (device 0 0 0 p.now)) }
{
    if PAYLOAD_MOST < p.len() {
        return Err(Fault(Refusal::Limit, 0));
    }
    Ok(())
}

// The images of a disk: their lengths, then their texts.
fn images(base: &[u8], overlay: &[u8]) -> Result<(), Fault>
    ensures { outcome_of result ≡ asked (own_checks (disk 0 base.now overlay.now)) }
{
    if IMAGE_MOST < base.len() {
        return Err(Fault(Refusal::Limit, 0));
    }
    if IMAGE_MOST < overlay.len() {
        return Err(Fault(Refusal::Limit, 0));
    }
    if !utf8::is_text(base) {
        return Err(Fault(Refusal::Text, 0));
    }
    if !utf8::is_text(overlay) {
        return Err(Fault(Refusal::Text, 0));
    }
    Ok(())
}

// What is asked of it alone.
fn own(edit: Edit, a: &[u8], b: &[u8]) -> Result<(), Fault>
    ensures { outcome_of result ≡ asked (own_rows (edit_of edit a.now b.now)) }
{
    match edit {
        Edit::AddDevice(_, _, _) => payload(a),
        Edit::AddDisk(_) => images(a, b),
        Edit::RemoveDevice(_, _, _) => Ok(()),
        Edit::RemoveDisk(_) => Ok(()),
        Edit::ReplaceDevice(_, _, _) => payload(a),
    }
}

// How many bytes its entry has.
fn entry_size(edit: Edit, a: &[u8], b: &[u8]) -> usize
    requires { Pass (own_rows (edit_of edit a.now b.now)) }
    ensures { result ≡ length (entry_for (edit_of edit a.now b.now)) }
{
    match edit {
        Edit::AddDevice(_, _, _) => 16 + a.len(),
        Edit::AddDisk(_) => 12 + (a.len() + b.len()),
        Edit::RemoveDevice(_, _, _) => 0,
        Edit::RemoveDisk(_) => 0,
        Edit::ReplaceDevice(_, _, _) => 16 + a.len(),
    }
}

// The first 16 bytes of a section or of a device's entry, over the start of `out`: id, version and flags are stored as one number.
fn put_frame(id: u32, version: u16, flags: u16, len: u64, out: &mut [u8])
    requires { 16 ≤ length out.old }
    ensures { Wrote (frame id version flags len) out.old out.new 16 }
{
    let head = ((flags as u64) * 65536 + (version as u64)) * 4294967296 + (id as u64);
    wire::put_u64(out, 0, head);
    wire::put_u64(out, 8, len);
}

// A device's entry.
fn put_device(id: u32, version: u16, flags: u16, p: &[u8], out: &mut [u8]) -> usize
    requires { length (entry_of (device id version flags p.now)) ≤ length out.old }
    ensures { Wrote (entry_of (device id version flags p.now)) out.old out.new result }
{
    put_frame(id, version, flags, p.len() as u64, out);
    wire::copy(out, 16, p);
    16 + p.len()
}

// A disk's entry.
fn put_disk(id: u32, base: &[u8], overlay: &[u8], out: &mut [u8]) -> usize
    requires { (length (entry_of (disk id base.now overlay.now)) ≤ length out.old) × (length base.now ≤ image_most) × (length overlay.now ≤ image_most) }
    ensures { Wrote (entry_of (disk id base.now overlay.now)) out.old out.new result }
{
    let i = 8 + base.len();
    let n = i + (4 + overlay.len());
    wire::put_u32(out, 0, id);
    wire::put_u32(out, 4, base.len() as u32);
    wire::copy(out, 8, base);
    wire::put_u32(out, i, overlay.len() as u32);
    wire::copy(out, i + 4, overlay);
    n
}

// The entry that it brings, over the start of `out`.
fn put_new(edit: Edit, a: &[u8], b: &[u8], out: &mut [u8]) -> usize
    requires { Pass (own_rows (edit_of edit a.now b.now)) × (length (entry_for (edit_of edit a.now b.now)) ≤ length out.old) }
    ensures { Wrote (entry_for (edit_of edit a.now b.now)) out.old out.new result }
{
    match edit {
        Edit::AddDevice(id, version, flags) => put_device(id, version, flags, a, out),
        Edit::AddDisk(id) => put_disk(id, a, b, out),
        Edit::RemoveDevice(_, _, _) => 0,
        Edit::RemoveDisk(_) => 0,
        Edit::ReplaceDevice(id, version, flags) => put_device(id, version, flags, a, out),
    }
}

// ---- a file that is taken

// How many sections and bytes a file has.
#[derive(Clone, Copy)]
struct Extent {
    sections: usize,
    bytes: usize,
}

// How many sections and bytes the canonical form of what is kept has.
fn sized(file: &[u8], index: &[u32]) -> Extent
    requires { HasDirectory file.now index.now }
    ensures { (result.sections ≡ length (secs (content_of (held file.now)))) × (result.bytes ≡ length (render (content_of (held file.now)))) }
{
    Extent {
        sections: sections::noted(&index[..], 17),
        bytes: sections::noted(&index[..], 18),
    }
}

// ---- the list in its file

// A list of a file: where its payload begins and ends, which places of the index hold its starts, and whether its entries stand in the order of their keys. One that the file has not is
// empty, and so are its parts.
#[derive(Clone, Copy)]
struct Site {
    begin: usize,
    end: usize,
    first: usize,
    last: usize,
    straight: bool,
}

// The list of a file that is taken, by the directory: no section stands at 0.
fn site_at(side: Side, file: &[u8], index: &[u32]) -> Site
    requires { WholeFile file.now index.now }
    ensures { HoldsList side file.now index.now result }
{
    let k = id_at(side) as usize;
    let at = index[k] as usize;
    if at == 0 {
        return Site {
            begin: 0,
            end: 0,
            first: 0,
            last: 0,
            straight: false,
        };
    }
    let begin = at + 16;
    let end = at + (16 + (u64_at(file, at + 8) as usize));
    let first = index[k + 8] as usize;
    let last = first + (u32_at(file, begin) as usize);
    Site {
        begin,
        end,
        first,
        last,
        straight: writer::in_order(&index[first..last]),
    }
}

// How long the payload of the list is: that of one that the file has not is its count alone.
fn list_length(site: Site) -> usize
    ensures { result ≡ payload_long site }
{
    if site.end <= site.begin {
        return 4;
    }
    site.end - site.begin
}

// Where an entry with the key of the edit stands in the list, or goes.
fn search(edit: Edit, file: &[u8], index: &[u32], site: Site) -> Result<usize, usize>
    requires { HoldsList (side_for edit) file.now index.now site }
    ensures { result ≡ find_in (kind_at (side_for edit)).key (key_of (target (bare edit))) (old_entries (side_for edit) file.now) }
{
    let begin = site.begin;
    let end = site.end;
    let first = site.first;
    let last = site.last;
    find_ordered(
        kind_at(side_of(edit)),
        &file[begin..end],
        &index[first..last],
        edit_key(edit),
    )
}

// How a list changes: the entries at the places of the index from `low` to `high` go, and what the edit brings comes there; then it has so many entries, and its payload so many bytes.
#[derive(Clone, Copy)]
struct Cut {
    low: usize,
    high: usize,
    count: u32,
    bytes: usize,
}

// An entry of so many bytes more, before the one with the number q.
fn cut_free(site: Site, q: usize, size: usize) -> Cut
    requires { Fair site q × (size ≤ file_most) }
    ensures { CutBy site q q (site.last - site.first + 1) (payload_long site + size) result }
{
    let low = site.first + q;
    Cut {
        low,
        high: low,
        count: (site.last - site.first + 1) as u32,
        bytes: list_length(site) + size,
    }
}

// How many of n entries there are when an entry of so many bytes, or none, comes for one of them.
fn left_over(n: usize, size: usize) -> usize
    requires { 1 ≤ n }
    ensures { (result ≡ cond (eqb size 0) (n - 1) n) × (result ≤ n) }
{
    if size == 0 {
        return n - 1;
    }
    n
}

// An entry of so many bytes, or none, in place of the one with the number q, which has `gone` bytes.
fn cut_there(site: Site, q: usize, size: usize, gone: usize) -> Cut
    requires { Fair site (q + 1) × (size ≤ file_most) × (gone ≤ payload_long site) }
    ensures { CutBy site q (q + 1) (cond (eqb size 0) (site.last - site.first - 1) (site.last - site.first)) (payload_long site - gone + size) result }
{
    let low = site.first + q;
    let n = left_over(site.last - site.first, size);
    Cut {
        low,
        high: low + 1,
        count: n as u32,
        bytes: list_length(site) - gone + size,
    }
}

// ---- how long the result is

// How many sections and bytes a list's section has, whose payload is so long: one that is its count alone is not written.
fn list_extent(n: usize) -> Extent
    requires { n ≤ 2147483648 }
    ensures { (result.sections ≡ shown n) × (result.bytes ≡ space n) }
{
    if n <= 4 {
        return Extent {
            sections: 0,
            bytes: 0,
        };
    }
    Extent {
        sections: 1,
        bytes: 16 + n,
    }
}

// How many sections and bytes a file has where a list's payload of so many bytes becomes one of so many others.
fn resized(size: Extent, old: usize, new: usize) -> Extent
    requires { (shown old ≤ size.sections) × (size.sections ≤ sections_most) × (space old ≤ size.bytes) × (size.bytes ≤ file_most) × (new ≤ 2147483648) }
    ensures { (result.sections ≡ size.sections - shown old + shown new) × (result.bytes ≡ size.bytes - space old + space new) }
{
    let less = list_extent(old);
    let more = list_extent(new);
    Extent {
        sections: size.sections - less.sections + more.sections,
        bytes: size.bytes - less.bytes + more.bytes,
    }
}

// What is asked of the result, and its room.
fn bounds(
    most: usize,
    id: u32,
    entries: usize,
    bytes: usize,
    size: Extent,
    have: usize,
) -> Result<(), Fault>
    ensures { outcome_of result ≡ asked (bound_checks most id entries bytes size.sections size.bytes have) }
{
    if most < entries {
        return Err(Fault(Refusal::Limit, 0));
    }
    if !sections::small(id, bytes) {
        return Err(Fault(Refusal::Limit, 0));
    }
    if SECTIONS_MOST < size.sections {
        return Err(Fault(Refusal::Many, 0));
    }
    if FILE_MOST < size.bytes {
        return Err(Fault(Refusal::Size, 0));
    }
    roomy(have, size.bytes)
}

// ---- the file with the list changed

// The header of the list's section and its count; nothing where its payload is the count alone.
fn put_head(id: u32, count: u32, bytes: usize, out: &mut [u8]) -> usize
    requires { length (list_head id count bytes) ≤ length out.old }
    ensures { Wrote (list_head id count bytes) out.old out.new result }
{
    if bytes <= 4 {
        return 0;
    }
    put_frame(id, 1, 0, bytes as u64, out);
    wire::put_u32(out, 16, count);
    20
}

// The entries of the list p that start at `starts`, as long as they fit. A new entry often goes to an end of its list: that none are on one side of it is seen without a call.
fn put_entries(kind: Kind, p: &[u8], starts: &[u32], out: &mut [u8]) -> usize
    ensures { Wrote (join (fits (length out.old) (map (entry_by (describe kind) p.now) starts.now))) out.old out.new result }
{
    if starts.len() == 0 {
        return 0;
    }
    writer::put_run(kind, p, starts, out)
}

// The file up to the entries of the list that an edit changes: the header, the ranks before the list, and its head.
fn front(side: Side, cut: Cut, file: &[u8], index: &[u32], out: &mut [u8]) -> usize
    requires { WholeFile file.now index.now × Holds (length out.old) (front_bytes side file.now cut) }
    ensures { Wrote (front_bytes side file.now cut) out.old out.new result }
{
    let id = id_at(side);
    wire::copy(out, 0, &file[..16]);
    let i = 16 + canon::put_between(file, index, 0, id - 1, &mut out[16..]);
    i + put_head(id, cut.count, cut.bytes, &mut out[i..])
}

// How many bytes those entries of a list have that stand before a place of the index, where they stand in the order of their keys: up to the end of the last of them.
fn low_length(side: Side, site: Site, place: usize, file: &[u8], index: &[u32]) -> usize
    requires { HoldsList side file.now index.now site × (site.first ≤ place) × (place ≤ site.last) × (site.straight ≡ true) }
    ensures { result ≡ length (join (take (place - site.first) (old_entries side file.now))) }
{
    if place == site.first {
        return 0;
    }
    let begin = site.begin;
    let end = site.end;
    let before = place - 1;
    let y = index[before] as usize;
    y + length_at(kind_at(side), &file[begin..end], y) - 4
}

// The entries of a list from one place of the index to another: at once, where they stand in order.
fn put_span(
    side: Side,
    site: Site,
    from: usize,
    to: usize,
    file: &[u8],
    index: &[u32],
    out: &mut [u8],
) -> usize
    requires { HoldsList side file.now index.now site × (site.first ≤ from) × (from ≤ to) × (to ≤ site.last) × (length (span_bytes side file.now site from to) ≤ length out.old) }
    ensures { Wrote (span_bytes side file.now site from to) out.old out.new result }
{
    let begin = site.begin;
    let end = site.end;
    if site.straight {
        let i = begin + 4 + low_length(side, site, from, file, index);
        let j = begin + 4 + low_length(side, site, to, file, index);
        wire::copy(out, 0, &file[i..j]);
        return j - i;
    }
    put_entries(kind_at(side), &file[begin..end], &index[from..to], out)
}

// The same; that none stand between two places is seen without a call: a new entry often goes behind another one.
fn put_some(
    side: Side,
    site: Site,
    from: usize,
    to: usize,
    file: &[u8],
    index: &[u32],
    out: &mut [u8],
) -> usize
    requires { HoldsList side file.now index.now site × (site.first ≤ from) × (from ≤ to) × (to ≤ site.last) × (length (span_bytes side file.now site from to) ≤ length out.old) }
    ensures { Wrote (span_bytes side file.now site from to) out.old out.new result }
{
    if from == to {
        return 0;
    }
    put_span(side, site, from, to, &file[..], &index[..], out)
}

// Its entries before the place where the entry goes that the edit brings.
fn put_low(side: Side, site: Site, cut: Cut, file: &[u8], index: &[u32], out: &mut [u8]) -> usize
    requires { Cuts side file.now index.now site cut × (length (low_bytes side file.now site cut) ≤ length out.old) }
    ensures { Wrote (low_bytes side file.now site cut) out.old out.new result }
{
    put_some(side, site, site.first, cut.low, file, index, out)
}

// The entries of the list behind that entry, and the tail, which takes what is left of the payload: at once, where they stand in order.
fn put_high(
    side: Side,
    site: Site,
    cut: Cut,
    left: usize,
    file: &[u8],
    index: &[u32],
    out: &mut [u8],
)
    requires { Cuts side file.now index.now site cut × BytesBehind side file.now site cut left × (left ≤ length out.old) }
    ensures { Wrote (high_bytes side file.now site cut ++ old_tail side file.now) out.old out.new left }
{
    let begin = site.begin;
    let end = site.end;
    let high = cut.high;
    let last = site.last;
    if site.straight {
        let at = end - left;
        wire::copy(out, 0, &file[at..end]);
        return;
    }
    let i = put_entries(kind_at(side), &file[begin..end], &index[high..last], out);
    let from = end - (left - i);
    wire::copy(out, i, &file[from..end]);
}

// The file behind that entry: the rest of the list, and the ranks behind it.
fn back(
    side: Side,
    site: Site,
    cut: Cut,
    left: usize,
    file: &[u8],
    index: &[u32],
    out: &mut [u8],
) -> usize
    requires whole_file { WholeFile file.now index.now × Cuts side file.now index.now site cut }
    requires bytes_behind { BytesBehind side file.now site cut left × Holds (length out.old) (back_bytes side file.now site cut) }
    ensures { Wrote (back_bytes side file.now site cut) out.old out.new result }
{
    put_high(side, site, cut, left, file, index, out);
    let id = id_at(side);
    left + canon::put_between(file, index, id, 9 - id, &mut out[left..])
}

// All of it, with the entry between them.
fn put_edited(
    edit: Edit,
    a: &[u8],
    b: &[u8],
    file: &[u8],
    index: &[u32],
    site: Site,
    cut: Cut,
    out: &mut [u8],
) -> usize
    requires whole_file { WholeFile file.now index.now × Cuts (side_for edit) file.now index.now site cut }
    requires pass { Pass (own_rows (edit_of edit a.now b.now)) × PayloadWith (side_for edit) file.now site cut (length (entry_for (edit_of edit a.now b.now))) × Holds (length out.old) (file_bytes (side_for edit) file.now site cut (entry_for (edit_of edit a.now b.now))) }
    ensures { Wrote (file_bytes (side_for edit) file.now site cut (entry_for (edit_of edit a.now b.now))) out.old out.new result }
{
    let side = side_of(edit);
    let i = front(side, cut, file, index, out);
    let j = i + put_low(side, site, cut, file, index, &mut out[i..]);
    let k = j + put_new(edit, a, b, &mut out[j..]);
    let left = cut.bytes - 4 - (k - i);
    k + back(side, site, cut, left, file, index, &mut out[k..])
}

// ---- the plan of an edit

// What an edit does to its list: where the list stands and how it is cut, and how many sections and bytes the file has before it and after it.
#[derive(Clone, Copy)]
struct Change {
    site: Site,
    cut: Cut,
    old: Extent,
    new: Extent,
}

// The list cut so: the bounds of the result and its room.
fn plan_at(
    side: Side,
    file: &[u8],
    index: &[u32],
    site: Site,
    cut: Cut,
    have: usize,
) -> Result<Change, Fault>
    requires { WholeFile file.now index.now × Measured side file.now site cut }
    ensures { (e : edits.Edit) → Planning e side file.now index.now site cut → PlanOf have (bounded_edit have (content_of (sections_in file.now)) e) e file.now index.now result }
{
    let old = sized(&file[..], &index[..]);
    let new = resized(old, list_length(site), cut.bytes);
    bounds(
        most_of(kind_at(side)) as usize,
        id_at(side),
        cut.count as usize,
        cut.bytes,
        new,
        have,
    )?;
    Ok(Change {
        site,
        cut,
        old,
        new,
    })
}

// An edit that wants an entry, where it stands.
fn plan_there(
    edit: Edit,
    a: &[u8],
    b: &[u8],
    file: &[u8],
    index: &[u32],
    site: Site,
    q: usize,
    have: usize,
) -> Result<Change, Fault>
    requires whole_file { WholeFile file.now index.now × HoldsList (side_for edit) file.now index.now site }
    requires pass { Pass (own_rows (edit_of edit a.now b.now)) × (edits.wants (bare edit) ≡ true) × (Ok q ≡ find_in (kind_at (side_for edit)).key (key_of (target (bare edit))) (old_entries (side_for edit) file.now)) }
    ensures { PlanOf have (bounded_edit have (content_of (sections_in file.now)) (edit_of edit a.now b.now)) (edit_of edit a.now b.now) file.now index.now result }
{
    let begin = site.begin;
    let end = site.end;
    let low = site.first + q;
    let side = side_of(edit);
    let gone = length_at(kind_at(side), &file[begin..end], index[low] as usize);
    let cut = cut_there(site, q, entry_size(edit, &a[..], &b[..]), gone);
    plan_at(side, &file[..], &index[..], site, cut, have)
}

// The list changed, if its key is there or not, as the edit wants it.
fn plan_list(
    edit: Edit,
    a: &[u8],
    b: &[u8],
    file: &[u8],
    index: &[u32],
    site: Site,
    have: usize,
) -> Result<Change, Fault>
    requires whole_file { WholeFile file.now index.now × HoldsList (side_for edit) file.now index.now site }
    requires pass { Pass (own_rows (edit_of edit a.now b.now)) }
    ensures { PlanOf have (keyed_edit have (content_of (sections_in file.now)) (edit_of edit a.now b.now)) (edit_of edit a.now b.now) file.now index.now result }
{
    match search(edit, &file[..], &index[..], site) {
        Ok(q) => {
            if !wants(edit) {
                return Err(Fault(Refusal::Have, 0));
            }
            plan_there(edit, &a[..], &b[..], &file[..], &index[..], site, q, have)
        }
        Err(q) => {
            if wants(edit) {
                return Err(Fault(Refusal::Absent, 0));
            }
            let cut = cut_free(site, q, entry_size(edit, &a[..], &b[..]));
            plan_at(side_of(edit), &file[..], &index[..], site, cut, have)
        }
    }
}

// The whole plan: the file's faults, what is asked of what the edit brings, its key, the bounds and the room.
fn plan_in(
    edit: Edit,
    a: &[u8],
    b: &[u8],
    file: &[u8],
    index: &mut [u32],
    have: usize,
) -> Result<Change, Fault>
    requires { HoldsParts file.now (length index.old) }
    ensures { PlanOf have (edit_file have file.now (edit_of edit a.now b.now)) (edit_of edit a.now b.now) file.now index.new result }
{
    sections::index_file(&file[..], index)?;
    own(edit, &a[..], &b[..])?;
    let site = site_at(side_of(edit), &file[..], index);
    plan_list(edit, &a[..], &b[..], &file[..], index, site, have)
}

// ---- the card

// The numbers of a card before an edit and after it, as far as the edit changes them: what both have alike may be counted in both or left out. A list's payload
// has its count, 16 bytes and the payload of each entry, and its tail.
fn card_before(side: Side, x: Change) -> Card
    requires { Modest x }
    ensures { result ≡ card_before side x }
{
    match side {
        Side::OfDevices => Card {
            length: x.old.bytes as u64,
            sections: x.old.sections as u64,
            devices: (x.site.last - x.site.first) as u64,
            payloads: (list_length(x.site) as u64) + 16 * (x.cut.count as u64),
        },
        Side::OfDisks => Card {
            length: x.old.bytes as u64,
            sections: x.old.sections as u64,
            devices: 0,
            payloads: 0,
        },
    }
}

fn card_behind(side: Side, x: Change) -> Card
    requires { Modest x }
    ensures { result ≡ card_behind side x }
{
    match side {
        Side::OfDevices => Card {
            length: x.new.bytes as u64,
            sections: x.new.sections as u64,
            devices: x.cut.count as u64,
            payloads: (x.cut.bytes as u64) + 16 * ((x.site.last - x.site.first) as u64),
        },
        Side::OfDisks => Card {
            length: x.new.bytes as u64,
            sections: x.new.sections as u64,
            devices: 0,
            payloads: 0,
        },
    }
}

// All of an edit that is written: the card's own check, and only then the first byte.
fn put_change(
    edit: Edit,
    card: Card,
    a: &[u8],
    b: &[u8],
    file: &[u8],
    index: &[u32],
    x: Change,
    out: &mut [u8],
) -> Result<Written, Refused>
    requires { EditReady (length out.old) (edit_file (length out.old) file.now (edit_of edit a.now b.now)) (edit_of edit a.now b.now) file.now index.now x }
    ensures { WritesBeside card (0, edit_card (length out.old) card file.now (edit_of edit a.now b.now)) out.old (edited_answer card result) out.new }
{
    let side = side_of(edit);
    let moved = cards::move_by(card, card_before(side, x), card_behind(side, x))?;
    let bytes = put_edited(
        edit,
        &a[..],
        &b[..],
        &file[..],
        &index[..],
        x.site,
        x.cut,
        out,
    );
    Ok(Written { bytes, card: moved })
}

// A file edited beside a card, with room for its index.
fn edit_in(
    edit: Edit,
    card: Card,
    a: &[u8],
    b: &[u8],
    file: &[u8],
    index: &mut [u32],
    out: &mut [u8],
) -> Result<Written, Refused>
    requires { HoldsParts file.now (length index.old) }
    ensures { WritesBeside card (0, edit_card (length out.old) card file.now (edit_of edit a.now b.now)) out.old (edited_answer card result) out.new }
{
    let x = plan_in(edit, &a[..], &b[..], &file[..], index, out.len())?;
    put_change(edit, card, &a[..], &b[..], &file[..], index, x, out)
}

// ---- a table of new devices: its rows

// The starts of the first rows.
fn row_starts(starts: &mut [u32])
    requires { length starts.old ≤ 4097 }
    ensures { HoldsRows starts.new }
{
    for (i, start) in starts.iter_mut().enumerate() {
        *start = (24 * i) as u32;
    }
}

// Whether a part lies within the second buffer.
fn is_part(store: &[u8], place: u64, len: u64) -> bool
    ensures { result ≡ (leb place (length store.now) && leb len (length store.now - place)) }
{
    let n = store.len() as u64;
    if n < place {
        return false;
    }
    len <= n - place
}

// Whether the key of a row came before in the table, r being the first whose key did, or is one of the file's devices.
fn is_known(table: &[u8], i: usize, r: usize, file: &[u8], index: &[u32], site: Site) -> bool
    requires { Read file.now × HoldsList OfDevices file.now index.now site × (i ≤ 4096) }
    ensures { result ≡ (eqb i r || has devices.key (key_at devices table.now (24 * i)) (old_entries OfDevices file.now)) }
{
    if i == r {
        return true;
    }
    if site.first == site.last {
        return false;
    }
    let begin = site.begin;
    let end = site.end;
    let first = site.first;
    let last = site.last;
    let k = key_at(Kind::Devices, table, 24 * i);
    match find_ordered(Kind::Devices, &file[begin..end], &index[first..last], k) {
        Ok(_) => true,
        Err(_) => false,
    }
}

// What is asked of a row by its part of the table, after i others whose entries have `grown` bytes: the bytes with its own, if it passes.
fn ask_row(
    part: &[u8],
    store: &[u8],
    i: usize,
    known: bool,
    site: Site,
    old: Extent,
    grown: usize,
    have: usize,
) -> Result<usize, Fault>
    requires { Modestly site old i grown }
    ensures { RowAsked have store.now (new_device_at part.now 0) known (tallied_by site old i grown) grown result }
{
    let len = u64_at(part, 16);
    if !is_part(store, u64_at(part, 8), len) {
        return Err(Fault(Refusal::Payload, 0));
    }
    let n = len as usize;
    if PAYLOAD_MOST < n {
        return Err(Fault(Refusal::Limit, 0));
    }
    if known {
        return Err(Fault(Refusal::Have, 0));
    }
    let more = grown + (16 + n);
    let long = list_length(site);
    let bytes = long + more;
    bounds(
        4096,
        4,
        site.last - site.first + (i + 1),
        bytes,
        resized(old, long, bytes),
        have,
    )?;
    Ok(more)
}

// The rows in their order, and how many bytes their entries have together; r is the first whose key came before.
fn ask_rows(
    table: &[u8],
    store: &[u8],
    r: usize,
    file: &[u8],
    index: &[u32],
    site: Site,
    old: Extent,
    have: usize,
) -> Result<usize, Refused>
    requires { Read file.now × HoldsList OfDevices file.now index.now site × OwnKeys table.now r × Modestly site old 0 0 × (site.last - site.first ≤ 4096) }
    ensures { CountedBy (pass_of have table.now store.now (old_entries OfDevices file.now) site old) table.now r site old result }
{
    let n = table.len() / 24;
    let mut grown = 0;
    for i in 0..n {
        let known = is_known(table, i, r, file, index, site);
        let at = 24 * i;
        let e = at + 24;
        match ask_row(&table[at..e], store, i, known, site, old, grown, have) {
            Err(fault) => {
                return Err(Refused {
                    index: i as u32,
                    fault,
                });
            }
            Ok(more) => {
                grown = more;
            }
        }
    }
    Ok(grown)
}

// ---- their bytes among those of the file

// How many bytes were written, and which place of the index comes next.
#[derive(Clone, Copy)]
struct Run {
    bytes: usize,
    next: usize,
}

// A device's entry, whose first eight bytes are one number: those of a record are its id, version and flags as an entry has them.
fn put_keyed(key: u64, p: &[u8], out: &mut [u8]) -> usize
    requires { length (keyed_entry key p.now) ≤ length out.old }
    ensures { Wrote (keyed_entry key p.now) out.old out.new result }
{
    wire::put_u64(out, 0, key);
    wire::put_u64(out, 8, p.len() as u64);
    wire::copy(out, 16, p);
    16 + p.len()
}

// A row's entry by its part of the table.
fn put_row(part: &[u8], store: &[u8], out: &mut [u8]) -> usize
    requires { (is_inside store.now (new_device_at part.now 0) ≡ true) × (length (row_entry part.now store.now 0) ≤ length out.old) }
    ensures { Wrote (row_entry part.now store.now 0) out.old out.new result }
{
    let from = u64_at(part, 8) as usize;
    let to = from + (u64_at(part, 16) as usize);
    put_keyed(u64_at(part, 0), &store[from..to], out)
}

// Where a search ended.
fn place_of(found: Result<usize, usize>) -> usize
    ensures { result ≡ place_in found }
{
    match found {
        Ok(p) => p,
        Err(p) => p,
    }
}

// The place of the index before which a row's entry goes, from the place p on. Behind the last entry nothing is looked for.
fn next_place(table: &[u8], y: usize, file: &[u8], index: &[u32], site: Site, p: usize) -> usize
    requires { HoldsList OfDevices file.now index.now site × (site.first ≤ p) × (p ≤ site.last) }
    ensures { (result ≡ p + before table.now y (old_from file.now site p)) × (result ≤ site.last) }
{
    let last = site.last;
    if p == last {
        return p;
    }
    let begin = site.begin;
    let end = site.end;
    let k = key_at(Kind::Devices, table, y);
    p + place_of(find(Kind::Devices, &file[begin..end], &index[p..last], k))
}

// The old entries from the place p of the index up to where a row's entry goes, and that entry.
fn put_turn(
    table: &[u8],
    store: &[u8],
    y: usize,
    file: &[u8],
    index: &[u32],
    site: Site,
    p: usize,
    out: &mut [u8],
) -> Run
    requires holds_list { HoldsList OfDevices file.now index.now site × (site.first ≤ p) × (p ≤ site.last) }
    requires y_value { (is_inside store.now (new_device_at table.now y) ≡ true) × (length (turn_bytes table.now store.now y (old_from file.now site p)) ≤ length out.old) × (y ≤ 4294967296) × (y + 24 ≤ length table.now) }
    ensures { Wrote (turn_bytes table.now store.now y (old_from file.now site p)) out.old out.new result.bytes × (result.next ≡ p + before table.now y (old_from file.now site p)) × (result.next ≤ site.last) }
{
    let next = next_place(table, y, file, index, site, p);
    let n = put_some(Side::OfDevices, site, p, next, file, index, out);
    let e = y + 24;
    let bytes = n + put_row(&table[y..e], store, &mut out[n..]);
    Run { bytes, next }
}

// The rows that start at `starts`, each behind the old entries before it.
fn put_rows(
    table: &[u8],
    store: &[u8],
    starts: &[u32],
    file: &[u8],
    index: &[u32],
    site: Site,
    out: &mut [u8],
) -> Run
    requires holds_list { HoldsList OfDevices file.now index.now site × InsideAt table.now store.now starts.now }
    requires file_in_bounds { length (turns table.now store.now starts.now (old_entries OfDevices file.now)) ≤ length out.old }
    ensures { Begun (turns table.now store.now starts.now (old_entries OfDevices file.now)) (join (old_from file.now site result.next)) out.old out.new result.bytes × (site.first ≤ result.next) × (result.next ≤ site.last) }
{
    let mut bytes = 0;
    let mut next = site.first;
    for start in starts {
        let y = *start as usize;
        let run = put_turn(table, store, y, file, index, site, next, &mut out[bytes..]);
        bytes += run.bytes;
        next = run.next;
    }
    Run { bytes, next }
}

// ---- all of them added

// The rows passed, and their entries have `grown` bytes: the numbers of the result, and its room, which an empty table is asked too.
fn stand_at(
    site: Site,
    old: Extent,
    rows: usize,
    grown: usize,
    have: usize,
) -> Result<Change, Fault>
    requires { Modestly site old rows grown × (site.last - site.first + rows ≤ 4096) }
    ensures { StandsAt site old rows grown have result }
{
    let long = list_length(site);
    let bytes = long + grown;
    let new = resized(old, long, bytes);
    roomy(have, new.bytes)?;
    let low = site.first;
    let cut = Cut {
        low,
        high: low,
        count: (site.last - site.first + rows) as u32,
        bytes,
    };
    Ok(Change {
        site,
        cut,
        old,
        new,
    })
}

// The whole plan: the rows' starts come to stand in the order of their keys.
fn prepare(
    table: &[u8],
    store: &[u8],
    starts: &mut [u32],
    file: &[u8],
    index: &[u32],
    site: Site,
    have: usize,
) -> Result<Change, Refused>
    requires { WholeFile file.now index.now × HoldsList OfDevices file.now index.now site × RowsFor table.now (length starts.old) }
    ensures { PreparedBy have table.now store.now starts.new file.now index.now result }
{
    row_starts(starts);
    let r = lists::arrange(Kind::Devices, &table[..], starts);
    let old = sized(&file[..], &index[..]);
    let grown = ask_rows(
        &table[..],
        &store[..],
        r,
        &file[..],
        &index[..],
        site,
        old,
        have,
    )?;
    Ok(stand_at(site, old, table.len() / 24, grown, have)?)
}

// The file with all rows.
fn put_table(
    table: &[u8],
    store: &[u8],
    starts: &[u32],
    file: &[u8],
    index: &[u32],
    x: Change,
    out: &mut [u8],
) -> usize
    requires { TableReady (length out.old) table.now store.now starts.now file.now index.now x }
    ensures { Wrote (render (with_rows table.now store.now file.now)) out.old out.new result }
{
    let i = front(Side::OfDevices, x.cut, file, index, out);
    let run = put_rows(table, store, starts, file, index, x.site, &mut out[i..]);
    let k = i + run.bytes;
    let left = x.cut.bytes - 4 - run.bytes;
    let next = run.next;
    let cut = Cut {
        low: next,
        high: next,
        count: x.cut.count,
        bytes: x.cut.bytes,
    };
    k + back(
        Side::OfDevices,
        x.site,
        cut,
        left,
        file,
        index,
        &mut out[k..],
    )
}

// All of it: the card's own check, and only then the first byte.
fn put_added(
    card: Card,
    table: &[u8],
    store: &[u8],
    starts: &[u32],
    file: &[u8],
    index: &[u32],
    x: Change,
    out: &mut [u8],
) -> Result<Written, Refused>
    requires { TableReady (length out.old) table.now store.now starts.now file.now index.now x }
    ensures { WritesBeside card (many_card (length out.old) card file.now table.now store.now) out.old (edited_answer card result) out.new }
{
    let before = card_before(Side::OfDevices, x);
    let behind = card_behind(Side::OfDevices, x);
    let moved = cards::move_by(card, before, behind)?;
    let bytes = put_table(
        &table[..],
        &store[..],
        &starts[..],
        &file[..],
        &index[..],
        x,
        out,
    );
    Ok(Written { bytes, card: moved })
}

// The rows added to the list at a site, with places for their starts.
fn add_rows(
    card: Card,
    table: &[u8],
    store: &[u8],
    starts: &mut [u32],
    file: &[u8],
    index: &[u32],
    site: Site,
    out: &mut [u8],
) -> Result<Written, Refused>
    requires { WholeFile file.now index.now × HoldsList OfDevices file.now index.now site × RowsFor table.now (length starts.old) }
    ensures { WritesBeside card (many_card (length out.old) card file.now table.now store.now) out.old (edited_answer card result) out.new }
{
    let x = prepare(
        &table[..],
        &store[..],
        starts,
        &file[..],
        &index[..],
        site,
        out.len(),
    )?;
    put_added(
        card,
        &table[..],
        &store[..],
        starts,
        &file[..],
        &index[..],
        x,
        out,
    )
}

// The same, with as many of N places as there are rows. Of more rows than a list may have, one more than that is looked at.
fn add_with_rows<const N: usize>(
    card: Card,
    table: &[u8],
    store: &[u8],
    file: &[u8],
    index: &[u32],
    site: Site,
    out: &mut [u8],
) -> Result<Written, Refused>
    requires lists { WholeFile file.now index.now × HoldsList OfDevices file.now index.now site }
    requires places { (N ≤ 4097) × (length table.now / 24 ≤ N ⊎ (N ≡ 4097)) }
    ensures { WritesBeside card (many_card (length out.old) card file.now table.now store.now) out.old (edited_answer card result) out.new }
{
    let mut starts = [0u32; N];
    let n = (table.len() / 24).min(N);
    add_rows(
        card,
        &table[..],
        &store[..],
        &mut starts[..n],
        &file[..],
        &index[..],
        site,
        out,
    )
}

// The rows of a table added to a file beside a card, with room for its index. Clearing more places for their starts costs more than adding a few.
fn add_in(
    card: Card,
    table: &[u8],
    store: &[u8],
    file: &[u8],
    index: &mut [u32],
    out: &mut [u8],
) -> Result<Written, Refused>
    requires { HoldsParts file.now (length index.old) }
    ensures { WritesBeside card (many_card (length out.old) card file.now table.now store.now) out.old (edited_answer card result) out.new }
{
    sections::index_file(&file[..], index)?;
    let site = site_at(Side::OfDevices, &file[..], index);
    if table.len() / 24 <= 64 {
        return add_with_rows::<64>(card, &table[..], &store[..], &file[..], index, site, out);
    }
    add_with_rows::<4097>(card, &table[..], &store[..], &file[..], index, site, out)
}

// ---- the true card

// The payloads of the devices that start at `starts`, added up.
fn payload_sum(p: &[u8], starts: &[u32]) -> usize
    requires { Lightly p.now starts.now }
    ensures { result ≡ weigh payload_size (map (entry_by devices p.now) starts.now) }
{
    let mut n = 0;
    for start in starts {
        n += device_length(p, *start as usize) - 16;
    }
    n
}

// The card that is told of beside a refusal: it says nothing.
const BLANK: Card = Card {
    length: 0,
    sections: 0,
    devices: 0,
    payloads: 0,
};

// The card of a file that has no section.
fn open_bare(file: &[u8]) -> Result<Card, Fault>
    requires { length file.now ≤ 16 }
    ensures { outcome_of result ≡ open_file file.now }
{
    let mut none = [0u32; 1];
    sections::scan(&file[..], &mut none[..0])?;
    Ok(Card {
        length: 16,
        sections: 0,
        devices: 0,
        payloads: 0,
    })
}

// The card of the canonical form of a file that is taken.
fn card_by(file: &[u8], index: &[u32]) -> Card
    requires { WholeFile file.now index.now }
    ensures { open_file file.now ≡ taken result }
{
    let site = site_at(Side::OfDevices, &file[..], &index[..]);
    let size = sized(&file[..], &index[..]);
    let begin = site.begin;
    let end = site.end;
    let from = site.first;
    let to = site.last;
    let sum = payload_sum(&file[begin..end], &index[from..to]);
    Card {
        length: size.bytes as u64,
        sections: size.sections as u64,
        devices: (to - from) as u64,
        payloads: sum as u64,
    }
}

// The card of a file's canonical form, with an index of so many places.
fn open_with<const N: usize>(file: &[u8]) -> Result<Card, Fault>
    requires holds { HoldsParts file.now N }
    requires few { N ≤ 4883 }
    ensures { outcome_of result ≡ open_file file.now }
{
    let mut index = [0u32; N];
    sections::index_file(&file[..], &mut index)?;
    Ok(card_by(&file[..], &index))
}

// The same, with an index of as many places as the file needs.
fn opened(file: &[u8]) -> Result<Card, Fault>
    ensures { outcome_of result ≡ open_file file.now }
{
    if file.len() <= 16 {
        return open_bare(&file[..]);
    }
    match sections::places_for(&file[..], file.len()) {
        Places::Few => open_with::<51>(&file[..]),
        Places::Some => open_with::<275>(&file[..]),
        Places::All => open_with::<4883>(&file[..]),
    }
}

// An edit of a file beside a card, with an index of so many places.
fn edit_with<const N: usize>(
    edit: Edit,
    card: Card,
    a: &[u8],
    b: &[u8],
    file: &[u8],
    out: &mut [u8],
) -> Result<Written, Refused>
    requires holds { HoldsParts file.now N }
    requires few { N ≤ 4883 }
    ensures { WritesBeside card (0, edit_card (length out.old) card file.now (edit_of edit a.now b.now)) out.old (edited_answer card result) out.new }
{
    let mut index = [0u32; N];
    edit_in(edit, card, &a[..], &b[..], &file[..], &mut index, out)
}

// The rows of a table added to a file beside a card, with an index of so many places.
fn add_with<const N: usize>(
    card: Card,
    table: &[u8],
    store: &[u8],
    file: &[u8],
    out: &mut [u8],
) -> Result<Written, Refused>
    requires holds { HoldsParts file.now N }
    requires few { N ≤ 4883 }
    ensures { WritesBeside card (many_card (length out.old) card file.now table.now store.now) out.old (edited_answer card result) out.new }
{
    let mut index = [0u32; N];
    add_in(card, &table[..], &store[..], &file[..], &mut index, out)
}

// The same, with an index of as many places as the file needs.
fn edit_placed(
    edit: Edit,
    card: Card,
    a: &[u8],
    b: &[u8],
    file: &[u8],
    out: &mut [u8],
) -> Result<Written, Refused>
    ensures { WritesBeside card (0, edit_card (length out.old) card file.now (edit_of edit a.now b.now)) out.old (edited_answer card result) out.new }
{
    match sections::places_for(&file[..], file.len()) {
        Places::Few => edit_with::<51>(edit, card, &a[..], &b[..], &file[..], out),
        Places::Some => edit_with::<275>(edit, card, &a[..], &b[..], &file[..], out),
        Places::All => edit_with::<4883>(edit, card, &a[..], &b[..], &file[..], out),
    }
}

fn add_placed(
    card: Card,
    table: &[u8],
    store: &[u8],
    file: &[u8],
    out: &mut [u8],
) -> Result<Written, Refused>
    ensures { WritesBeside card (many_card (length out.old) card file.now table.now store.now) out.old (edited_answer card result) out.new }
{
    match sections::places_for(&file[..], file.len()) {
        Places::Few => add_with::<51>(card, &table[..], &store[..], &file[..], out),
        Places::Some => add_with::<275>(card, &table[..], &store[..], &file[..], out),
        Places::All => add_with::<4883>(card, &table[..], &store[..], &file[..], out),
    }
}

// ---- the calls

// The true card of a file's canonical form.
pub fn open(file: &[u8]) -> Edited
    ensures { result ≡ open_answer (open_file file.now) }
{
    match opened(&file[..]) {
        Ok(card) => edited_answer(BLANK, Ok(Written { bytes: 0, card })),
        Err(fault) => edited_answer(BLANK, Err(Refused { index: 0, fault })),
    }
}

// The canonical form of a file's content after an edit beside a card.
pub fn edited(edit: Edit, card: Card, a: &[u8], b: &[u8], file: &[u8], out: &mut [u8]) -> Edited
    ensures { WritesBeside card (0, edit_card (length out.old) card file.now (edit_of edit a.now b.now)) out.old result out.new }
{
    edited_answer(card, edit_placed(edit, card, a, b, file, out))
}

// The canonical form of a file's content and the devices of a table more, beside a card: one by one in the table's order, as far as answers go. The places for its rows stand in a frame that other calls do not pay for.
pub fn added(card: Card, table: &[u8], store: &[u8], file: &[u8], out: &mut [u8]) -> Edited
    ensures { WritesBeside card (many_card (length out.old) card file.now table.now store.now) out.old result out.new }
{
    edited_answer(card, add_placed(card, table, store, file, out))
}
