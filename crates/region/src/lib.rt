// An AIPC region: checked up to its first wrong field, and a queue's cursors shown.
// Numbers are read where they stand; a byte past the end reads as 0, so nothing is asked of an index.
// Slices that are handed on as `&s[..]` go in registers (decision 38).
#![tactic(auto)]

ghost use Rattle.std.specs.Prelude.{◌≡◌, ◌+◌, ◌*◌, ◌<◌, ◌≤◌, true, ◌||◌, length, nat_le, IfSome};
ghost use Rattle.answer.specs.Calls.{outcome_of, asked, verdict};
ghost use Rattle.answer.specs.Outcome.{each};
ghost use Rattle.wire.specs.Numbers.{le_at};
ghost use Rattle.region.specs.Region.{count_of, offset_of, capacity_of, end_of, ring_at, is_capacity, region_header_checks, apart_check, descriptor_checks, cursor_checks, ring_checks, table_checks, region_checks, queue_checks};
ghost use Rattle.region.specs.Region as region;
ghost use Rattle.region.specs.Valid.{Valid};
ghost use Rattle.region.specs.Steps.{Below, Beside, Clear, Reached, Further, Right};
ghost use Rattle.region.specs.Report.{as_cursors, report_call};

use answer::{Answer, Fault, Refusal, TAKEN};
use wire::u32_at;

// The header of a ring: its cursors and its capacity.
#[derive(Clone, Copy)]
pub struct Ring {
    pub head: u32,
    pub reserve: u32,
    pub commit: u32,
    pub capacity: u32,
}

#[repr(C)]
#[derive(Clone, Copy)]
pub struct Cursors {
    pub number: u32,
    pub place: u64,
    pub head: i32,
    pub reserve: i32,
    pub commit: i32,
}

// The letters `AIPC`, as the number that they are in the region.
const AIPC: u32 = 0x43504941;

// The bound of its queues.
const QUEUES_MOST: u32 = 64;

// How far cursor b is ahead of a. It wraps on purpose.
pub fn ahead(a: u32, b: u32) -> u32
    ensures { result ≡ region.ahead a b }
{
    b.wrapping_sub(a)
}

// Where the ring of descriptor i stands.
pub fn offset_of(s: &[u8], i: u32) -> u32
    ensures { result ≡ offset_of s.now i }
{
    u32_at(s, 20 + 16 * (i as usize))
}

fn capacity_of(s: &[u8], i: u32) -> u32
    ensures { result ≡ capacity_of s.now i }
{
    u32_at(s, 24 + 16 * (i as usize))
}

fn end_of(s: &[u8], i: u32) -> usize
    ensures { result ≡ end_of s.now i }
{
    (offset_of(s, i) as usize) + 16 + (capacity_of(s, i) as usize)
}

// A number that stands there whole: one load, and no question of its own.
fn whole_at(s: &[u8], at: usize) -> u32
    requires { at + 4 ≤ length s.now }
    ensures { result ≡ le_at 4 s.now at }
{
    let e = at + 4;
    u32_at(&s[at..e], 0)
}

fn whole_ring(s: &[u8], at: u32) -> Ring
    requires { at + 16 ≤ length s.now }
    ensures { result ≡ ring_at s.now at }
{
    let o = at as usize;
    Ring {
        head: whole_at(s, o),
        reserve: whole_at(s, o + 4),
        commit: whole_at(s, o + 8),
        capacity: whole_at(s, o + 12),
    }
}

// The same wherever it stands: number by number, each of which may lie past the end.
#[inline(never)]
fn cut_ring(s: &[u8], at: u32) -> Ring
    ensures { result ≡ ring_at s.now at }
{
    let o = at as usize;
    Ring {
        head: u32_at(s, o),
        reserve: u32_at(s, o + 4),
        commit: u32_at(s, o + 8),
        capacity: u32_at(s, o + 12),
    }
}

// One question for the four numbers.
pub fn ring_at(s: &[u8], at: u32) -> Ring
    ensures { result ≡ ring_at s.now at }
{
    if wire::fits(s.len(), at as usize, 16) {
        return whole_ring(s, at);
    }
    cut_ring(&s[..], at)
}

fn is_capacity(x: u32) -> bool
    ensures { result ≡ is_capacity x }
{
    if x < 64 || 65536 < x {
        return false;
    }
    x.is_power_of_two()
}

fn header(s: &[u8]) -> Result<(), Fault>
    ensures { outcome_of result ≡ asked (region_header_checks s.now) }
{
    if s.len() < 16 {
        return Err(Fault(Refusal::Region, 0));
    }
    if u32_at(s, 0) != AIPC {
        return Err(Fault(Refusal::Region, 0));
    }
    if u32_at(s, 4) != 1 {
        return Err(Fault(Refusal::Region, 4));
    }
    if u32_at(s, 8) as usize != s.len() {
        return Err(Fault(Refusal::Region, 8));
    }
    let count = u32_at(s, 12);
    if QUEUES_MOST < count {
        return Err(Fault(Refusal::Region, 12));
    }
    if s.len() < 16 + 16 * (count as usize) {
        return Err(Fault(Refusal::Region, 12));
    }
    Ok(())
}

fn are_apart(s: &[u8], i: u32, j: u32) -> bool
    ensures { result ≡ (nat_le (end_of s.now j) (offset_of s.now i) || nat_le (end_of s.now i) (offset_of s.now j)) }
{
    end_of(s, j) <= offset_of(s, i) as usize || end_of(s, i) <= offset_of(s, j) as usize
}

// Whether ring i meets an earlier one.
fn clear(s: &[u8], i: u32) -> Result<(), Fault>
    ensures { outcome_of result ≡ asked (each (apart_check s.now i) i) }
{
    for j in 0..i {
        if !are_apart(s, i, j) {
            return Err(Fault(Refusal::Region, 20 + 16 * (i as usize)));
        }
    }
    Ok(())
}

// The same where no earlier ring ends behind `top`: a ring that starts there or later meets none of them, and that is one comparison.
fn meets_none(s: &[u8], i: u32, top: usize) -> Result<(), Fault>
    requires { Below s.now i top }
    ensures { outcome_of result ≡ asked (each (apart_check s.now i) i) }
{
    if top <= offset_of(s, i) as usize {
        return Ok(());
    }
    clear(s, i)
}

// Descriptor i, where no earlier ring ends behind `top`: where its ring stands, the capacity, the reserved 0.
fn descriptor(s: &[u8], i: u32, top: usize) -> Result<(), Fault>
    requires { Below s.now i top }
    ensures { outcome_of result ≡ asked (descriptor_checks s.now i) }
{
    let place = 16 * (i as usize);
    let at = offset_of(s, i) as usize;
    if at % 4 != 0 {
        return Err(Fault(Refusal::Region, 20 + place));
    }
    if at < 16 + 16 * (u32_at(s, 12) as usize) {
        return Err(Fault(Refusal::Region, 20 + place));
    }
    if s.len() < end_of(s, i) {
        return Err(Fault(Refusal::Region, 20 + place));
    }
    meets_none(s, i, top)?;
    if !is_capacity(capacity_of(s, i)) {
        return Err(Fault(Refusal::Region, 24 + place));
    }
    if u32_at(s, 28 + place) != 0 {
        return Err(Fault(Refusal::Region, 28 + place));
    }
    Ok(())
}

// Rings stand in the order of their descriptors as a rule; `top` is the highest end so far.
fn descriptors(s: &[u8], n: u32) -> Result<(), Fault>
    ensures { outcome_of result ≡ asked (each (descriptor_checks s.now) n) }
{
    let mut top = 0usize;
    for i in 0..n {
        descriptor(s, i, top)?;
        top = top.max(end_of(s, i));
    }
    Ok(())
}

// The header of a ring that stands at `at`, `cap` being its descriptor's capacity.
fn ring_fields(ring: Ring, at: u32, cap: u32) -> Result<(), Fault>
    ensures { outcome_of result ≡ asked (cursor_checks ring at cap) }
{
    let o = at as usize;
    if ring.head % 4 != 0 {
        return Err(Fault(Refusal::Region, o));
    }
    if (cap as u64)
        < (ahead(ring.head, ring.commit) as u64) + (ahead(ring.commit, ring.reserve) as u64)
    {
        return Err(Fault(Refusal::Region, o));
    }
    if ring.reserve % 4 != 0 {
        return Err(Fault(Refusal::Region, o + 4));
    }
    if ring.commit % 4 != 0 {
        return Err(Fault(Refusal::Region, o + 8));
    }
    if ring.capacity != cap {
        return Err(Fault(Refusal::Region, o + 12));
    }
    Ok(())
}

fn ring_header(s: &[u8], i: u32) -> Result<(), Fault>
    ensures { outcome_of result ≡ asked (ring_checks s.now i) }
{
    let at = offset_of(s, i);
    ring_fields(ring_at(s, at), at, capacity_of(s, i))
}

fn ring_headers(s: &[u8], n: u32) -> Result<(), Fault>
    ensures { outcome_of result ≡ asked (each (ring_checks s.now) n) }
{
    for i in 0..n {
        ring_header(s, i)?;
    }
    Ok(())
}

// The descriptors, then the headers of their rings.
fn tables(s: &[u8]) -> Result<(), Fault>
    ensures { outcome_of result ≡ asked (table_checks s.now) }
{
    let n = u32_at(s, 12);
    descriptors(s, n)?;
    ring_headers(s, n)
}

// ---- the same at once, where nothing is wrong

// Whether ring j has no byte from `from` up to `end`.
fn is_beside(s: &[u8], j: u32, from: usize, end: usize) -> bool
    requires { 32 + 16 * j ≤ length s.now }
    ensures { result ≡ true → Beside s.now j from end }
{
    let place = 16 * (j as usize);
    let other = whole_at(s, 20 + place) as usize;
    other + 16 + (whole_at(s, 24 + place) as usize) <= from || end <= other
}

// The same of each ring before the i-th.
fn is_clear(s: &[u8], i: u32, from: usize, end: usize) -> bool
    requires { 16 + 16 * i ≤ length s.now }
    ensures { result ≡ true → Clear s.now i from end }
{
    for j in 0..i {
        if !is_beside(s, j, from, end) {
            return false;
        }
    }
    true
}

// The same, and that it stands behind the descriptors: one comparison for a ring that starts where they and all earlier rings have ended, or later.
fn is_free(s: &[u8], i: u32, from: usize, end: usize, top: usize) -> bool
    requires { Reached s.now i top }
    ensures { result ≡ true → (16 + 16 * count_of s.now ≤ from) × Clear s.now i from end }
{
    if top <= from {
        return true;
    }
    if from < 16 + 16 * (u32_at(s, 12) as usize) {
        return false;
    }
    is_clear(&s[..], i, from, end)
}

// Where the descriptors and all rings up to the i-th have ended, those before it at `top`; nothing where it or its descriptor is wrong.
fn right_end(s: &[u8], i: u32, top: usize) -> Option<usize>
    requires { Reached s.now i top }
    ensures { IfSome result (λ end. Further s.now i top end) }
{
    let place = 16 * (i as usize);
    let at = whole_at(s, 20 + place);
    let cap = whole_at(s, 24 + place);
    let end = (at as usize) + 16 + (cap as usize);
    if !is_free(s, i, at as usize, end, top) {
        return None;
    }
    if at % 4 != 0 {
        return None;
    }
    if s.len() < end {
        return None;
    }
    if !is_capacity(cap) {
        return None;
    }
    if whole_at(s, 28 + place) != 0 {
        return None;
    }
    if ring_fields(whole_ring(s, at), at, cap).is_err() {
        return None;
    }
    Some(top.max(end))
}

// Whether nothing is wrong with n queues. `top` starts behind the descriptors and is the highest end so far: where rings stand in the order of their
// descriptors, that a ring stands behind them and that it meets no earlier one is one comparison.
fn are_right(s: &[u8], n: u32) -> bool
    requires { (n ≡ count_of s.now) × (16 + 16 * n ≤ length s.now) }
    ensures { result ≡ true → Right s.now n }
{
    let mut top = 16 + 16 * (n as usize);
    for i in 0..n {
        let Some(end) = right_end(s, i, top) else {
            return false;
        };
        top = end;
    }
    true
}

// One walk over descriptors and rings. What it calls right is a region with that queue; of what it does not, the checks above name the fault, or find none.
fn is_right(s: &[u8], queue: u32) -> bool
    ensures { result ≡ true → Valid s.now × (queue < count_of s.now) }
{
    if header(&s[..]).is_err() {
        return false;
    }
    let n = u32_at(&s[..], 12);
    if n <= queue {
        return false;
    }
    are_right(&s[..], n)
}

// ---- the calls

// The region's first wrong field.
fn checked(s: &[u8]) -> Result<(), Fault>
    ensures { outcome_of result ≡ asked (region_checks s.now) }
{
    if is_right(s, 0) {
        return Ok(());
    }
    header(s)?;
    tables(s)
}

pub fn check(s: &[u8]) -> Answer
    ensures { result ≡ verdict (asked (region_checks s.now)) }
{
    Answer::from(checked(s))
}

// The region's first wrong field, where it is asked for a queue.
fn fault_in(s: &[u8], queue: u32) -> Result<(), Fault>
    ensures { outcome_of result ≡ asked (queue_checks s.now queue) }
{
    header(s)?;
    if u32_at(s, 12) <= queue {
        return Err(Fault(Refusal::Region, 12));
    }
    tables(s)
}

// The same: the first check of each call.
pub fn check_queue(s: &[u8], queue: u32) -> Result<(), Fault>
    ensures { outcome_of result ≡ asked (queue_checks s.now queue) }
{
    if is_right(s, queue) {
        return Ok(());
    }
    fault_in(s, queue)
}

// The cursors of a queue, or the region's first wrong field.
fn queue_ring(s: &[u8], queue: u32) -> Result<Ring, Fault>
    ensures { outcome_of result ≡ report_call s.now queue }
{
    check_queue(s, queue)?;
    Ok(ring_at(s, offset_of(s, queue)))
}

// Each cursor as the i32 of the same bits.
impl From<Result<Ring, Fault>> for Cursors {
    ghost from_gives = { λ r shown. shown ≡ as_cursors (outcome_of r) };

    fn from(r: Result<Ring, Fault>) -> Cursors {
        match r {
            Ok(ring) => Cursors {
                number: TAKEN,
                place: 0,
                head: ring.head.cast_signed(),
                reserve: ring.reserve.cast_signed(),
                commit: ring.commit.cast_signed(),
            },
            Err(fault) => Cursors {
                number: u32::from(fault.0),
                place: fault.1 as u64,
                head: 0,
                reserve: 0,
                commit: 0,
            },
        }
    }
}

// A queue's cursors, as hosts show them.
pub fn report(s: &[u8], queue: u32) -> Cursors
    ensures { result ≡ as_cursors (report_call s.now queue) }
{
    Cursors::from(queue_ring(s, queue))
}
