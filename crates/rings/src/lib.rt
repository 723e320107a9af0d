// The rings of an AIPC region: reserve, fill, commit and take.
#![tactic(auto)]

ghost use Rattle.std.specs.Prelude.{◌≡◌, ◌+◌, ◌%◌, ◌≤◌, true, length};
ghost use Rattle.answer.specs.Calls.{outcome_of, asked, count_answer};
ghost use Rattle.answer.specs.Outcome.{after};
ghost use Rattle.wire.specs.Parts.{splice};
ghost use Rattle.region.specs.Region.{is_capacity};
ghost use Rattle.region.specs.Valid.{Consistent};
ghost use Rattle.rings.specs.Records.{record_size, rest, skip, need, ring_record};
ghost use Rattle.rings.specs.Calls.{stored, count, as_answer, as_pair, as_record, pair_of, record_answer, Leaves, reserve_checks, reserve_in, reserve_call, fill_checks, fill_stores, fill_in, fill_call, commit_checks, commit_in, commit_call, skip_at, take_checks, take_in, take_call};
ghost use Rattle.rings.specs.Steps.{RingStands, Fillable, found, ring_call};

use answer::{Answer, Fault, Refusal, TAKEN};
use region::{Ring, ahead};
use wire::u32_at;

// The start and the end of a reserved pair.
#[repr(C)]
#[derive(Clone, Copy)]
pub struct Pair {
    pub number: u32,
    pub place: u64,
    pub start: u32,
    pub end: u32,
}

// The place and the length of a payload.
#[repr(C)]
#[derive(Clone, Copy)]
pub struct Record {
    pub number: u32,
    pub place: u64,
    pub payload_place: u64,
    pub payload_length: u64,
}

// A ring of a region in which nothing is wrong: its header, which stands at `at`, with a capacity that rings may have.
#[derive(Clone, Copy)]
struct SoundRing {
    at: u32,
    ring: Ring,
    ghost sized: { is_capacity ring.capacity ≡ true },
}

const MARKER: u32 = 0xFFFFFFFF;

// The bytes of a cursor, all that three of the calls store.
const CURSOR: u64 = 4;

impl From<Result<Pair, Fault>> for Pair {
    ghost from_gives = { λ r shown. shown ≡ pair_of r };

    fn from(r: Result<Pair, Fault>) -> Pair {
        match r {
            Ok(pair) => pair,
            Err(fault) => Pair {
                number: u32::from(fault.0),
                place: fault.1 as u64,
                start: 0,
                end: 0,
            },
        }
    }
}

impl From<Result<Record, Fault>> for Record {
    ghost from_gives = { λ r shown. shown ≡ record_answer r };

    fn from(r: Result<Record, Fault>) -> Record {
        match r {
            Ok(found) => found,
            Err(fault) => Record {
                number: u32::from(fault.0),
                place: fault.1 as u64,
                payload_place: 0,
                payload_length: 0,
            },
        }
    }
}

// ---- records

// A record's bytes, in numbers wide enough for any u32.
fn size_of(n: u32) -> u64
    ensures { result ≡ record_size n }
{
    4 + ((n as u64) + 3) / 4 * 4
}

impl SoundRing {
    // Where a cursor stands in the data. A capacity is a power of two, so no division is needed.
    fn position(self, p: u32) -> u32
        ensures { result ≡ p % self.ring.capacity }
    {
        p & (self.ring.capacity - 1)
    }

    // The same counted from the region's start.
    fn place_of(self, p: u32) -> usize
        ensures { result ≡ self.at + 16 + p % self.ring.capacity }
    {
        (self.at as usize) + 16 + (self.position(p) as usize)
    }

    // The bytes from a cursor to the end of the data.
    fn rest_of(self, p: u32) -> u32
        ensures { result ≡ rest self.ring.capacity p }
    {
        self.ring.capacity - self.position(p)
    }

    // What a record of n payload bytes skips at a cursor.
    fn skip_of(self, p: u32, n: u32) -> u32
        ensures { result ≡ skip self.ring.capacity p n }
    {
        let left = self.rest_of(p);
        if size_of(n) <= left as u64 {
            return 0;
        }
        left
    }

    fn need_of(self, p: u32, n: u32) -> u64
        ensures { result ≡ need self.ring.capacity p n }
    {
        (self.skip_of(p, n) as u64) + size_of(n)
    }
}

// The ring of a queue, or the region's first wrong field. It is a part of each of its four callers, so that the ring stays in registers.
#[inline(always)]
fn sound_ring(region: &[u8], queue: u32) -> Result<SoundRing, Fault>
    ensures { after (outcome_of result) (λ s. found s.at s.ring) ≡ ring_call region.now queue }
{
    region::check_queue(region, queue)?;
    let at = region::offset_of(region, queue);
    let ring = region::ring_at(region, at);
    Ok(SoundRing { at, ring })
}

// ---- reserve

impl SoundRing {
    fn may_reserve(self, len: u32) -> Result<(), Fault>
        ensures { outcome_of result ≡ asked (reserve_checks self.ring len) }
    {
        let cap = self.ring.capacity as u64;
        if cap < 2 * size_of(len) {
            return Err(Fault(Refusal::Big, 0));
        }
        let used = ahead(self.ring.head, self.ring.reserve) as u64;
        if cap < used + self.need_of(self.ring.reserve, len) {
            return Err(Fault(Refusal::Full, 0));
        }
        Ok(())
    }

    // No payload above 65,536 bytes has room, and no sum of a longer one is made.
    fn reserve(self, region: &mut [u8], length: u64) -> Result<Pair, Fault>
        requires { RingStands region.old self.at self.ring }
        ensures { Leaves as_pair (reserve_in region.old self.at length) region.old (pair_of result) region.new }
    {
        if 65536 < length {
            return Err(Fault(Refusal::Big, 0));
        }
        let len = length as u32;
        self.may_reserve(len)?;
        let start = self.ring.reserve;
        let need = self.need_of(start, len);
        let end = start.wrapping_add(need as u32);
        wire::put_u32(region, (self.at as usize) + 4, end);
        Ok(Pair {
            number: TAKEN,
            place: CURSOR,
            start,
            end,
        })
    }
}

fn try_reserve(region: &mut [u8], queue: u32, length: u64) -> Result<Pair, Fault>
    ensures { Leaves as_pair (reserve_call region.old queue length) region.old (pair_of result) region.new }
{
    sound_ring(region, queue)?.reserve(region, length)
}

pub fn reserve(region: &mut [u8], queue: u32, length: u64) -> Pair
    ensures { Leaves as_pair (reserve_call region.old queue length) region.old result region.new }
{
    Pair::from(try_reserve(region, queue, length))
}

// ---- fill

// A record: its length, its payload, zeros up to a multiple of 4. Answers its bytes. Its last word is stored first, as zeros, and the payload over it.
fn put_record(out: &mut [u8], at: usize, payload: &[u8]) -> usize
    requires { (length payload.now ≤ 65536) × (at + record_size (length payload.now) ≤ length out.old) }
    ensures { (result ≡ record_size (length payload.now)) × (out.new ≡ splice at (ring_record payload.now) out.old) }
{
    let n = payload.len();
    let padded = (n + 3) / 4 * 4;
    wire::put_u32(out, at + padded, 0);
    wire::put_u32(out, at, n as u32);
    wire::copy(out, at + 4, payload);
    padded + 4
}

impl SoundRing {
    fn may_fill(self, start: u32, end: u32, len: usize) -> Result<(), Fault>
        requires { Consistent self.ring self.ring.capacity }
        ensures { outcome_of result ≡ asked (fill_checks self.ring start end len) }
    {
        if start % 4 != 0 {
            return Err(Fault(Refusal::Turn, 0));
        }
        if end % 4 != 0 {
            return Err(Fault(Refusal::Turn, 0));
        }
        let ring = self.ring;
        let pair = ahead(start, end) as u64;
        if (ahead(ring.commit, ring.reserve) as u64) < (ahead(ring.commit, start) as u64) + pair {
            return Err(Fault(Refusal::Turn, 0));
        }
        if 65536 < len {
            return Err(Fault(Refusal::Turn, 0));
        }
        if pair != self.need_of(start, len as u32) {
            return Err(Fault(Refusal::Turn, 0));
        }
        Ok(())
    }

    // The marker of a skip, and the record. Answers the bytes stored.
    fn put_filled(self, region: &mut [u8], start: u32, payload: &[u8]) -> usize
        requires { Fillable region.old self.at self.ring.capacity start (length payload.now) }
        ensures { (result ≡ count (fill_stores self.at self.ring.capacity start payload.now)) × (region.new ≡ stored (fill_stores self.at self.ring.capacity start payload.now) region.old) }
    {
        let i = self.place_of(start);
        if self.skip_of(start, payload.len() as u32) == 0 {
            return put_record(region, i, payload);
        }
        wire::put_u32(region, i, MARKER);
        4 + put_record(region, (self.at as usize) + 16, payload)
    }

    fn fill(self, region: &mut [u8], start: u32, end: u32, payload: &[u8]) -> Result<usize, Fault>
        requires { RingStands region.old self.at self.ring }
        ensures { Leaves as_answer (fill_in region.old self.at start end payload.now) region.old (count_answer (outcome_of result)) region.new }
    {
        self.may_fill(start, end, payload.len())?;
        Ok(self.put_filled(region, start, payload))
    }
}

fn try_fill(
    region: &mut [u8],
    queue: u32,
    start: u32,
    end: u32,
    payload: &[u8],
) -> Result<usize, Fault>
    ensures { Leaves as_answer (fill_call region.old queue start end payload.now) region.old (count_answer (outcome_of result)) region.new }
{
    sound_ring(region, queue)?.fill(region, start, end, payload)
}

pub fn fill(region: &mut [u8], queue: u32, start: u32, end: u32, payload: &[u8]) -> Answer
    ensures { Leaves as_answer (fill_call region.old queue start end payload.now) region.old result region.new }
{
    Answer::from(try_fill(region, queue, start, end, payload))
}

// ---- commit

impl SoundRing {
    fn may_commit(self, start: u32, end: u32) -> Result<(), Fault>
        ensures { outcome_of result ≡ asked (commit_checks self.ring start end) }
    {
        if start % 4 != 0 {
            return Err(Fault(Refusal::Turn, 0));
        }
        if end % 4 != 0 {
            return Err(Fault(Refusal::Turn, 0));
        }
        let ring = self.ring;
        if start != ring.commit {
            return Err(Fault(Refusal::Turn, 0));
        }
        if ahead(ring.commit, ring.reserve) < ahead(ring.commit, end) {
            return Err(Fault(Refusal::Turn, 0));
        }
        Ok(())
    }

    fn commit(self, region: &mut [u8], start: u32, end: u32) -> Result<usize, Fault>
        requires { RingStands region.old self.at self.ring }
        ensures { Leaves as_answer (commit_in region.old self.at start end) region.old (count_answer (outcome_of result)) region.new }
    {
        self.may_commit(start, end)?;
        wire::put_u32(region, (self.at as usize) + 8, end);
        Ok(CURSOR as usize)
    }
}

fn try_commit(region: &mut [u8], queue: u32, start: u32, end: u32) -> Result<usize, Fault>
    ensures { Leaves as_answer (commit_call region.old queue start end) region.old (count_answer (outcome_of result)) region.new }
{
    sound_ring(region, queue)?.commit(region, start, end)
}

pub fn commit(region: &mut [u8], queue: u32, start: u32, end: u32) -> Answer
    ensures { Leaves as_answer (commit_call region.old queue start end) region.old result region.new }
{
    Answer::from(try_commit(region, queue, start, end))
}

// ---- take

impl SoundRing {
    fn may_take(self, skip: u32, len: u32) -> Result<(), Fault>
        ensures { outcome_of result ≡ asked (take_checks self.ring skip len) }
    {
        let used = ahead(self.ring.head, self.ring.commit) as u64;
        if used == 0 {
            return Err(Fault(Refusal::Empty, 0));
        }
        if used <= skip as u64 {
            return Err(Fault(Refusal::Record, 0));
        }
        let size = size_of(len);
        if used < (skip as u64) + size {
            return Err(Fault(Refusal::Record, 0));
        }
        let from = self.ring.head.wrapping_add(skip);
        if (self.rest_of(from) as u64) < size {
            return Err(Fault(Refusal::Record, 0));
        }
        Ok(())
    }

    // What a taker skips at a cursor.
    fn skip_at(self, region: &[u8], p: u32) -> u32
        ensures { result ≡ skip_at region.now self.at self.ring.capacity p }
    {
        if u32_at(region, self.place_of(p)) == MARKER {
            return self.rest_of(p);
        }
        0
    }

    // The record behind the skipped bytes.
    fn take(self, region: &mut [u8]) -> Result<Record, Fault>
        requires { RingStands region.old self.at self.ring }
        ensures { Leaves as_record (take_in region.old self.at) region.old (record_answer result) region.new }
    {
        let ring = self.ring;
        let skip = self.skip_at(region, ring.head);
        let from = self.place_of(ring.head.wrapping_add(skip));
        let len = u32_at(region, from);
        self.may_take(skip, len)?;
        let behind = (skip as u64) + size_of(len);
        let head = ring.head.wrapping_add(behind as u32);
        wire::put_u32(region, self.at as usize, head);
        Ok(Record {
            number: TAKEN,
            place: CURSOR,
            payload_place: (from as u64) + 4,
            payload_length: len as u64,
        })
    }
}

fn try_take(region: &mut [u8], queue: u32) -> Result<Record, Fault>
    ensures { Leaves as_record (take_call region.old queue) region.old (record_answer result) region.new }
{
    sound_ring(region, queue)?.take(region)
}

pub fn take(region: &mut [u8], queue: u32) -> Record
    ensures { Leaves as_record (take_call region.old queue) region.old result region.new }
{
    Record::from(try_take(region, queue))
}
