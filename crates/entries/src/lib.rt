// The entries of lists: the kinds, and for each kind the readers of an entry at a place.
// Each takes every slice and every place. Bytes past the end read as 0, and an entry that is not whole is refused.
// Slices that are handed on as `&s[..]` go in registers (decision 38).
#![tactic(auto)]

ghost use Rattle.std.specs.Prelude.{◌≡◌, [], ◌∷◌, ℕ, ◌+◌, ◌*◌, min, length, take, drop};
ghost use Rattle.answer.specs.Outcome.{moved};
ghost use Rattle.answer.specs.Calls.{outcome_of, asked};
ghost use Rattle.format.specs.Format.{any, sized, pair, blob, text, values, span};
ghost use Rattle.format.specs.Places.{read_at};
ghost use Rattle.entries.specs.States.{cpu_length, extends, cpu_sized, cpu_length_checks, cpu_state, cpu_whole, registers, switches, extension, held_checks, held_state, mmu_length};
ghost use Rattle.entries.specs.Kinds.{blob_most, image_most, lead_checks, controller_checks, controller_head, devices, disks, cpus, controllers};
ghost use Rattle.entries.specs.Code.{describe};

use answer::{Fault, Refusal};
use format::{blob_at, block_at, part_at, text_at};
use wire::{tail, u8_at, u16_at, u32_at, u64_at};

// The bound of a device's payload, of a CPU's blob and of an image text.
pub const PAYLOAD_MOST: usize = 67108864;

const PAYLOAD: u64 = PAYLOAD_MOST as u64;

const BLOB_MOST: u64 = 67108864;

pub const IMAGE_MOST: usize = 65536;

const IMAGE: u32 = IMAGE_MOST as u32;

// The kinds of entry; CPUs and MMUs by the version of their section.
#[derive(Clone, Copy)]
pub enum Kind {
    Devices,
    Disks,
    Cpus(u16),
    Mmus(u16),
    Controllers,
}

// The bound of the count.
pub fn most_of(kind: Kind) -> u32
    ensures { result ≡ (describe kind).most }
{
    match kind {
        Kind::Devices => 4096,
        Kind::Disks | Kind::Cpus(_) | Kind::Mmus(_) | Kind::Controllers => 256,
    }
}

// Whether nothing may follow the last entry.
pub fn closed(kind: Kind) -> bool
    ensures { result ≡ (describe kind).closed }
{
    matches!(kind, Kind::Controllers)
}

// ---- states

fn cpu_length(version: u16, n: usize) -> bool
    ensures { result ≡ cpu_length version n }
{
    match version {
        1 => n == 412,
        _ => n == 1183 || 1191 <= n,
    }
}

// Whether a state above 1191 bytes has the length that its extension says.
fn extended(state: &[u8]) -> bool
    ensures { result ≡ extends state.now }
{
    let n = state.len();
    n <= 1191 || n == 1187 + (u32_at(state, 1183) as usize)
}

// Whether the byte at a place is no more than it may be.
fn at_most(state: &[u8], at: usize, most: u8) -> Result<(), Fault>
    ensures { outcome_of result ≡ values ((at, 1, 0, most) ∷ []) state.now }
{
    if most < u8_at(state, at) {
        return Err(Fault(Refusal::Value, at));
    }
    Ok(())
}

fn registers_in(state: &[u8]) -> Result<(), Fault>
    ensures { outcome_of result ≡ values registers state.now }
{
    at_most(state, 144, 3)?;
    at_most(state, 145, 1)?;
    at_most(state, 260, 7)
}

fn switches_in(state: &[u8]) -> Result<(), Fault>
    ensures { outcome_of result ≡ values switches state.now }
{
    at_most(state, 1187, 1)?;
    at_most(state, 1188, 1)?;
    at_most(state, 1189, 1)
}

fn extension_in(state: &[u8]) -> Result<(), Fault>
    ensures { outcome_of result ≡ values (extension (length state.now)) state.now }
{
    if state.len() == 1191 && u32_at(state, 1183) != 4 {
        return Err(Fault(Refusal::Value, 1183));
    }
    switches_in(state)
}

// The listed numbers of a state whose length is right.
fn numbers_in(version: u16, state: &[u8]) -> Result<(), Fault>
    ensures { outcome_of result ≡ cpu_state version state.now }
{
    if version == 1 {
        return Ok(());
    }
    registers_in(state)?;
    if 1191 <= state.len() {
        return extension_in(state);
    }
    Ok(())
}

// Whether a state's length is right.
pub fn cpu_sized(version: u16, state: &[u8]) -> bool
    ensures { result ≡ cpu_sized version state.now }
{
    cpu_length(version, state.len()) && extended(state)
}

// A whole CPU state: its length, then its values.
pub fn cpu_state(version: u16, state: &[u8]) -> Result<(), Fault>
    ensures { outcome_of result ≡ cpu_whole version state.now }
{
    if !cpu_sized(version, state) {
        return Err(Fault(Refusal::Shape, 0));
    }
    numbers_in(version, state)
}

pub fn mmu_length(version: u16) -> usize
    ensures { result ≡ mmu_length version }
{
    match version {
        1 => 68,
        _ => 264,
    }
}

// ---- before KEY

fn fixed_of(kind: Kind) -> usize
    ensures { result ≡ (describe kind).fixed }
{
    match kind {
        Kind::Devices => 16,
        Kind::Disks => 4,
        Kind::Cpus(_) => 8,
        Kind::Mmus(v) => 4 + mmu_length(v),
        Kind::Controllers => 12,
    }
}

// RESERVED of the controller that begins the bytes; every address is one.
fn controller_lead(b: &[u8]) -> Result<(), Fault>
    ensures { outcome_of result ≡ asked (controller_checks b.now) }
{
    if u16_at(b, 2) != 0 {
        return Err(Fault(Refusal::Reserved, 2));
    }
    Ok(())
}

fn early_of(kind: Kind, b: &[u8]) -> Result<(), Fault>
    ensures { outcome_of result ≡ asked ((describe kind).early b.now) }
{
    match kind {
        Kind::Controllers => controller_lead(b),
        Kind::Devices | Kind::Disks | Kind::Cpus(_) | Kind::Mmus(_) => Ok(()),
    }
}

// What is asked before KEY of the entry that begins the bytes: its fixed part, then what its kind asks.
pub fn lead_of(kind: Kind, b: &[u8]) -> Result<(), Fault>
    ensures { outcome_of result ≡ asked (lead_checks (describe kind) b.now) }
{
    if b.len() < fixed_of(kind) {
        return Err(Fault(Refusal::Shape, 0));
    }
    early_of(kind, b)
}

// The same at a place.
pub fn lead_at(kind: Kind, s: &[u8], at: usize) -> Result<(), Fault>
    ensures { outcome_of result ≡ moved at (asked (lead_checks (describe kind) (drop at s.now))) }
{
    match lead_of(kind, tail(s, at)) {
        Err(Fault(refusal, place)) => Err(Fault(refusal, at + place)),
        Ok(()) => Ok(()),
    }
}

// ---- keys

// A device's key: the first field weighs most, although its bytes come first.
pub fn device_key(id: u32, version: u16, flags: u16) -> u64
    ensures { result ≡ (id * 65536 + version) * 65536 + flags }
{
    ((id as u64) * 65536 + (version as u64)) * 65536 + (flags as u64)
}

// The key of the entry that begins the bytes: a number, so that 256 comes after 1. Every key lies in the first eight bytes, which are read at once.
pub fn key_of(kind: Kind, b: &[u8]) -> u64
    ensures { result ≡ (describe kind).key b.now }
{
    let x = u64_at(b, 0);
    match kind {
        Kind::Devices => device_key(
            (x % 4294967296) as u32,
            (x / 4294967296 % 65536) as u16,
            (x / 281474976710656) as u16,
        ),
        Kind::Disks | Kind::Cpus(_) | Kind::Mmus(_) => x % 4294967296,
        Kind::Controllers => x % 65536,
    }
}

// The key of the entry at a place.
pub fn key_at(kind: Kind, s: &[u8], at: usize) -> u64
    ensures { result ≡ (describe kind).key (drop at s.now) }
{
    key_of(kind, tail(s, at))
}

// ---- whole entries

// The same as `entry_at` for a device, of which a file has the most: a loop over a list reads it with no choice of a kind.
pub fn device_at(s: &[u8], at: usize) -> Result<usize, Fault>
    ensures { outcome_of result ≡ read_at devices.form s.now at }
{
    let e = block_at(s, at, 8)?;
    blob_at(s, e, PAYLOAD)
}

fn texts_at(s: &[u8], at: usize) -> Result<usize, Fault>
    ensures { outcome_of result ≡ read_at (pair (text image_most) (text image_most)) s.now at }
{
    let e = text_at(s, at, IMAGE)?;
    text_at(s, e, IMAGE)
}

fn disk_at(s: &[u8], at: usize) -> Result<usize, Fault>
    ensures { outcome_of result ≡ read_at disks.form s.now at }
{
    let e = block_at(s, at, 4)?;
    texts_at(s, e)
}

// A state's length, and as many bytes.
fn held_state(version: u16, s: &[u8], at: usize) -> Result<usize, Fault>
    ensures { outcome_of result ≡ read_at (sized 4 (cpu_length_checks version) any) s.now at }
{
    if wire::left(s.len(), at) < 4 {
        return Err(Fault(Refusal::Shape, at));
    }
    let n = u32_at(s, at) as usize;
    if !cpu_length(version, n) {
        return Err(Fault(Refusal::Shape, at));
    }
    let b = at + 4;
    if s.len() - b < n {
        return Err(Fault(Refusal::Shape, b));
    }
    Ok(b + n)
}

// What is asked of a state behind its length, given both.
fn held_fine(version: u16, b: &[u8]) -> Result<(), Fault>
    ensures { outcome_of result ≡ held_checks version b.now }
{
    let state = tail(b, 4);
    if !extended(state) {
        return Err(Fault(Refusal::Shape, 0));
    }
    match numbers_in(version, state) {
        Err(Fault(refusal, place)) => Err(Fault(refusal, 4 + place)),
        Ok(()) => Ok(()),
    }
}

fn state_at(version: u16, s: &[u8], at: usize) -> Result<usize, Fault>
    ensures { outcome_of result ≡ read_at (held_state version) s.now at }
{
    let e = held_state(version, s, at)?;
    match held_fine(version, &s[at..e]) {
        Err(Fault(refusal, place)) => Err(Fault(refusal, at + place)),
        Ok(()) => Ok(e),
    }
}

fn cpu_rest_at(version: u16, s: &[u8], at: usize) -> Result<usize, Fault>
    ensures { outcome_of result ≡ read_at (pair (held_state version) (blob 8 blob_most)) s.now at }
{
    let e = state_at(version, s, at)?;
    blob_at(s, e, BLOB_MOST)
}

fn cpu_at(version: u16, s: &[u8], at: usize) -> Result<usize, Fault>
    ensures { outcome_of result ≡ read_at (cpus version).form s.now at }
{
    let e = block_at(s, at, 4)?;
    cpu_rest_at(version, s, e)
}

// The address, the reserved number and the tag.
fn controller_head_at(s: &[u8], at: usize) -> Result<usize, Fault>
    ensures { outcome_of result ≡ read_at controller_head s.now at }
{
    let e = block_at(s, at, 8)?;
    match controller_lead(&s[at..e]) {
        Err(Fault(refusal, place)) => Err(Fault(refusal, at + place)),
        Ok(()) => Ok(e),
    }
}

fn controller_at(s: &[u8], at: usize) -> Result<usize, Fault>
    ensures { outcome_of result ≡ read_at controllers.form s.now at }
{
    let e = controller_head_at(s, at)?;
    part_at(s, e, 4294967295)
}

// Where the entry at a place ends, or its first fault after KEY.
pub fn entry_at(kind: Kind, s: &[u8], at: usize) -> Result<usize, Fault>
    ensures { outcome_of result ≡ read_at (describe kind).form s.now at }
{
    match kind {
        Kind::Devices => device_at(&s[..], at),
        Kind::Disks => disk_at(&s[..], at),
        Kind::Cpus(v) => cpu_at(v, &s[..], at),
        Kind::Mmus(v) => block_at(&s[..], at, 4 + mmu_length(v)),
        Kind::Controllers => controller_at(&s[..], at),
    }
}

// ---- lengths, with nothing checked

// Where n bytes from a place on end, or where the bytes do.
fn reach(b: &[u8], at: usize, n: u64) -> usize
    ensures { result ≡ min (at + n) (length b.now) }
{
    at.saturating_add(n as usize).min(b.len())
}

// Where the disk that begins the bytes ends: two texts behind four bytes.
fn disk_reach(b: &[u8]) -> usize
    ensures { result ≡ length (take (span disks.form b.now) b.now) }
{
    let e = reach(b, 8, u32_at(b, 4) as u64);
    reach(b, e + 4, u32_at(b, e) as u64)
}

// The same of a CPU, whatever the version of its section: its state, and its internal blob.
fn cpu_reach(b: &[u8]) -> usize
    ensures { (v : ℕ) → result ≡ length (take (span (cpus v).form b.now) b.now) }
{
    let e = reach(b, 8, u32_at(b, 4) as u64);
    reach(b, e + 8, u64_at(b, e))
}

// The same of a device: a payload behind 16 bytes.
fn device_reach(b: &[u8]) -> usize
    ensures { result ≡ length (take (span devices.form b.now) b.now) }
{
    reach(b, 16, u64_at(b, 8))
}

// How many bytes the entry that begins the bytes has by its lengths alone, and no more than there are.
fn length_of(kind: Kind, b: &[u8]) -> usize
    ensures { result ≡ length (take (span (describe kind).form b.now) b.now) }
{
    match kind {
        Kind::Devices => device_reach(b),
        Kind::Disks => disk_reach(b),
        Kind::Cpus(_) => cpu_reach(b),
        Kind::Mmus(v) => reach(b, 4, mmu_length(v) as u64),
        Kind::Controllers => reach(b, 12, u32_at(b, 8) as u64),
    }
}

// The same at a place.
pub fn length_at(kind: Kind, s: &[u8], at: usize) -> usize
    ensures { result ≡ length (take (span (describe kind).form (drop at s.now)) (drop at s.now)) }
{
    length_of(kind, tail(s, at))
}

// The same of a device, with no choice of a kind (decision 119).
pub fn device_length(s: &[u8], at: usize) -> usize
    ensures { result ≡ length (take (span devices.form (drop at s.now)) (drop at s.now)) }
{
    device_reach(tail(s, at))
}
