// CPU states of version 2 as sheets: structs of their fields by value, read from a state's bytes and written over them.
// The sixteen vector registers are an array of arrays. Which field stands where is said by `fields`; proofs/Ties.antt has the law.
#![tactic(auto)]

ghost use Rattle.std.specs.Prelude.{◌≡◌, ◌+◌, ◌≤◌, length, take, drop, leb};
ghost use Rattle.answer.specs.Calls.{outcome_of, count_answer};
ghost use Rattle.wire.specs.Parts.{splice};
ghost use Rattle.fields.specs.Fields.{Changes};
ghost use Rattle.sheet.specs.Vectors.{rows, joined};
ghost use Rattle.sheet.specs.Sheet.{front_of, segments_of, math_of, extension_of, cpu_of, front_over, segments_over, math_over, sse_over, extension_over, fields_over};
ghost use Rattle.sheet.specs.Calls.{matches, cpu_count, cpu_shown, cpu_call, cpu_over_call};

use answer::{Answer, Fault, Refusal, TAKEN};
use fields::State;
use registers::{Segment, put_segment, put_words, segment_at, words};
use wire::{put_u8, put_u16, put_u32, put_u64, u8_at, u16_at, u32_at, u64_at};

#[derive(Clone, Copy)]
pub struct Front {
    pub rip: u64,
    pub rflags: u64,
    pub mode: u8,
    pub halted: u8,
}

#[derive(Clone, Copy)]
pub struct Math {
    pub fcw: u16,
    pub fsw: u16,
    pub ftw: u16,
    pub top: u8,
    pub fop: u16,
    pub fip: u64,
    pub fdp: u64,
    pub fcs: u16,
    pub fds: u16,
}

#[derive(Clone, Copy)]
pub struct Sse {
    pub mxcsr: u32,
    pub xmm: [[u8; 16]; 16],
}

// Whether the state has the extension, and what stands there; 0 where it has none. No `Option`: `cpu_member` has the numbers of every sheet.
#[derive(Clone, Copy)]
pub struct Extension {
    pub there: bool,
    pub a20: u8,
    pub irq13: u8,
    pub valid: u8,
    pub vector: u8,
}

// `st` has the eight x87 registers of 16 bytes.
#[derive(Clone, Copy)]
pub struct CpuSheet {
    pub gpr: [u64; 16],
    pub front: Front,
    pub segments: [Segment; 6],
    pub math: Math,
    pub st: [u8; 128],
    pub sse: Sse,
    pub image: [u8; 512],
    pub extension: Extension,
}

// Number and place, and the sheet; beside a refusal the sheet of a state of zeros.
// `mmu_sheet::MmuShown` is the same for the other sheet: theorems name both, and a shared generic struct would save three fields alone.
#[derive(Clone, Copy)]
pub struct CpuShown {
    pub number: u32,
    pub place: u64,
    pub sheet: CpuSheet,
}

impl From<Result<CpuSheet, Fault>> for CpuShown {
    ghost from_gives = { λ r shown. shown ≡ cpu_shown (outcome_of r) };

    fn from(r: Result<CpuSheet, Fault>) -> CpuShown {
        match r {
            Ok(sheet) => CpuShown {
                number: TAKEN,
                place: 0,
                sheet,
            },
            Err(fault) => CpuShown {
                number: u32::from(fault.0),
                place: fault.1 as u64,
                sheet: read_cpu(&[0; PLAIN]),
            },
        }
    }
}

// The bytes of a state without the extension.
const PLAIN: usize = 1183;

// Those of a state with the extension and nothing behind it.
const EXTENDED: usize = 1191;

// Whether a state of `len` bytes has the extension.
fn extended(len: usize) -> bool
    ensures { result ≡ leb 1191 len }
{
    EXTENDED <= len
}

// ---- the vector registers

// The N bytes at a place.
fn part<const N: usize>(s: &[u8], at: usize) -> [u8; N]
    requires { at + N ≤ length s.now }
    ensures { result ≡ take N (drop at s.now) }
{
    let mut a = [0; N];
    a.copy_from_slice(&s[at..at + N]);
    a
}

fn vectors(s: &[u8], at: usize) -> [[u8; 16]; 16]
    requires { at + 256 ≤ length s.now }
    ensures { result ≡ rows 16 (drop at s.now) }
{
    let mut a = [[0; 16]; 16];
    for (i, row) in a.iter_mut().enumerate() {
        *row = part(s, at + i * 16);
    }
    a
}

fn put_vectors(s: &mut [u8], at: usize, a: &[[u8; 16]; 16])
    requires { at + 256 ≤ length s.old }
    ensures { s.new ≡ splice at (joined a.now) s.old }
{
    for (i, row) in a.iter().enumerate() {
        let start = at + i * 16;
        s[start..start + 16].copy_from_slice(row);
    }
}

// A struct that holds them is made, and they are taken out of it, by these two: docs/PROMISES.md names both.
pub fn make_sse(mxcsr: u32, xmm: [[u8; 16]; 16]) -> Sse
    ensures { result ≡ record { mxcsr = mxcsr; xmm = xmm } }
{
    Sse { mxcsr, xmm }
}

pub fn xmm_of(s: Sse) -> [[u8; 16]; 16]
    ensures { result ≡ s.xmm }
{
    s.xmm
}

// ---- reading a CPU state

fn front_of(s: &[u8]) -> Front
    ensures { result ≡ front_of s.now }
{
    Front {
        rip: u64_at(s, 128),
        rflags: u64_at(s, 136),
        mode: u8_at(s, 144),
        halted: u8_at(s, 145),
    }
}

fn segments(s: &[u8]) -> [Segment; 6]
    ensures { result ≡ segments_of s.now }
{
    let mut a = [Segment::default(); 6];
    for (i, segment) in a.iter_mut().enumerate() {
        *segment = segment_at(s, (i * 18 + 146) as u32);
    }
    a
}

fn math_of(s: &[u8]) -> Math
    ensures { result ≡ math_of s.now }
{
    Math {
        fcw: u16_at(s, 254),
        fsw: u16_at(s, 256),
        ftw: u16_at(s, 258),
        top: u8_at(s, 260),
        fop: u16_at(s, 261),
        fip: u64_at(s, 263),
        fdp: u64_at(s, 271),
        fcs: u16_at(s, 279),
        fds: u16_at(s, 281),
    }
}

fn extension_of(s: &[u8]) -> Extension
    ensures { result ≡ extension_of s.now }
{
    Extension {
        there: extended(s.len()),
        a20: u8_at(s, 1187),
        irq13: u8_at(s, 1188),
        valid: u8_at(s, 1189),
        vector: u8_at(s, 1190),
    }
}

fn read_cpu(s: &[u8]) -> CpuSheet
    requires { 1183 ≤ length s.now }
    ensures { result ≡ cpu_of s.now }
{
    let mut gpr = [0; 16];
    words(s, 0, &mut gpr);
    CpuSheet {
        gpr,
        front: front_of(s),
        segments: segments(s),
        math: math_of(s),
        st: part(s, 283),
        sse: make_sse(u32_at(s, 411), vectors(s, 415)),
        image: part(s, 671),
        extension: extension_of(s),
    }
}

// ---- writing over a CPU state

fn put_front(s: &mut [u8], f: Front)
    ensures { s.new ≡ front_over f s.old }
{
    put_u64(s, 128, f.rip);
    put_u64(s, 136, f.rflags);
    put_u8(s, 144, f.mode);
    put_u8(s, 145, f.halted);
}

fn put_segments(s: &mut [u8], a: &[Segment; 6])
    ensures { s.new ≡ segments_over a.now s.old }
{
    for (i, segment) in a.iter().enumerate() {
        put_segment(s, (i * 18 + 146) as u32, *segment);
    }
}

fn put_math(s: &mut [u8], m: Math)
    ensures { s.new ≡ math_over m s.old }
{
    put_u16(s, 254, m.fcw);
    put_u16(s, 256, m.fsw);
    put_u16(s, 258, m.ftw);
    put_u8(s, 260, m.top);
    put_u16(s, 261, m.fop);
    put_u64(s, 263, m.fip);
    put_u64(s, 271, m.fdp);
    put_u16(s, 279, m.fcs);
    put_u16(s, 281, m.fds);
}

fn put_sse(s: &mut [u8], x: Sse)
    requires { 671 ≤ length s.old }
    ensures { s.new ≡ sse_over x s.old }
{
    put_u32(s, 411, x.mxcsr);
    put_vectors(s, 415, &xmm_of(x));
}

fn put_extension(s: &mut [u8], e: Extension)
    ensures { s.new ≡ extension_over e s.old }
{
    put_u8(s, 1187, e.a20);
    put_u8(s, 1188, e.irq13);
    put_u8(s, 1189, e.valid);
    put_u8(s, 1190, e.vector);
}

fn write_cpu(s: &mut [u8], c: CpuSheet)
    requires { 1183 ≤ length s.old }
    ensures { s.new ≡ fields_over c s.old }
{
    put_words(s, 0, &c.gpr);
    put_front(s, c.front);
    put_segments(s, &c.segments);
    put_math(s, c.math);
    wire::copy(s, 283, &c.st);
    put_sse(s, c.sse);
    wire::copy(s, 671, &c.image);
    put_extension(s, c.extension);
}

// ---- the calls

// The sheet of a state that is taken.
fn sheet_of(state: &[u8]) -> Result<CpuSheet, Fault>
    ensures { outcome_of result ≡ cpu_call state.now }
{
    fields::judge(State::Cpu, state)?;
    Ok(read_cpu(state))
}

// The sheet of a CPU state.
pub fn cpu(state: &[u8]) -> CpuShown
    ensures { result ≡ cpu_shown (cpu_call state.now) }
{
    CpuShown::from(sheet_of(state))
}

// A sheet says that the extension is there exactly if a state of `len` bytes has it.
fn agrees(e: Extension, len: usize) -> bool
    ensures { result ≡ matches e len }
{
    e.there == extended(len)
}

// The bytes of all fields of a state of `len` bytes: the extension's length, of 4 bytes, is none.
fn count_of(len: usize) -> usize
    ensures { result ≡ cpu_count len }
{
    if extended(len) { EXTENDED - 4 } else { PLAIN }
}

// A sheet over the first bytes of a state, and how many its fields are; if the state is refused then, all is as it was.
fn lay_over(sheet: CpuSheet, state: &mut [u8]) -> Result<usize, Fault>
    ensures { Changes (cpu_count (length state.old)) (cpu_over_call sheet state.old) state.old (count_answer (outcome_of result)) state.new }
{
    let len = state.len();
    if !fields::right_length(State::Cpu, state) || !agrees(sheet.extension, len) {
        return Err(Fault(Refusal::Shape, 0));
    }
    let n = len.min(EXTENDED);
    let mut old = [0; EXTENDED];
    old[..n].copy_from_slice(&state[..n]);
    write_cpu(&mut state[..n], sheet);
    if let Err(fault) = fields::judge(State::Cpu, state) {
        state[..n].copy_from_slice(&old[..n]);
        return Err(fault);
    }
    Ok(count_of(len))
}

// A sheet over a CPU state, if the state as it would be is taken.
pub fn cpu_over(sheet: CpuSheet, state: &mut [u8]) -> Answer
    ensures { Changes (cpu_count (length state.old)) (cpu_over_call sheet state.old) state.old result state.new }
{
    Answer::from(lay_over(sheet, state))
}
