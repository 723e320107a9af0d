// MMU states of version 2 as sheets: structs of their fields by value, read from a state's bytes and written over them.
// Which field stands where is said by `fields`; proofs/Ties.antt has the law.
#![tactic(auto)]

ghost use Rattle.std.specs.Prelude.{◌≡◌};
ghost use Rattle.answer.specs.Calls.{outcome_of, count_answer};
ghost use Rattle.fields.specs.Fields.{Changes};
ghost use Rattle.mmu_sheet.specs.Sheet.{bound_at, mmu_of, bound_over, mmu_over};
ghost use Rattle.mmu_sheet.specs.Calls.{mmu_shown, mmu_call, mmu_over_call};

use answer::{Answer, Fault, TAKEN};
use fields::State;
use registers::{Segment, put_segment, put_words, segment_at, words};
use wire::{put_u16, put_u64, u16_at, u64_at};

// Base and limit of a descriptor table.
#[derive(Clone, Copy)]
pub struct Bound {
    pub base: u64,
    pub limit: u16,
}

#[derive(Clone, Copy)]
pub struct MmuSheet {
    pub control: [u64; 5],
    pub debug: [u64; 8],
    pub msr: [u64; 13],
    pub gdtr: Bound,
    pub idtr: Bound,
    pub ldtr: Segment,
    pub tr: Segment,
}

// Number and place, and the sheet; beside a refusal the sheet of a state of zeros.
// `sheet::CpuShown` is the same for the other sheet: theorems name both, and a shared generic struct would save three fields alone.
#[derive(Clone, Copy)]
pub struct MmuShown {
    pub number: u32,
    pub place: u64,
    pub sheet: MmuSheet,
}

impl From<Result<MmuSheet, Fault>> for MmuShown {
    ghost from_gives = { λ r shown. shown ≡ mmu_shown (outcome_of r) };

    fn from(r: Result<MmuSheet, Fault>) -> MmuShown {
        match r {
            Ok(sheet) => MmuShown {
                number: TAKEN,
                place: 0,
                sheet,
            },
            Err(fault) => MmuShown {
                number: u32::from(fault.0),
                place: fault.1 as u64,
                sheet: read_mmu(&[0; MMU_BYTES]),
            },
        }
    }
}

// The bytes of a state.
const MMU_BYTES: usize = 264;

// ---- reading a state

fn bound_at(s: &[u8], at: u32) -> Bound
    ensures { result ≡ bound_at s.now at }
{
    let p = at as usize;
    Bound {
        base: u64_at(s, p),
        limit: u16_at(s, p + 8),
    }
}

fn read_mmu(s: &[u8]) -> MmuSheet
    ensures { result ≡ mmu_of s.now }
{
    let mut control = [0; 5];
    words(s, 0, &mut control);
    let mut debug = [0; 8];
    words(s, 40, &mut debug);
    let mut msr = [0; 13];
    words(s, 104, &mut msr);
    MmuSheet {
        control,
        debug,
        msr,
        gdtr: bound_at(s, 208),
        idtr: bound_at(s, 218),
        ldtr: segment_at(s, 228),
        tr: segment_at(s, 246),
    }
}

// ---- writing over a state

fn put_bound(s: &mut [u8], at: u32, b: Bound)
    ensures { s.new ≡ bound_over at b s.old }
{
    let p = at as usize;
    put_u64(s, p, b.base);
    put_u16(s, p + 8, b.limit);
}

fn write_mmu(s: &mut [u8], m: MmuSheet)
    ensures { s.new ≡ mmu_over m s.old }
{
    put_words(s, 0, &m.control);
    put_words(s, 40, &m.debug);
    put_words(s, 104, &m.msr);
    put_bound(s, 208, m.gdtr);
    put_bound(s, 218, m.idtr);
    put_segment(s, 228, m.ldtr);
    put_segment(s, 246, m.tr);
}

// ---- the calls

// The sheet of a state that is taken.
fn sheet_of(state: &[u8]) -> Result<MmuSheet, Fault>
    ensures { outcome_of result ≡ mmu_call state.now }
{
    fields::judge(State::Mmu, state)?;
    Ok(read_mmu(state))
}

// The sheet of an MMU state.
pub fn mmu(state: &[u8]) -> MmuShown
    ensures { result ≡ mmu_shown (mmu_call state.now) }
{
    MmuShown::from(sheet_of(state))
}

// A sheet over a state that is taken, and how many bytes that are.
fn lay_over(sheet: MmuSheet, state: &mut [u8]) -> Result<usize, Fault>
    ensures { Changes 264 (mmu_over_call sheet state.old) state.old (count_answer (outcome_of result)) state.new }
{
    fields::judge(State::Mmu, state)?;
    write_mmu(state, sheet);
    Ok(MMU_BYTES)
}

// A sheet over an MMU state.
pub fn mmu_over(sheet: MmuSheet, state: &mut [u8]) -> Answer
    ensures { Changes 264 (mmu_over_call sheet state.old) state.old result state.new }
{
    Answer::from(lay_over(sheet, state))
}
