// The fields of CPU and MMU states of version 2: one table of them, and reading and setting a field once for all.
#![tactic(auto)]

ghost use Rattle.std.specs.Prelude.{◌≡◌, ◌+◌, ◌≤◌, ◌<◌, length, unwrap_or};
ghost use Rattle.answer.specs.Outcome.{taken, checked, fitting};
ghost use Rattle.answer.specs.Calls.{outcome_of, asked, count_answer, WritesCount, Writes};
ghost use Rattle.wire.specs.Parts.{splice};
ghost use Rattle.fields.specs.declared.State.TheVariants.{Cpu, Mmu};
ghost use Rattle.fields.specs.Layout.{no_row, row_at};
ghost use Rattle.fields.specs.Fields.{right_length, state_checks, field_call, set_call, Changes};
ghost use Rattle.fields.specs.Steps.{field_spot};

use answer::{Answer, Fault, Refusal, roomy};

// The kinds of state.
#[derive(Clone, Copy)]
pub enum State {
    Cpu,
    Mmu,
}

// A field: where its first stands, its bytes, how many there are, and from one to the next.
#[derive(Clone, Copy)]
pub struct Row {
    pub at: usize,
    pub width: usize,
    pub count: usize,
    pub step: usize,
}

// A field of a state: its number, and an index.
#[derive(Clone, Copy)]
struct FieldName {
    kind: State,
    number: usize,
    index: usize,
}

// Where a field stands in a state, and its bytes.
#[derive(Clone, Copy)]
struct Spot {
    at: usize,
    width: usize,
}

// The fault of a state of a wrong length, or without a field.
const MISSHAPEN: Fault = Fault(Refusal::Shape, 0);

// Rows, each by its four numbers.
macro_rules! rows {
    ($([$at:literal, $width:literal, $count:literal, $step:literal],)*) => {
        [$(Row { at: $at, width: $width, count: $count, step: $step }),*]
    };
}

const CPU_FIELDS: [Row; 26] = rows![
    [0, 8, 16, 8],
    [128, 8, 1, 8],
    [136, 8, 1, 8],
    [144, 1, 1, 1],
    [145, 1, 1, 1],
    [146, 2, 6, 18],
    [148, 8, 6, 18],
    [156, 4, 6, 18],
    [160, 4, 6, 18],
    [254, 2, 1, 2],
    [256, 2, 1, 2],
    [258, 2, 1, 2],
    [260, 1, 1, 1],
    [261, 2, 1, 2],
    [263, 8, 1, 8],
    [271, 8, 1, 8],
    [279, 2, 1, 2],
    [281, 2, 1, 2],
    [283, 16, 8, 16],
    [411, 4, 1, 4],
    [415, 16, 16, 16],
    [671, 512, 1, 512],
    [1187, 1, 1, 1],
    [1188, 1, 1, 1],
    [1189, 1, 1, 1],
    [1190, 1, 1, 1],
];

const MMU_FIELDS: [Row; 11] = rows![
    [0, 8, 5, 8],
    [40, 8, 8, 8],
    [104, 8, 13, 8],
    [208, 8, 1, 8],
    [216, 2, 1, 2],
    [218, 8, 1, 8],
    [226, 2, 1, 2],
    [228, 2, 2, 18],
    [230, 8, 2, 18],
    [238, 4, 2, 18],
    [242, 4, 2, 18],
];

// Whether the length of a state is right.
pub fn right_length(kind: State, state: &[u8]) -> bool
    ensures { result ≡ right_length kind state.now }
{
    match kind {
        State::Cpu => entries::cpu_sized(2, state),
        State::Mmu => state.len() == entries::mmu_length(2),
    }
}

// What is asked of a whole state: its length, then its values.
pub fn judge(kind: State, state: &[u8]) -> Result<(), Fault>
    ensures { outcome_of result ≡ asked (state_checks kind state.now) }
{
    match kind {
        State::Cpu => entries::cpu_state(2, state),
        State::Mmu => {
            if right_length(kind, state) {
                Ok(())
            } else {
                Err(MISSHAPEN)
            }
        }
    }
}

// ---- bytes handed out and stored

// A part of a state into the start of `out`.
fn hand_out(part: &[u8], out: &mut [u8]) -> Result<usize, Fault>
    ensures { WritesCount (fitting (length out.old) part.now) out.old result out.new }
{
    let n = part.len();
    roomy(out.len(), n)?;
    out[..n].copy_from_slice(part);
    Ok(n)
}

// v over the bytes from `at` on; if the state is refused then, all is as it was.
fn store_at(kind: State, s: &mut [u8], at: usize, v: &[u8]) -> Result<usize, Fault>
    requires { (at + length v.now ≤ length s.old) × (length v.now ≤ 512) }
    ensures { Changes (length v.now) (checked (state_checks kind (splice at v.now s.old)) (taken (splice at v.now s.old))) s.old (count_answer (outcome_of result)) s.new }
{
    let w = v.len();
    let e = at + w;
    let mut old = [0; 512];
    old[..w].copy_from_slice(&s[at..e]);
    s[at..e].copy_from_slice(v);
    if let Err(fault) = judge(kind, s) {
        s[at..e].copy_from_slice(&old[..w]);
        return Err(fault);
    }
    Ok(w)
}

// ---- one field

impl FieldName {
    // The field with the numbers that a caller gives.
    fn new(kind: State, number: u32, index: u32) -> FieldName
        ensures { result ≡ record { kind = kind; number = number; index = index } }
    {
        FieldName {
            kind,
            number: number as usize,
            index: index as usize,
        }
    }

    // Its row; none past the table.
    fn row(self) -> Option<Row>
        ensures { unwrap_or result no_row ≡ row_at self.kind self.number }
    {
        let table: &[Row] = match self.kind {
            State::Cpu => &CPU_FIELDS,
            State::Mmu => &MMU_FIELDS,
        };
        table.get(self.number).copied()
    }

    // Where it stands in a state of `len` bytes.
    fn find(self, len: usize) -> Result<Spot, Fault>
        ensures { outcome_of result ≡ field_spot (row_at self.kind self.number) self.index len }
    {
        let row = self.row().ok_or(MISSHAPEN)?;
        if row.count <= self.index {
            return Err(MISSHAPEN);
        }
        let at = row.at + self.index * row.step;
        let width = row.width;
        if !wire::fits(len, at, width) {
            return Err(MISSHAPEN);
        }
        Ok(Spot { at, width })
    }

    // Its bytes into `out`, and how many they are.
    fn read(self, state: &[u8], out: &mut [u8]) -> Result<usize, Fault>
        ensures { WritesCount (field_call self.kind (length out.old) state.now self.number self.index) out.old result out.new }
    {
        let spot = self.find(state.len())?;
        judge(self.kind, state)?;
        hand_out(&state[spot.at..spot.at + spot.width], out)
    }

    // The bytes v over it, if the state as it would be is taken, and how many they are.
    fn set(self, state: &mut [u8], v: &[u8]) -> Result<usize, Fault>
        ensures { Changes (length v.now) (set_call self.kind state.old self.number self.index v.now) state.old (count_answer (outcome_of result)) state.new }
    {
        if !right_length(self.kind, state) {
            return Err(MISSHAPEN);
        }
        let spot = self.find(state.len())?;
        if v.len() != spot.width {
            return Err(Fault(Refusal::Value, spot.at));
        }
        store_at(self.kind, state, spot.at, v)
    }
}

// ---- the calls

// The bytes of a field into `out`.
pub fn field(kind: State, state: &[u8], n: u32, i: u32, out: &mut [u8]) -> Answer
    ensures { Writes (field_call kind (length out.old) state.now n i) out.old result out.new }
{
    Answer::from(FieldName::new(kind, n, i).read(state, out))
}

// A field set to the bytes v, if the state as it would be is taken.
pub fn set(kind: State, state: &mut [u8], n: u32, i: u32, v: &[u8]) -> Answer
    ensures { Changes (length v.now) (set_call kind state.old n i v.now) state.old result state.new }
{
    Answer::from(FieldName::new(kind, n, i).set(state, v))
}

// ---- the same for each kind, since C has a function for each

pub fn cpu_field(state: &[u8], n: u32, i: u32, out: &mut [u8]) -> Answer
    ensures { Writes (field_call Cpu (length out.old) state.now n i) out.old result out.new }
{
    field(State::Cpu, state, n, i, out)
}

pub fn mmu_field(state: &[u8], n: u32, i: u32, out: &mut [u8]) -> Answer
    ensures { Writes (field_call Mmu (length out.old) state.now n i) out.old result out.new }
{
    field(State::Mmu, state, n, i, out)
}

pub fn cpu_set(state: &mut [u8], n: u32, i: u32, value: &[u8]) -> Answer
    ensures { Changes (length value.now) (set_call Cpu state.old n i value.now) state.old result state.new }
{
    set(State::Cpu, state, n, i, value)
}

pub fn mmu_set(state: &mut [u8], n: u32, i: u32, value: &[u8]) -> Answer
    ensures { Changes (length value.now) (set_call Mmu state.old n i value.now) state.old result state.new }
{
    set(State::Mmu, state, n, i, value)
}
