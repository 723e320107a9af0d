// The disk-controller wrapper: checked, listed, and written in address order.
// Slices that are handed on as `&s[..]` go in registers (decision 38).
#![tactic(auto)]

ghost use Rattle.std.specs.Prelude.{◌≡◌, ◌≤◌, length, MatchResult};
ghost use Rattle.answer.specs.Outcome.{taken};
ghost use Rattle.answer.specs.Calls.{fault_of, outcome_of, asked, verdict, WritesCount, Writes};
ghost use Rattle.wire.specs.Parts.{Wrote};
ghost use Rattle.entries.specs.Kinds.{controllers};
ghost use Rattle.writer.specs.Steps.{Listed, sorted_bytes};
ghost use Rattle.dskc.specs.Wrapper.{wrapper_header_checks, wrapper_of, controllers_call, wrapper_canonical_call};
ghost use Rattle.dskc.specs.Wrapper as wrapper;
ghost use Rattle.dskc.specs.Steps.{tag_checks};

use answer::{Answer, Fault, Refusal, roomy};
use entries::Kind;
use tables::{ROW, Table};
use wire::{u16_at, u32_at};

// The bound of a wrapper.
const WRAPPER_MOST: usize = 67108864;

// The bound of its controllers.
const CONTROLLERS_MOST: usize = 256;

// The letters, as the number that they are in the file.
const AERO: u32 = 0x4F524541;

const DSKC: u32 = 0x434B5344;

// Four letters at a place, and behind them the pair 1, 0.
fn tagged(s: &[u8], at: usize, letters: u32) -> Result<(), Fault>
    requires { at ≤ 8 }
    ensures { outcome_of result ≡ asked (tag_checks letters at s.now) }
{
    if u32_at(s, at) != letters {
        return Err(Fault(Refusal::Magic, at));
    }
    if u16_at(s, at + 4) != 1 || u16_at(s, at + 6) != 0 {
        return Err(Fault(Refusal::Version, at + 4));
    }
    Ok(())
}

fn header(s: &[u8]) -> Result<(), Fault>
    ensures { outcome_of result ≡ asked (wrapper_header_checks s.now) }
{
    if WRAPPER_MOST < s.len() {
        return Err(Fault(Refusal::Size, 0));
    }
    if s.len() < 16 {
        return Err(Fault(Refusal::Short, 0));
    }
    tagged(s, 0, AERO)?;
    tagged(s, 8, DSKC)
}

// Where the controllers of a wrapper start behind its header, in address order; or its first fault.
fn index<'a>(s: &[u8], places: &'a mut [u32]) -> Result<&'a [u32], Fault>
    requires { controllers.most ≤ length places.old }
    ensures { MatchResult result (λ starts. taken starts.now ≡ wrapper_of s.now) (λ fault. fault_of fault ≡ wrapper_of s.now) }
{
    header(&s[..])?;
    match lists::index(Kind::Controllers, wire::tail(&s[..], 16), places) {
        Ok(n) => Ok(&places[..n]),
        Err(Fault(refusal, place)) => Err(Fault(refusal, 16 + place)),
    }
}

pub fn check(wrapper: &[u8]) -> Answer
    ensures { result ≡ verdict (wrapper_of wrapper.now) }
{
    let mut places = [0; CONTROLLERS_MOST];
    Answer::from(index(wrapper, &mut places).map(|_| ()))
}

// The table of controllers in address order, and its length.
fn put_table(wrapper: &[u8], table: &mut [u8]) -> Result<usize, Fault>
    ensures { WritesCount (controllers_call (length table.old) wrapper.now) table.old result table.new }
{
    let mut places = [0; CONTROLLERS_MOST];
    let starts = index(wrapper, &mut places)?;
    let need = ROW * starts.len();
    roomy(table.len(), need)?;
    tables::put_rows(
        Table::Controllers,
        wire::tail(wrapper, 16),
        16,
        starts,
        table,
    );
    Ok(need)
}

// The table of controllers in address order.
pub fn controllers(wrapper: &[u8], table: &mut [u8]) -> Answer
    ensures { Writes (controllers_call (length table.old) wrapper.now) table.old result table.new }
{
    Answer::from(put_table(wrapper, table))
}

// The header: the fixed letters and pairs.
fn put_header(out: &mut [u8])
    requires { 16 ≤ length out.old }
    ensures { Wrote wrapper.wrapper_header out.old out.new 16 }
{
    wire::put_u32(out, 0, AERO);
    wire::put_u32(out, 4, 1);
    wire::put_u32(out, 8, DSKC);
    wire::put_u32(out, 12, 1);
}

// The list of controllers that start at `starts`, in address order: at once where it stands so.
fn put_list(s: &[u8], starts: &[u32], out: &mut [u8])
    requires { Listed controllers s.now starts.now × (length s.now ≤ length out.old) }
    ensures { Wrote (sorted_bytes controllers s.now) out.old out.new (length s.now) }
{
    if writer::in_order(starts) {
        wire::copy(out, 0, s);
    } else {
        writer::put_by_starts(Kind::Controllers, s, starts, out);
    }
}

// The canonical wrapper, and its length.
fn put_canonical(wrapper: &[u8], out: &mut [u8]) -> Result<usize, Fault>
    ensures { WritesCount (wrapper_canonical_call (length out.old) wrapper.now) out.old result out.new }
{
    let mut places = [0; CONTROLLERS_MOST];
    let starts = index(wrapper, &mut places)?;
    let need = wrapper.len();
    roomy(out.len(), need)?;
    put_header(out);
    put_list(wire::tail(wrapper, 16), starts, &mut out[16..]);
    Ok(need)
}

// The canonical wrapper: the header, and the controllers in address order, a count of 0 kept.
pub fn canonical(wrapper: &[u8], out: &mut [u8]) -> Answer
    ensures { Writes (wrapper_canonical_call (length out.old) wrapper.now) out.old result out.new }
{
    Answer::from(put_canonical(wrapper, out))
}
