// The payloads of sections: each known one is read by its own reader, as a part of the file, and where the entries of a list start is kept.
#![tactic(auto)]

ghost use Rattle.std.specs.Prelude.{◌≡◌, [], ◌≤◌, length};
ghost use Rattle.answer.specs.Outcome.{taken, after};
ghost use Rattle.answer.specs.Calls.{outcome_of};
ghost use Rattle.format.specs.Format.{option, pair, bytes, text};
ghost use Rattle.format.specs.Places.{read_at};
ghost use Rattle.lists.specs.Promises.{Indexed};
ghost use Rattle.aerosnap.specs.Payloads.{label_most, meta_form, meta, mmu, payload};
ghost use Rattle.aerosnap.specs.File.{file_most};
ghost use Rattle.payloads.specs.Starts.{kept_of};

use answer::{Fault, Refusal};
use entries::Kind;
use format::{block_at, flag_at, text_at};
use lists::FILE_MOST;

// ---- META

// The bound of its label.
const LABEL_MOST: u32 = 4096;

fn parent_at(s: &[u8], at: usize) -> Result<usize, Fault>
    ensures { outcome_of result ≡ read_at (option (bytes 8)) s.now at }
{
    let given = flag_at(s, at)?;
    if given {
        return block_at(s, at + 1, 8);
    }
    Ok(at + 1)
}

fn label_at(s: &[u8], at: usize) -> Result<usize, Fault>
    ensures { outcome_of result ≡ read_at (option (text label_most)) s.now at }
{
    let given = flag_at(s, at)?;
    if given {
        return text_at(s, at + 1, LABEL_MOST);
    }
    Ok(at + 1)
}

// The time and the label.
fn time_at(s: &[u8], at: usize) -> Result<usize, Fault>
    ensures { outcome_of result ≡ read_at (pair (bytes 8) (option (text label_most))) s.now at }
{
    let e = block_at(s, at, 8)?;
    label_at(s, e)
}

// The parent, the time and the label.
fn since_at(s: &[u8], at: usize) -> Result<usize, Fault>
    ensures { outcome_of result ≡ read_at (pair (option (bytes 8)) (pair (bytes 8) (option (text label_most)))) s.now at }
{
    let e = parent_at(s, at)?;
    time_at(s, e)
}

fn fields(s: &[u8]) -> Result<usize, Fault>
    ensures { outcome_of result ≡ read_at meta_form s.now 0 }
{
    let e = block_at(s, 0, 8)?;
    since_at(s, e)
}

// What stands behind its last field is a tail.
fn snapshot_meta(p: &[u8]) -> Result<(), Fault>
    ensures { outcome_of result ≡ payload meta p.now }
{
    fields(p)?;
    Ok(())
}

// ---- MMU

fn mmu_state(version: u16, p: &[u8]) -> Result<(), Fault>
    ensures { outcome_of result ≡ payload (mmu version) p.now }
{
    if p.len() == entries::mmu_length(version) {
        return Ok(());
    }
    Err(Fault(Refusal::Shape, 0))
}

// ---- any payload

// What is no list has no starts.
fn plain(t: Result<(), Fault>) -> Result<usize, Fault>
    ensures { outcome_of result ≡ after (outcome_of t) (λ _. taken 0) }
{
    t?;
    Ok(0)
}

// Each payload by its own reader.
fn body(id: u32, version: u16, p: &[u8], starts: &mut [u32]) -> Result<usize, Fault>
    requires { length p.now ≤ file_most }
    ensures { Indexed (kept_of (length starts.old) id version p.now) starts.old result starts.new }
{
    match id {
        1 => plain(snapshot_meta(p)),
        2 => plain(entries::cpu_state(version, p)),
        3 => plain(mmu_state(version, p)),
        4 => lists::index(Kind::Devices, p, starts),
        5 => lists::index(Kind::Disks, p, starts),
        7 => lists::index(Kind::Cpus(version), p, starts),
        8 => lists::index(Kind::Mmus(version), p, starts),
        _ => plain(Ok(())),
    }
}

// The first fault of the payload of a section with that id and version, or how many starts are kept of it: those of all entries of a list, the first of `starts` in the order of their keys, or none where `starts` holds fewer or it is no list.
// What stands behind them is left as it was, and so is all of it after a refusal. A part longer than a file may be is SIZE.
pub fn index(id: u32, version: u16, p: &[u8], starts: &mut [u32]) -> Result<usize, Fault>
    ensures { Indexed (kept_of (length starts.old) id version p.now) starts.old result starts.new }
{
    if FILE_MOST < p.len() {
        return Err(Fault(Refusal::Size, 0));
    }
    body(id, version, p, starts)
}
