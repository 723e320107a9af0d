// What can be kept of a damaged snapshot file: the sections that the reader would take one after another are written in their canonical form, by the directory that `sections::divide` makes of them, and what is lost is
// told in records. Slices that are handed on as `&s[..]` go in registers (decision 38).
#![tactic(auto)]

ghost use Rattle.std.specs.Prelude.{◌≡◌, List, ◌++◌, ℕ, ◌≤◌, length, drop};
ghost use Rattle.answer.specs.Outcome.{Pass};
ghost use Rattle.wire.specs.Parts.{Wrote};
ghost use Rattle.order.specs.Entries.{join};
ghost use Rattle.aerosnap.specs.File.{header_checks};
ghost use Rattle.aerosnap.specs.Content.{content_of, render};
ghost use Rattle.aerosnap.specs.Salvage.{parts_of, loss_rows, salvage};
ghost use Rattle.sections.specs.Directory.{directory_places};
ghost use Rattle.sections.specs.Steps.{held, HoldsParts, HasDirectory};
ghost use Rattle.salvage.specs.Salvaging.{Salvages, rescue_answer};

use answer::{Fault, TAKEN, roomy};
use sections::Places;

// The answer of a salvage: number and place, and how many losses there are.
#[repr(C)]
#[derive(Clone, Copy)]
pub struct Salvaged {
    pub number: u32,
    pub place: u64,
    pub losses: u64,
}

// What was kept: how many bytes were written of it, and how many parts are lost.
#[derive(Clone, Copy)]
pub struct Rescue {
    pub bytes: usize,
    pub losses: usize,
}

impl From<Result<Rescue, Fault>> for Salvaged {
    ghost from_gives = { λ r s. s ≡ rescue_answer r };

    fn from(r: Result<Rescue, Fault>) -> Salvaged {
        match r {
            Ok(rescue) => Salvaged {
                number: TAKEN,
                place: rescue.bytes as u64,
                losses: rescue.losses as u64,
            },
            Err(f) => Salvaged {
                number: u32::from(f.0),
                place: f.1 as u64,
                losses: 0,
            },
        }
    }
}

// The records of what is lost, for which there is room: the parts of the file are found once more, since it is known only now that they may be written.
fn put_losses(file: &[u8], lost: usize, index: &mut [u32], losses: &mut [u8])
    requires { Pass (header_checks file.now) × (directory_places ≤ length index.old) × (lost ≡ length (loss_rows 16 (parts_of file.now))) × (length (join (loss_rows 16 (parts_of file.now))) ≤ length losses.old) }
    ensures { losses.new ≡ join (loss_rows 16 (parts_of file.now)) ++ drop (length (join (loss_rows 16 (parts_of file.now)))) losses.old }
{
    if lost == 0 {
        return;
    }
    let _ = sections::divide(file, index, losses);
}

// The canonical form of what is kept, for which there is room. `canon` has the same function of its own: a public one would have to take every input, and this one leans on `HasDirectory`.
fn put_form(file: &[u8], index: &[u32], out: &mut [u8]) -> usize
    requires { HasDirectory file.now index.now × (length (render (content_of (held file.now))) ≤ length out.old) }
    ensures { Wrote (render (content_of (held file.now))) out.old out.new result }
{
    wire::copy(out, 0, &file[..16]);
    16 + canon::put_between(file, index, 0, 9, &mut out[16..])
}

// What is kept of a file whose parts are found, and the records of its losses. Whether there is room for both is known before anything is written.
fn salvage_in(
    file: &[u8],
    lost: usize,
    index: &mut [u32],
    out: &mut [u8],
    losses: &mut [u8],
) -> Result<Rescue, Fault>
    requires { HasDirectory file.now index.old × (lost ≡ length (loss_rows 16 (parts_of file.now))) }
    ensures { Salvages (salvage (length out.old) (length losses.old) file.now) out.old losses.old (rescue_answer result) out.new losses.new }
{
    roomy(out.len(), sections::noted(index, 18))?;
    roomy(losses.len(), 24 * lost)?;
    let bytes = put_form(&file[..], index, out);
    put_losses(&file[..], lost, index, losses);
    Ok(Rescue {
        bytes,
        losses: lost,
    })
}

// What can be kept of a file, with an index of so many places.
fn salvage_with<const N: usize>(
    file: &[u8],
    out: &mut [u8],
    losses: &mut [u8],
) -> Result<Rescue, Fault>
    requires holds { HoldsParts file.now N }
    requires few { N ≤ 4883 }
    ensures { Salvages (salvage (length out.old) (length losses.old) file.now) out.old losses.old (rescue_answer result) out.new losses.new }
{
    let mut index = [0u32; N];
    let mut none = [0u8; 1];
    match sections::divide(&file[..], &mut index, &mut none[..0])? {
        None => salvage_in(&file[..], 0, &mut index, out, losses),
        Some(lost) => salvage_in(&file[..], lost.parts, &mut index, out, losses),
    }
}

// The same, with an index of as many places as the file needs.
fn rescued(file: &[u8], out: &mut [u8], losses: &mut [u8]) -> Result<Rescue, Fault>
    ensures { Salvages (salvage (length out.old) (length losses.old) file.now) out.old losses.old (rescue_answer result) out.new losses.new }
{
    match sections::places_for(&file[..], file.len()) {
        Places::Few => salvage_with::<51>(&file[..], out, losses),
        Places::Some => salvage_with::<275>(&file[..], out, losses),
        Places::All => salvage_with::<4883>(&file[..], out, losses),
    }
}

// What can be kept of a file, written canonically, and one record for each loss.
pub fn salvage(file: &[u8], out: &mut [u8], losses: &mut [u8]) -> Salvaged
    ensures { Salvages (salvage (length out.old) (length losses.old) file.now) out.old losses.old result out.new losses.new }
{
    Salvaged::from(rescued(&file[..], out, losses))
}
