// The card: what the tablet shows of a canonical file, and how its numbers move with an edit. Nothing below an edit knows of it.
#![tactic(auto)]

ghost use Rattle.std.specs.Prelude.{◌≡◌, true, ◌&&◌, ◌+◌, ◌≤◌, leb};
ghost use Rattle.answer.specs.Outcome.{taken, checked};
ghost use Rattle.answer.specs.Calls.{outcome_of};
ghost use Rattle.cards.specs.Cards.{stays, goes, card_checks, moved_card, edited_answer};

use aerosnap::{DEVICES_MOST, SECTIONS_MOST};
use answer::{Fault, Refusal, TAKEN};
use lists::FILE_MOST;

// A canonical file's length, its sections, its devices, and the bytes of their payloads together.
#[repr(C)]
#[derive(Clone, Copy)]
pub struct Card {
    pub length: u64,
    pub sections: u64,
    pub devices: u64,
    pub payloads: u64,
}

// What an edit answers: number and place, the index of the entry that is refused where there are many, and the card.
#[repr(C)]
#[derive(Clone, Copy)]
pub struct Edited {
    pub number: u32,
    pub index: u32,
    pub place: u64,
    pub card: Card,
}

// What an edit writes: how many bytes, and the card that goes with them.
#[derive(Clone, Copy)]
pub struct Written {
    pub bytes: usize,
    pub card: Card,
}

// Why an edit is refused, and the index of the entry that is where there are many.
#[derive(Clone, Copy)]
pub struct Refused {
    pub index: u32,
    pub fault: Fault,
}

impl From<Fault> for Refused {
    ghost from_gives = { λ f r. r ≡ record { index = 0; fault = f } };

    fn from(fault: Fault) -> Refused {
        Refused { index: 0, fault }
    }
}

// What is told of an edit beside a card: a refusal leaves the card as it was.
pub fn edited_answer(card: Card, r: Result<Written, Refused>) -> Edited
    ensures { result ≡ edited_answer card r }
{
    match r {
        Ok(written) => Edited {
            number: TAKEN,
            index: 0,
            place: written.bytes as u64,
            card: written.card,
        },
        Err(refused) => Edited {
            number: u32::from(refused.fault.0),
            index: refused.index,
            place: refused.fault.1 as u64,
            card,
        },
    }
}

// The bounds of its numbers.
const SHORTEST: u64 = 16;

const LONGEST: u64 = FILE_MOST as u64;

const MOST_SECTIONS: u64 = SECTIONS_MOST as u64;

const MOST_DEVICES: u64 = 4096;

const MOST_PAYLOADS: u64 = DEVICES_MOST as u64;

// Whether a number that grows by d stays within lo and hi. No sum is formed, so none wraps.
fn is_raised(lo: u64, hi: u64, d: u64, n: u64) -> bool
    ensures { result ≡ (leb lo (n + d) && leb (n + d) hi) }
{
    if hi < n {
        return false;
    }
    if hi - n < d {
        return false;
    }
    if n < lo {
        return lo - n <= d;
    }
    true
}

// Whether one that shrinks by d does.
fn is_lowered(lo: u64, hi: u64, d: u64, n: u64) -> bool
    ensures { result ≡ (leb (lo + d) n && leb n (hi + d)) }
{
    if n < lo {
        return false;
    }
    if n - lo < d {
        return false;
    }
    if hi < n {
        return n - hi <= d;
    }
    true
}

// Whether one that moves as from a to b does.
fn is_within(lo: u64, hi: u64, a: u64, b: u64, n: u64) -> bool
    ensures { result ≡ stays lo hi a b n }
{
    if a <= b {
        return is_raised(lo, hi, b - a, n);
    }
    is_lowered(lo, hi, a - b, n)
}

// Where it goes.
fn gone_to(a: u64, b: u64, n: u64) -> u64
    requires { (a ≤ n + b) × (n + b ≤ a + 4294967296) }
    ensures { result ≡ goes a b n }
{
    if a <= b {
        return n + (b - a);
    }
    n - (a - b)
}

// Where a card goes that moves as from a to b, whatever these are, or that a number of it leaves its bounds.
pub fn move_by(card: Card, a: Card, b: Card) -> Result<Card, Fault>
    ensures { outcome_of result ≡ checked (card_checks card a b) (taken (moved_card card a b)) }
{
    if !is_within(SHORTEST, LONGEST, a.length, b.length, card.length) {
        return Err(Fault(Refusal::Card, 0));
    }
    if !is_within(0, MOST_SECTIONS, a.sections, b.sections, card.sections) {
        return Err(Fault(Refusal::Card, 0));
    }
    if !is_within(0, MOST_DEVICES, a.devices, b.devices, card.devices) {
        return Err(Fault(Refusal::Card, 0));
    }
    if !is_within(0, MOST_PAYLOADS, a.payloads, b.payloads, card.payloads) {
        return Err(Fault(Refusal::Card, 0));
    }
    Ok(Card {
        length: gone_to(a.length, b.length, card.length),
        sections: gone_to(a.sections, b.sections, card.sections),
        devices: gone_to(a.devices, b.devices, card.devices),
        payloads: gone_to(a.payloads, b.payloads, card.payloads),
    })
}
