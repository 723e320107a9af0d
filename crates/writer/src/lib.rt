// Entries of a list written from their starts, whatever their kind: runs of them, and whole lists.
// Slices that are handed on as `&s[..]` go in registers (decision 38).
#![tactic(auto)]

ghost use Rattle.std.specs.Prelude.{◌≡◌, cond, [], map, leb, length};
ghost use Rattle.wire.specs.Parts.{put, Wrote};
ghost use Rattle.order.specs.Entries.{join};
ghost use Rattle.entries.specs.Code.{describe};
ghost use Rattle.writer.specs.Runs.{entry_by, fits, in_key_order, by_starts};

use entries::{Kind, length_at};

// ---- entries of a list

// The entry that starts at y, over the start of `out` where it fits, and how many bytes it has.
fn put_entry(kind: Kind, s: &[u8], y: usize, out: &mut [u8]) -> usize
    ensures { (result ≡ length (entry_by (describe kind) s.now y)) × (out.new ≡ put 0 (entry_by (describe kind) s.now y) out.old) }
{
    let n = length_at(kind, s, y);
    let b = wire::tail(s, y);
    wire::copy(out, 0, &b[..n]);
    n
}

// The entries that start at `starts`, one after another, up to the first that does not fit: each goes into the tail of `out` from where the last ended.
pub fn put_run(kind: Kind, s: &[u8], starts: &[u32], out: &mut [u8]) -> usize
    ensures { Wrote (join (fits (length out.old) (map (entry_by (describe kind) s.now) starts.now))) out.old out.new result }
{
    let mut at = 0;
    for y in starts {
        let n = put_entry(kind, &s[..], *y as usize, &mut out[at..]);
        if out.len() - at < n {
            return at;
        }
        at += n;
    }
    at
}

// ---- whole lists

// Whether each start is at least the one before it.
pub fn in_order(starts: &[u32]) -> bool
    ensures { result ≡ in_key_order starts.now }
{
    starts.is_sorted()
}

// The list s over as many bytes, its entries in the order of `starts`: its count, the entries, and behind them what is left of s, which is its tail.
fn fill_by_starts(kind: Kind, s: &[u8], starts: &[u32], out: &mut [u8])
    requires { length out.old ≡ length s.now }
    ensures { out.new ≡ by_starts (describe kind) s.now starts.now }
{
    if s.len() < 4 {
        wire::copy(out, 0, s);
        return;
    }
    wire::copy(out, 0, &s[..4]);
    let at = 4 + put_run(kind, s, starts, &mut out[4..]);
    wire::copy(out, at, &s[at..]);
}

// The same over the start of `out`, where there is room for it.
pub fn put_by_starts(kind: Kind, s: &[u8], starts: &[u32], out: &mut [u8]) -> usize
    ensures { Wrote (cond (leb (length s.now) (length out.old)) (by_starts (describe kind) s.now starts.now) []) out.old out.new result }
{
    let n = s.len();
    if out.len() < n {
        return 0;
    }
    fill_by_starts(kind, s, starts, &mut out[..n]);
    n
}
