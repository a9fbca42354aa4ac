// How many pieces of each type an outline has: the first twelve bytes of a record, read and compared where they stand.
// The arena calls this crate for each of its records. It promises what each answer is of the counts, for a job of so many types.
#![tactic(auto)]

ghost use Rattle.std.specs.Prelude.{◌≡◌, true, ◌≤◌, take};
ghost use Rattle.rules.specs.Limits.{types_most};
ghost use Rattle.rules.specs.Bag.{sum};
ghost use Rattle.rules.specs.Job.{plus};
ghost use Rattle.rules.proofs.Outlines.{same_list, at_most};
ghost use Rattle.tally.specs.Bounds.{counts_most, bounds_most, BoundsOf};

use shapes::{RECORD_BYTES, TYPES_MOST};

// A machine compares so many bytes at once: the counts of a record, and a few bytes behind them that get no bound.
pub const BOUNDS: usize = 16;

// The bound of a byte that has none.
const BYTE_MOST: u8 = 255;

pub fn counts_of(s: &[u8; RECORD_BYTES]) -> [u8; TYPES_MOST]
    ensures { result ≡ take types_most s.now }
{
    let mut r = [0; TYPES_MOST];
    r.copy_from_slice(&s[..TYPES_MOST]);
    r
}

// The first n counts of a record are these.
pub fn same_counts(s: &[u8; RECORD_BYTES], counts: &[u8; TYPES_MOST], n: usize) -> bool
    requires { n ≤ types_most }
    ensures { result ≡ same_list (take n counts.now) (take n (take types_most s.now)) }
{
    counts[..n] == s[..n]
}

// These counts as bounds, for a job of so many types.
pub fn bounds_of(counts: [u8; TYPES_MOST], types: usize) -> [u8; BOUNDS]
    requires { types ≤ types_most }
    ensures { BoundsOf types counts result }
{
    let mut r = [BYTE_MOST; BOUNDS];
    r[..types].copy_from_slice(&counts[..types]);
    r
}

// The first bytes of a record are at most these. There is no early end, so that the loop becomes one comparison: most records are over somewhere, and nothing foretells where.
pub fn within(s: &[u8; RECORD_BYTES], bounds: [u8; BOUNDS]) -> bool
    ensures { result ≡ at_most (take bounds_most s.now) bounds }
{
    let mut fit = true;
    for i in 0..BOUNDS {
        if bounds[i] < s[i] {
            fit = false;
        }
    }
    fit
}

// These counts less the first n of a record.
pub fn rest(s: &[u8; RECORD_BYTES], counts: [u8; TYPES_MOST], n: usize) -> [u8; TYPES_MOST]
    requires { (n ≤ types_most) × (at_most (take n (take types_most s.now)) (take n counts) ≡ true) }
    ensures { plus (take n (take types_most s.now)) (take n result) ≡ take n counts }
{
    let mut r = counts;
    for i in 0..n {
        r[i] = counts[i] - s[i];
    }
    r
}

// The first n counts, added up.
pub fn pieces_of(counts: [u8; TYPES_MOST], n: usize) -> usize
    requires { n ≤ types_most }
    ensures { (result ≡ sum (take n counts)) × (result ≤ counts_most) }
{
    let mut r = 0;
    for i in 0..n {
        r += usize::from(counts[i]);
    }
    r
}

// The first n counts of a record, added up.
pub fn pieces(s: &[u8; RECORD_BYTES], n: usize) -> usize
    requires { n ≤ types_most }
    ensures { (result ≡ sum (take n (take types_most s.now))) × (result ≤ counts_most) }
{
    pieces_of(counts_of(s), n)
}
