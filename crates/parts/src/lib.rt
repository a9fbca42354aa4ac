// The parts of some counts that have at most half of the pieces, one after the other, as an odometer goes: with each what is left of the counts, and what it weighs.
// Whoever makes a class of pairs of classes calls this crate: the first half's counts are such a part, the second half's the rest, and both are found by what they weigh.
// It promises that no such part is passed over.
#![tactic(auto)]

ghost use Rattle.std.specs.Prelude.{◌≡◌, ◌≤◌, ◌<◌, leb, set, take};
ghost use Rattle.rules.specs.Limits.{types_most, records_most};
ghost use Rattle.tally.specs.Bounds.{byte_most};
ghost use Rattle.parts.specs.Parts.{digit, portion, PortionOf, Risen, Stepped, parts_of};

use shapes::TYPES_MOST;

// What a part weighs, and how many pieces more it may have.
#[derive(Clone, Copy, Debug, PartialEq, Eq)]
pub struct Step {
    pub weight: u64,
    pub spare: usize,
}

// One piece more of type t.
fn rise(part: &mut [u8; TYPES_MOST], rest: &mut [u8; TYPES_MOST], t: usize)
    requires { (t < types_most) × (digit part.old t < byte_most) × (0 < digit rest.old t) }
    ensures { Risen t part.old rest.old part.new rest.new }
{
    part[t] += 1;
    rest[t] -= 1;
}

// No piece of type t: all of them are left.
fn begin_again(part: &mut [u8; TYPES_MOST], rest: &mut [u8; TYPES_MOST], t: usize, count: u8)
    requires { t < types_most }
    ensures { (part.new ≡ set part.old t 0) × (rest.new ≡ set rest.old t count) }
{
    part[t] = 0;
    rest[t] = count;
}

// The part behind a part of these counts, in its place, and its rest: the first count that may go up goes up, and those before it begin again. None when no count may: all parts have been.
// The part and its rest stand in two arrays, in their place: by value, as a struct, they took nearly half of the planner's time (docs/DECISIONS.md, 32).
pub fn next(
    part: &mut [u8; TYPES_MOST],
    rest: &mut [u8; TYPES_MOST],
    counts: [u8; TYPES_MOST],
    types: usize,
    from: Step,
) -> Option<Step>
    requires { PortionOf types counts (portion part.old rest.old from) × (types ≤ types_most) }
    ensures { Stepped types counts part.old part.new rest.new result }
{
    let mut weight = from.weight;
    let mut spare = from.spare;
    let mut next = weighing::FIRST_WEIGHT;
    for i in 0..types {
        let each = next;
        next = weighing::next_weight(each);
        let left = rest[i];
        if spare > 0 && left > 0 {
            rise(part, rest, i);
            return Some(Step {
                weight: weight + each,
                spare: spare - 1,
            });
        }
        weight -= u64::from(part[i]) * each;
        spare += usize::from(part[i]);
        begin_again(part, rest, i, counts[i]);
    }
    None
}

// These counts have no more than so many parts, their own and the part of nothing among them.
pub fn are_few(counts: [u8; TYPES_MOST], types: usize, most: usize) -> bool
    requires { (types ≤ types_most) × (most ≤ records_most) }
    ensures { result ≡ leb (parts_of (take types counts)) most }
{
    let mut r = 1;
    for i in 0..types {
        if most < r {
            return false;
        }
        r *= usize::from(counts[i]) + 1;
    }
    r <= most
}
