// Placement lists as flat numbers of any length, for a job in range: the checker's tests 6, 7 and 8, and what the pieces earn.
// The checker calls the tests one after the other, and each may count on what those before it did not find.
// Every test names the first place at which it holds, as the rules' `first_place` does. The list is only read.
#![tactic(auto)]

ghost use Rattle.std.specs.Prelude.{◌≡◌, not, ◌||◌, ◌+◌, ◌<◌, length, eqb, leb, ltb};
ghost use Rattle.rules.specs.Numbers.{entries, job_of, lying};
ghost use Rattle.rules.specs.Placed.{worth};
ghost use Rattle.rules.specs.Planner.{slots_of};
ghost use Rattle.rules.specs.Checker.{not_a_type, off_sheet, above_demand};
ghost use Rattle.shapes.specs.Handed.{entry_of, numbers_of, JobInRange};
ghost use Rattle.placing.specs.Place.{entry_at, HoldsOf, FirstAt, AsksAt, FirstOf, OfJob, Typed, Demanded, TypeOf};

use shapes::{Job, PLACEMENT_NUMBERS, PieceType, Placement, TYPES_MOST, placements_in};

// A list is flat numbers, as `varandeco_check_numbers` of the C interface is lent it.
pub fn entry_at(list: &[u64], i: usize) -> Placement
    requires { i < slots_of (length list.now) }
    ensures { entry_of result ≡ entry_at list.now i }
{
    let at = i * PLACEMENT_NUMBERS;
    Placement {
        kind: list[at],
        x: list[at + 1],
        y: list[at + 2],
    }
}

// The piece type of a number from 1 to the count.
pub fn type_of(job: Job, kind: u64) -> PieceType
    requires { OfJob job kind }
    ensures { TypeOf job kind result }
{
    let at = (kind - 1) as usize;
    job.types[at]
}

// The first place of a list at which a test holds that does not look at the placements before.
fn first_place<F: Fn(Placement) -> bool>(list: &[u64], test: F) -> Option<usize>
    requires { AsksAt list.now (F.pre test) }
    ensures { FirstOf list.now (F.post test) result }
{
    for i in 0..placements_in(list.len()) {
        if test(entry_at(list, i)) {
            return Some(i);
        }
    }
    None
}

pub fn not_a_type(types: u64, kind: u64) -> bool
    ensures { result ≡ (eqb kind 0 || ltb types kind) }
{
    kind == 0 || types < kind
}

// 6: "a type not in 1 to n".
pub fn first_not_a_type(job: Job, list: &[u64]) -> Option<usize>
    requires { JobInRange job }
    ensures { FirstAt (not_a_type (numbers_of job)) list.now result }
{
    first_place(list, |p| not_a_type(job.count, p.kind))
}

// A size at a place goes beyond a line; the sum of the two may be more than a number holds.
fn beyond(at: u64, size: u64, line: u64) -> bool
    ensures { result ≡ not (leb (at + size) line) }
{
    line < size || line - size < at
}

pub fn off_sheet(job: Job, p: Placement) -> bool
    requires { OfJob job p.kind }
    ensures { HoldsOf (off_sheet (numbers_of job)) p result }
{
    let t = type_of(job, p.kind);
    beyond(p.x, t.length + job.kerf, job.length) || beyond(p.y, t.width + job.kerf, job.width)
}

// 7: "a piece not wholly in the sheet".
pub fn first_off_sheet(job: Job, list: &[u64]) -> Option<usize>
    requires { Typed job list.now }
    ensures { FirstAt (off_sheet (numbers_of job)) list.now result }
{
    first_place(
        list,
        |p|
            requires { OfJob job p.kind }
            ensures { HoldsOf (off_sheet (numbers_of job)) p result }
        { off_sheet(job, p) },
    )
}

// 8: "a piece that takes its type above the demand". No count goes above a demand, however long the list is.
pub fn first_above_demand(job: Job, list: &[u64]) -> Option<usize>
    requires { Typed job list.now }
    ensures { FirstAt (above_demand (numbers_of job)) list.now result }
{
    let mut counts = [0u64; TYPES_MOST];
    // no `first_place`: what came before is counted
    for i in 0..placements_in(list.len()) {
        let p = entry_at(list, i);
        let t = type_of(job, p.kind);
        let kind = (p.kind - 1) as usize;
        if t.demand <= counts[kind] {
            return Some(i);
        }
        counts[kind] += 1;
    }
    None
}

// What the pieces of a list earn that the tests let pass.
pub fn profit_of(job: Job, list: &[u64]) -> u64
    requires { Demanded job list.now }
    ensures { result ≡ worth (job_of (numbers_of job)) (lying (numbers_of job) (entries list.now)) }
{
    let mut total = 0;
    for i in (0..placements_in(list.len())).rev() {
        total += type_of(job, entry_at(list, i).kind).profit;
    }
    total
}
