// The check of a job handed over as numbers of any size: refusal 2 and its item.
// The planner's and the checker's entries ask it before anything else, so that behind it every number is in range.
// It promises the number of the first item out of range, numbered as in a text of the same job (the sheet count stands as 1, item 0).
#![tactic(auto)]

ghost use Rattle.std.specs.Prelude.{◌≡◌, not, ◌&&◌, map, ◌≤◌, leb};
ghost use Rattle.rules.specs.Limits.{types_most};
ghost use Rattle.rules.specs.Items.{out_of_range};
ghost use Rattle.shapes.specs.Handed.{items_of, type_of};
ghost use Rattle.jobs.specs.Item.{item_place, types_out, LineOut};

use shapes::{DEMAND_MOST, Job, KERF_MOST, PROFIT_MOST, PieceType, SIZE_MOST, TYPES_MOST};

// A number outside its range, both ends of which belong to it.
fn outside(v: u64, low: u64, high: u64) -> bool
    ensures { result ≡ not (leb low v && leb v high) }
{
    !(low..=high).contains(&v)
}

// The four numbers of a piece line, whose first is item `at`.
fn line_out(t: PieceType, at: usize) -> Option<usize>
    requires { at ≤ 49 }
    ensures { LineOut at (type_of t) result }
{
    if outside(t.length, 1, SIZE_MOST) {
        return Some(at);
    }
    if outside(t.width, 1, SIZE_MOST) {
        return Some(at + 1);
    }
    if outside(t.profit, 1, PROFIT_MOST) {
        return Some(at + 2);
    }
    if outside(t.demand, 1, DEMAND_MOST) {
        return Some(at + 3);
    }
    None
}

// The piece lines up to the count; the first of them begins with item 5.
fn types_out(types: [PieceType; TYPES_MOST], count: usize) -> Option<usize>
    requires { count ≤ types_most }
    ensures { item_place result ≡ types_out 5 count (map type_of types) }
{
    for i in 0..count {
        if let Some(item) = line_out(types[i], 5 + 4 * i) {
            return Some(item);
        }
    }
    None
}

// The first item out of range, if there is one.
pub fn first_out_of_range(job: Job) -> Option<usize>
    ensures { item_place result ≡ out_of_range (items_of job) }
{
    if outside(job.length, 1, SIZE_MOST) {
        return Some(1);
    }
    if outside(job.width, 1, SIZE_MOST) {
        return Some(2);
    }
    if outside(job.kerf, 0, KERF_MOST) {
        return Some(3);
    }
    let count = job.count;
    if outside(count, 1, TYPES_MOST as u64) {
        return Some(4);
    }
    types_out(job.types, count as usize)
}
