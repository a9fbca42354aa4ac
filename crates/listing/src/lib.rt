// All outlines of a job, each once, as records of the lent arena, class by class: a class is all outlines with the same counts.
// The planner calls `list_outlines`. Its contract speaks of outlines and of the arena's records alone, so that what is inside can be exchanged.
// The arena's own classes are the queue: each is followed by those with one piece more, of the last type that it has or of a later one, so that no counts are met twice.
// A class is made of pairs of classes that add up to its counts: that is the crate `halving`.
#![tactic(auto)]

ghost use Rattle.std.specs.Prelude.{◌≡◌, ◌<◌, ◌≤◌, suc, length, take};
ghost use Rattle.rules.specs.Bag.{sum};
ghost use Rattle.rules.specs.Limits.{types_most};
ghost use Rattle.rules.proofs.Classes.{one_more};
ghost use Rattle.rules.specs.Planner.{room_of};
ghost use Rattle.outline.specs.Stands.{LeastOf};
ghost use Rattle.weighing.specs.Weights.{weighed};
ghost use Rattle.classes.specs.Directory.{Directory, Entered};
ghost use Rattle.outlines.specs.Listing.{StartsIn, SingleIn, Lists};
ghost use Rattle.growing.specs.Growing.{Growing};
ghost use Rattle.pairing.specs.Pairs.{key_at};
ghost use Rattle.halving.specs.Halves.{Sought};
ghost use Rattle.listing.specs.Queue.{pieces_at, WholeIn, NextIn, Passing, Passed, Queued, Follows, Target, Source, SinglesTo, SinglesGrow};
ghost use Rattle.shapes.specs.Handed.{JobInRange};

use arena::{How, Record};
use outline::Least;
use outlines::ArenaFull;
use shapes::{Job, TYPES_MOST};

// Of the classes before `passed`, which have at most half of the pieces that classes now get, those that join at all stand before `tried`.
#[derive(Clone, Copy, Debug, PartialEq, Eq)]
pub struct Halves {
    pub passed: usize,
    pub tried: usize,
}

// Goes on to the first class with more than half of `most` pieces. Whether a class joins at all is asked once, here: on a strip hardly any does.
fn half_of(job: Job, arena: &[u8], from: Halves, n: usize, most: usize, least: Least) -> Halves
    requires { Passing job least arena.now n most from }
    ensures { Passed job least arena.now n most result }
{
    let types = job.count as usize;
    let mut passed = from.passed;
    let mut tried = from.tried;
    // from class to class: each ends where the next begins
    while passed < n {
        let at = passed;
        if most < 2 * arena::pieces_at(arena, at, types) {
            return Halves { passed, tried };
        }
        passed = classes::end_of(arena, at);
        if pairing::joins(job, arena, at, least) {
            tried = passed;
        }
    }
    Halves { passed, tried }
}

// Puts both orders over the class that grew from `start` on, and enters it, if there is anything in it.
fn close_class(arena: &mut [u8], start: usize, n: usize, counts: [u8; TYPES_MOST], types: usize)
    requires { Growing types arena.old start n (take types counts) × (n ≤ room_of (length arena.old)) × (types ≤ types_most) }
    ensures { Entered types n arena.old arena.new }
{
    if start < n {
        sorting::order_class(arena, start, n);
        classes::enter(arena, start, n, counts, types);
    }
}

fn new_class(
    job: Job,
    arena: &mut [u8],
    start: usize,
    half: usize,
    counts: [u8; TYPES_MOST],
    weight: u64,
    least: Least,
) -> Result<usize, ArenaFull>
    requires { Target job least arena.old start half (take job.count counts) × Sought job least arena.old start half (take job.count counts) × (weight ≡ weighed 0 (take job.count counts)) }
    ensures { Follows job (WholeIn job (take job.count counts)) (sum (take job.count counts)) arena.old start arena.new result }
{
    let n = halving::grow_class(job, arena, start, half, counts, weight, least)?;
    close_class(arena, start, n, counts, job.count as usize);
    Ok(n)
}

// All outlines with these counts. A build less a piece is a build: where a class with one piece less is not there, no build has them.
fn add_target(
    job: Job,
    arena: &mut [u8],
    n: usize,
    half: usize,
    counts: [u8; TYPES_MOST],
    least: Least,
) -> Result<usize, ArenaFull>
    requires { Target job least arena.old n half (take job.count counts) }
    ensures { Follows job (WholeIn job (take job.count counts)) (sum (take job.count counts)) arena.old n arena.new result }
{
    let types = job.count as usize;
    let weight = weighing::weight_of(counts, types);
    match classes::find_weighed(arena, n, &counts, types, weight) {
        Some(_) => Ok(n),
        None if classes::lacks_less(arena, n, counts, types, weight) => Ok(n),
        None => new_class(job, arena, n, half, counts, weight, least),
    }
}

// All outlines with one piece more than class p has, of type t, counted from 0.
fn add_more(
    job: Job,
    arena: &mut [u8],
    n: usize,
    half: usize,
    p: usize,
    t: usize,
    least: Least,
) -> Result<usize, ArenaFull>
    requires { Source job least arena.old n half p × (t < job.count) }
    ensures { Follows job (WholeIn job (one_more t (key_at job arena.old p))) (suc (pieces_at job arena.old p)) arena.old n arena.new result }
{
    if job.types[t].demand <= u64::from(arena::count_at(arena, p, t)) {
        return Ok(n);
    }
    let counts = arena::more_at(arena, p, t, job.count as usize);
    add_target(job, arena, n, half, counts, least)
}

// All outlines with one piece more than class p has, of the last type that it has or of a later one.
fn add_next(
    job: Job,
    arena: &mut [u8],
    first: usize,
    half: usize,
    p: usize,
    least: Least,
) -> Result<usize, ArenaFull>
    requires { Source job least arena.old first half p }
    ensures { Follows job (NextIn job (key_at job arena.old p)) (suc (pieces_at job arena.old p)) arena.old first arena.new result }
{
    let mut n = first;
    for t in (0..job.count as usize).rev() {
        n = add_more(job, arena, n, half, p, t, least)?;
        if arena::count_at(arena, p, t) > 0 {
            return Ok(n);
        }
    }
    Ok(n)
}

// The list grows while it is walked.
fn list_joins(job: Job, arena: &mut [u8], singles: usize, least: Least) -> Result<usize, ArenaFull>
    requires { Queued job arena.old singles 0 × LeastOf job least }
    ensures { Lists job arena.old arena.new result }
{
    let types = job.count as usize;
    let mut n = singles;
    let mut halves = Halves {
        passed: 0,
        tried: 0,
    };
    let mut p = 0;
    // from class to class, while more come behind them
    while p < n {
        let at = p;
        let most = arena::pieces_at(arena, at, types) + 1;
        halves = half_of(job, arena, halves, n, most, least);
        p = classes::end_of(arena, at);
        n = add_next(job, arena, n, halves.tried, at, least)?;
    }
    Ok(n)
}

// Adds the piece of type t, counted from 0, if it fits: a class of its own.
fn add_single(job: Job, arena: &mut [u8], n: usize, t: usize) -> Result<usize, ArenaFull>
    requires { SinglesTo job arena.old n t × (t < job.count) }
    ensures { SinglesGrow job (SingleIn job t) (suc t) arena.old n arena.new result }
{
    let o = outline::single(job, t);
    if !o.fits(job) {
        return Ok(n);
    }
    let build = Record {
        outline: o,
        how: How::Piece(t + 1),
    };
    let m = growing::add(job, arena, n, n, build)?;
    close_class(arena, n, m, o.counts, job.count as usize);
    Ok(m)
}

fn list_singles(job: Job, arena: &mut [u8]) -> Result<usize, ArenaFull>
    requires { JobInRange job × Directory job.count arena.old 0 }
    ensures { SinglesGrow job (StartsIn job) job.count arena.old 0 arena.new result }
{
    let mut n = 0;
    for t in 0..job.count as usize {
        n = add_single(job, arena, n, t)?;
    }
    Ok(n)
}

pub fn list_outlines(job: Job, arena: &mut [u8]) -> Result<usize, ArenaFull>
    requires { JobInRange job }
    ensures { Lists job arena.old arena.new result }
{
    arena::zero(arena);
    let singles = list_singles(job, arena)?;
    list_joins(job, arena, singles, outline::least_sizes(job))
}
