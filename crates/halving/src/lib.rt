// The class with given counts, made of pairs of classes that add up to them: a first half with at most half of the pieces, and a second with the rest.
// Whoever lists outlines class by class calls `grow_class`. It promises every join of such a pair that need be tried. First halves are found by walking
// the parts of the counts, each looked up by what it weighs, or by walking the classes, where these are few.
#![tactic(auto)]

ghost use Rattle.std.specs.Prelude.{◌≡◌, length, take};
ghost use Rattle.rules.specs.Limits.{types_most};
ghost use Rattle.weighing.specs.Weights.{weighed};
ghost use Rattle.growing.specs.Growing.{Comes};
ghost use Rattle.halving.specs.Halves.{whole_with, whole_of, Halving, Within, ClassPairs, PartWeighs, Trying, PartPairs, Sought, PairsBefore};

use outline::Least;
use outlines::ArenaFull;
use parts::Step;
use shapes::{Job, TYPES_MOST};

// So many records are passed in the time that it takes to look a part up.
const DEARER: usize = 3;

// Joins class a with the class of the rest, whose counts weigh so much, if there is one.
fn add_rest(
    job: Job,
    arena: &mut [u8],
    start: usize,
    n: usize,
    a: usize,
    rest: &[u8; TYPES_MOST],
    weight: u64,
    least: Least,
) -> Result<usize, ArenaFull>
    requires { Halving job least arena.old start n a (whole_with job arena.old a rest.now) × (length rest.now ≡ types_most) × (weight ≡ weighed 0 (take job.count rest.now)) }
    ensures { Comes job start (whole_with job arena.old a rest.now) (ClassPairs job least arena.old start (whole_with job arena.old a rest.now) a) arena.old n arena.new result }
{
    match classes::find_weighed(arena, start, rest, job.count as usize, weight) {
        Some(b) => pairing::add_pair(job, arena, start, n, a, b, least),
        None => Ok(n),
    }
}

// Joins class a with the class that it adds up to these counts with.
fn add_class(
    job: Job,
    arena: &mut [u8],
    start: usize,
    n: usize,
    a: usize,
    counts: [u8; TYPES_MOST],
    least: Least,
) -> Result<usize, ArenaFull>
    requires { Within job least arena.old start n a (take job.count counts) }
    ensures { Comes job start (take job.count counts) (ClassPairs job least arena.old start (take job.count counts) a) arena.old n arena.new result }
{
    let types = job.count as usize;
    let rest = arena::rest_at(arena, a, counts, types);
    let weight = weighing::weight_of(rest, types);
    add_rest(job, arena, start, n, a, &rest, weight, least)
}

// By walking to each class before `half`.
fn grow_by_classes(
    job: Job,
    arena: &mut [u8],
    start: usize,
    half: usize,
    counts: [u8; TYPES_MOST],
    least: Least,
) -> Result<usize, ArenaFull>
    requires { Sought job least arena.old start half (take job.count counts) }
    ensures { Comes job start (take job.count counts) (PairsBefore job least arena.old start (take job.count counts) half) arena.old start arena.new result }
{
    let bounds = tally::bounds_of(counts, job.count as usize);
    let mut n = start;
    let mut p = 0;
    // from class to class: each ends where the next begins
    while p < half {
        let a = p;
        p = classes::end_of(arena, a);
        if arena::within_at(arena, a, bounds) {
            n = add_class(job, arena, start, n, a, counts, least)?;
        }
    }
    Ok(n)
}

// Joins the class whose counts are this part, if it stands before `half`, with the class of the rest. What the part weighs, and all of the counts, is given.
fn add_part(
    job: Job,
    arena: &mut [u8],
    start: usize,
    n: usize,
    half: usize,
    part: &[u8; TYPES_MOST],
    rest: &[u8; TYPES_MOST],
    share: u64,
    weight: u64,
    least: Least,
) -> Result<usize, ArenaFull>
    requires { Trying job least arena.old start n half (whole_of job part.now rest.now) × PartWeighs job part.now rest.now share weight }
    ensures { Comes job start (whole_of job part.now rest.now) (PartPairs job least arena.old start half (whole_of job part.now rest.now) (take job.count part.now)) arena.old n arena.new result }
{
    match classes::find_weighed(arena, start, part, job.count as usize, share) {
        None => Ok(n),
        Some(a) if half <= a => Ok(n),
        Some(a) => add_rest(job, arena, start, n, a, rest, weight - share, least),
    }
}

// By walking to each part of the counts, which weigh so much.
fn grow_by_parts(
    job: Job,
    arena: &mut [u8],
    start: usize,
    half: usize,
    counts: [u8; TYPES_MOST],
    weight: u64,
    least: Least,
) -> Result<usize, ArenaFull>
    requires { Sought job least arena.old start half (take job.count counts) × (weight ≡ weighed 0 (take job.count counts)) }
    ensures { Comes job start (take job.count counts) (PairsBefore job least arena.old start (take job.count counts) half) arena.old start arena.new result }
{
    let types = job.count as usize;
    let mut n = start;
    let mut part = [0u8; TYPES_MOST];
    let mut rest = counts;
    let mut step = Step {
        weight: 0,
        spare: tally::pieces_of(counts, types) / 2,
    };
    // until the odometer has no next part; the first is tried before one is asked for
    loop {
        n = add_part(
            job,
            arena,
            start,
            n,
            half,
            &part,
            &rest,
            step.weight,
            weight,
            least,
        )?;
        match parts::next(&mut part, &mut rest, counts, types, step) {
            Some(next) => step = next,
            None => return Ok(n),
        }
    }
}

// The class with these counts, which weigh so much, behind all others: made of pairs whose first half stands before `half`.
// Whether the parts of the counts are walked, or the classes, is a question of time, and not of what comes.
pub fn grow_class(
    job: Job,
    arena: &mut [u8],
    start: usize,
    half: usize,
    counts: [u8; TYPES_MOST],
    weight: u64,
    least: Least,
) -> Result<usize, ArenaFull>
    requires { Sought job least arena.old start half (take job.count counts) × (weight ≡ weighed 0 (take job.count counts)) }
    ensures { Comes job start (take job.count counts) (PairsBefore job least arena.old start (take job.count counts) half) arena.old start arena.new result }
{
    if parts::are_few(counts, job.count as usize, half / DEARER) {
        grow_by_parts(job, arena, start, half, counts, weight, least)
    } else {
        grow_by_classes(job, arena, start, half, counts, least)
    }
}
