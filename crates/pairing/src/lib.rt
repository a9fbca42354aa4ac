// Two classes joined in the ways in which they need be: the joins come into the class that grows.
// Whoever makes a class of pairs of classes calls this crate. It promises every join of a record that may be a first half with a record of the other class;
// that no other need be tried is a theorem of the rules, and here it is told by sizes.
#![tactic(auto)]

ghost use Rattle.std.specs.Prelude.{◌≡◌, false};
ghost use Rattle.rules.specs.Box.{along, across};
ghost use Rattle.outline.specs.Stands.{way_of};
ghost use Rattle.growing.specs.Growing.{Comes, pair_of};
ghost use Rattle.pairing.specs.Pairs.{Unable, Idle, Standing, TwoClasses, Apart, PairReady, WayIn, PairIn};

use outline::{Least, Way};
use outlines::ArenaFull;
use shapes::Job;

// False if no record of class a ends in a join in the other way, so that in this way each is another's first half.
fn may_begin(job: Job, arena: &[u8], a: usize, least: Least, way: Way) -> bool
    requires { Standing job least arena.now a }
    ensures { result ≡ false → Unable job least arena.now a (way_of way) }
{
    let turned = way.turned();
    let v = turned.number();
    let last = classes::end_of(arena, a) - 1;
    let largest = arena::size_at(arena, arena::link_at(arena, last, v), v);
    2 * least.in_way(turned) <= largest || arena::pieces_at(arena, a, job.count as usize) == 1
}

// False if nothing of class a need be tried as a first half in this way: the sheet has no room for a piece behind its smallest, or each is another's.
fn can_join(job: Job, arena: &[u8], a: usize, least: Least, way: Way) -> bool
    requires { Standing job least arena.now a }
    ensures { result ≡ false → Idle job least arena.now a (way_of way) }
{
    let w = way.number();
    let smallest = arena::size_at(arena, arena::link_at(arena, a, w), w);
    smallest + least.in_way(way) <= way.side(job) && may_begin(job, arena, a, least, way)
}

// False if nothing of class a need be tried as a first half.
pub fn joins(job: Job, arena: &[u8], a: usize, least: Least) -> bool
    requires { Standing job least arena.now a }
    ensures { result ≡ false → Idle job least arena.now a along × Idle job least arena.now a across }
{
    can_join(job, arena, a, least, Way::Beside) || can_join(job, arena, a, least, Way::Above)
}

// False if no record of class a need be tried with one of class b in this way. Most pairs are too large, which is told before anything else.
fn may_join(job: Job, arena: &[u8], a: usize, b: usize, least: Least, way: Way) -> bool
    requires { TwoClasses job least arena.now a b }
    ensures { result ≡ false → Apart job least arena.now a b (way_of way) }
{
    growing::smallest_fit(job, arena, a, b, way) && may_begin(job, arena, a, least, way)
}

// Joins classes a and b, whose counts add up to the class's, in this way, if any need be tried in it.
fn add_way(
    job: Job,
    arena: &mut [u8],
    start: usize,
    n: usize,
    a: usize,
    b: usize,
    least: Least,
    way: Way,
) -> Result<usize, ArenaFull>
    requires { PairReady job least arena.old start n a b }
    ensures { Comes job start (pair_of job arena.old a b) (WayIn job least arena.old a b (way_of way)) arena.old n arena.new result }
{
    if may_join(job, arena, a, b, least, way) {
        return growing::add_rows(job, arena, start, n, a, b, way);
    }
    Ok(n)
}

// Joins classes a and b, whose counts add up to the class's, in the ways that need be tried.
pub fn add_pair(
    job: Job,
    arena: &mut [u8],
    start: usize,
    n: usize,
    a: usize,
    b: usize,
    least: Least,
) -> Result<usize, ArenaFull>
    requires { PairReady job least arena.old start n a b }
    ensures { Comes job start (pair_of job arena.old a b) (PairIn job least arena.old a b) arena.old n arena.new result }
{
    let beside = add_way(job, arena, start, n, a, b, least, Way::Beside)?;
    add_way(job, arena, start, beside, a, b, least, Way::Above)
}
