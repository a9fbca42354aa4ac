// A class of outlines that grows at the arena's end: builds with the same counts come behind its first record, each once.
// Whoever lists outlines class by class calls this crate. An outline of the class can only stand in the class, so that nothing else is searched.
#![tactic(auto)]

ghost use Rattle.std.specs.Prelude.{◌≡◌, true, false};
ghost use Rattle.seeking.specs.Opened.{Seekable};
ghost use Rattle.outline.specs.Stands.{outline_of, way_of};
ghost use Rattle.outlines.specs.Listing.{Told, Holds, OutlineIn, JoinIn};
ghost use Rattle.growing.specs.Growing.{Absent, Comes, class_of, Growable, pair_of, Pairable, Pairing, HasSizes, JoinSized};
ghost use Rattle.growing.specs.Rows.{Rowable, RowWith, Rowsable, RowsWith, Facing, TooLarge};

use arena::{How, Record};
use outline::{Outline, Way};
use outlines::ArenaFull;
use shapes::Job;

// A record of the class has these sizes.
fn has_sizes(arena: &[u8], start: usize, n: usize, long: u64, wide: u64) -> bool
    requires { Seekable arena.now start n long wide }
    ensures { HasSizes arena.now start n long wide result }
{
    seeking::find_size(arena, start, n, long, wide).is_some()
}

// The outline is one of the first n records', of which none before `start` has its counts, and all from there on have: they are told apart by their sizes.
fn holds_from(arena: &[u8], start: usize, n: usize, o: Outline, types: usize) -> bool
    requires { Absent types arena.now start n o }
    ensures { Told (Holds types arena.now n (outline_of types o)) result }
{
    has_sizes(arena, start, n, o.length.0, o.width.0)
}

// Adds a build to the class from `start` on, unless it is there.
pub fn add(
    job: Job,
    arena: &mut [u8],
    start: usize,
    n: usize,
    build: Record,
) -> Result<usize, ArenaFull>
    requires { Growable job arena.old start n build }
    ensures { Comes job start (class_of job build) (OutlineIn job build) arena.old n arena.new result }
{
    let types = job.count as usize;
    if holds_from(arena, start, n, build.outline, types) {
        return Ok(n);
    }
    if n == arena::room(arena.len()) {
        return Err(ArenaFull);
    }
    seeking::append(arena, start, n, build);
    Ok(n + 1)
}

// A record of the class has the sizes of the join of records i and q: most joins are there already, and need not be made to be known.
fn join_there(arena: &[u8], start: usize, n: usize, i: usize, q: usize, way: Way) -> bool
    requires { Pairing arena.now start n i q }
    ensures { result ≡ true → JoinSized arena.now start n (way_of way) i q }
{
    let a = arena::size_at(arena, i, 0);
    let b = arena::size_at(arena, q, 0);
    let c = arena::size_at(arena, i, 1);
    let d = arena::size_at(arena, q, 1);
    match way {
        Way::Beside => has_sizes(arena, start, n, a + b, c.max(d)),
        Way::Above => has_sizes(arena, start, n, a.max(b), c + d),
    }
}

// Adds the join of records i and q, whose counts add up to the class's, if it fits.
pub fn add_join(
    job: Job,
    arena: &mut [u8],
    start: usize,
    n: usize,
    i: usize,
    q: usize,
    way: Way,
) -> Result<usize, ArenaFull>
    requires { Pairable job arena.old start n i q }
    ensures { Comes job start (pair_of job arena.old i q) (JoinIn job (way_of way) i q) arena.old n arena.new result }
{
    if join_there(arena, start, n, i, q, way) {
        return Ok(n);
    }
    let a = arena::load(arena, i);
    let b = arena::load(arena, q);
    let o = a.outline.joined(b.outline, way);
    if o.fits(job) {
        return add(
            job,
            arena,
            start,
            n,
            Record {
                outline: o,
                how: How::Joined(way, i, q),
            },
        );
    }
    Ok(n)
}

// Adds the joins that fit of record i with all records of class b, whose counts add up to the class's.
// The records of b come in order of their size in the way, so that the row ends at the first that is too large.
pub fn add_row(
    job: Job,
    arena: &mut [u8],
    start: usize,
    first: usize,
    i: usize,
    b: usize,
    way: Way,
) -> Result<usize, ArenaFull>
    requires { Rowable job arena.old start first i b }
    ensures { Comes job start (pair_of job arena.old i b) (RowWith job (way_of way) arena.old i b) arena.old first arena.new result }
{
    let w = way.number();
    let side = way.side(job);
    let end = classes::end_of(arena, b);
    let size = arena::size_at(arena, i, w);
    let mut n = first;
    for k in b..end {
        let q = arena::link_at(arena, k, w);
        if side < size + arena::size_at(arena, q, w) {
            return Ok(n);
        }
        n = add_join(job, arena, start, n, i, q, way)?;
    }
    Ok(n)
}

// Adds the joins that fit of all records of class a with all records of class b, whose counts add up to the class's.
// The records of a come in order too: once one is too large with the smallest of b, so are all behind it.
// One walk for this and `add_row` would take its step as a closure whose contract says `Rowable` or `Rowsable` anew of each arena between: longer than both loops.
pub fn add_rows(
    job: Job,
    arena: &mut [u8],
    start: usize,
    first: usize,
    a: usize,
    b: usize,
    way: Way,
) -> Result<usize, ArenaFull>
    requires { Rowsable job arena.old start first a b }
    ensures { Comes job start (pair_of job arena.old a b) (RowsWith job (way_of way) arena.old a b) arena.old first arena.new result }
{
    let w = way.number();
    let side = way.side(job);
    let end = classes::end_of(arena, a);
    let smallest = arena::link_at(arena, b, w);
    let least = arena::size_at(arena, smallest, w);
    let mut n = first;
    for k in a..end {
        let i = arena::link_at(arena, k, w);
        if side < least + arena::size_at(arena, i, w) {
            return Ok(n);
        }
        n = add_row(job, arena, start, n, i, b, way)?;
    }
    Ok(n)
}

// The smallest of class a and the smallest of class b fit behind each other in this way.
pub fn smallest_fit(job: Job, arena: &[u8], a: usize, b: usize, way: Way) -> bool
    requires { Facing job arena.now a b }
    ensures { result ≡ false → TooLarge job way arena.now a b }
{
    let w = way.number();
    let x = arena::size_at(arena, arena::link_at(arena, a, w), w);
    let y = arena::size_at(arena, arena::link_at(arena, b, w), w);
    x + y <= way.side(job)
}
