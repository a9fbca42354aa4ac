// The best outline of a list, with all its ties: the greatest profit, then the least length, then the least width, then the counts that come first.
// The planner calls `best` on the records it has listed, and `profit` and `pieces` on the one chosen.
#![tactic(auto)]

ghost use Rattle.std.specs.Prelude.{◌≡◌};
ghost use Rattle.rules.specs.Job.{profit, pieces};
ghost use Rattle.outline.specs.Stands.{job_for, outline_of};
ghost use Rattle.choice.specs.Best.{Better, Choosable, Top};
ghost use Rattle.shapes.specs.Handed.{JobInRange};

use outline::Outline;
use shapes::Job;

// "Profit is the sum over its pieces."
pub fn profit(job: Job, o: Outline) -> u64
    requires { JobInRange job }
    ensures { result ≡ profit (job_for job) (outline_of job.count o) }
{
    let mut sum = 0;
    for i in 0..job.count as usize {
        sum += u64::from(o.counts[i]) * job.types[i].profit;
    }
    sum
}

pub fn pieces(job: Job, o: Outline) -> u64
    requires { JobInRange job }
    ensures { result ≡ pieces (outline_of job.count o) }
{
    tally::pieces_of(o.counts, job.count as usize) as u64
}

// a is at least as good as b; where it is not, b is.
fn as_good(job: Job, a: Outline, b: Outline) -> bool
    requires { JobInRange job }
    ensures { Better job a b result }
{
    let types = job.count as usize;
    let one = (profit(job, b), a.length.0, a.width.0, &a.counts[..types]);
    let other = (profit(job, a), b.length.0, b.width.0, &b.counts[..types]);
    one <= other
}

// The place of the best of the first n records.
pub fn best(job: Job, arena: &[u8], n: usize) -> usize
    requires { Choosable job arena.now n }
    ensures { Top job arena.now n result }
{
    let mut top = arena::load(arena, 0).outline;
    let mut at = 0;
    for i in 1..n {
        let o = arena::load(arena, i).outline;
        if as_good(job, o, top) {
            top = o;
            at = i;
        }
    }
    at
}
