// The planner: the best plan of a job in a lent arena and a lent plan buffer, or the exact refusal.
// `plan_job` takes any numbers, and the answers to texts and of the program rest on it. Its contract determines the answer, and every byte and
// number of both buffers, on every input; which placements of the best outline's counts it writes within that outline is left open.
#![tactic(auto)]

ghost use Rattle.rules.specs.Answers.{PlanNumbers};
ghost use Rattle.shapes.specs.Answer.{plan_answer};
ghost use Rattle.shapes.specs.Handed.{items_of, JobInRange};
ghost use Rattle.std.specs.Prelude.{length};
ghost use Rattle.outlines.specs.Listing.{Told};
ghost use Rattle.planning.specs.Plans.{SomeFits, Fitting, Choosing, Answered, Left};

use shapes::{Job, Plan, Refusal};

// Some type fits alone.
fn some_fits(job: Job) -> bool
    requires { JobInRange job }
    ensures { Told (SomeFits job) result }
{
    for t in 0..job.count as usize {
        if outline::single(job, t).fits(job) {
            return true;
        }
    }
    false
}

// All n outlines are listed: chooses the best, unfolds it and puts its placements in order.
fn plan_listed(job: Job, arena: &[u8], n: usize, buffer: &mut [u64]) -> Result<Plan, Refusal>
    requires { Choosing job arena.now n }
    ensures { Answered job (length arena.now) buffer.old buffer.new result }
{
    let at = choice::best(job, arena, n);
    let o = arena::load(arena, at).outline;
    let pieces = choice::pieces(job, o);
    let profit = choice::profit(job, o);
    if (shapes::placements_in(buffer.len()) as u64) < pieces {
        return Err(Refusal::BufferShort);
    }
    let end = unfolding::lay(arena, at, 0, 0, buffer);
    order::order(&mut buffer[..end], pieces as usize);
    Ok(Plan {
        profit,
        length: o.length.0,
        width: o.width.0,
        pieces,
        outlines: n as u64,
    })
}

// Some type fits: lists all outlines, if the arena has room for them.
fn plan_fitting(job: Job, arena: &mut [u8], buffer: &mut [u64]) -> Result<Plan, Refusal>
    requires { Fitting job }
    ensures { Answered job (length arena.old) buffer.old buffer.new result }
{
    let n = listing::list_outlines(job, arena)?;
    plan_listed(job, arena, n, buffer)
}

// Plans a job whose numbers are in range; what was written into the arena is wiped.
fn plan_in_range(job: Job, arena: &mut [u8], buffer: &mut [u64]) -> Result<Plan, Refusal>
    requires { JobInRange job }
    ensures { Left job arena.old buffer.old (record { answer = plan_answer result; arena = arena.new; buffer = buffer.new }) }
{
    if !some_fits(job) {
        return Err(Refusal::NothingFits);
    }
    let answer = plan_fitting(job, arena, buffer);
    arena::zero(arena);
    answer
}

// Plans a job handed over as numbers.
pub fn plan_job(job: Job, arena: &mut [u8], buffer: &mut [u64]) -> Result<Plan, Refusal>
    ensures { PlanNumbers arena.old buffer.old (items_of job) (record { answer = plan_answer result; arena = arena.new; buffer = buffer.new }) }
{
    match jobs::first_out_of_range(job) {
        Some(item) => Err(Refusal::OutOfRange(item)),
        None => plan_in_range(job, arena, buffer),
    }
}
