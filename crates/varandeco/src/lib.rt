// The static library: the planner and the checker for callers in C, Rust and firmware. Slices and numbers only, no heap, no globals.
// `include/varandeco.h` describes the four functions for their callers. Each takes any slices, empty ones too, and promises the refusal table's answer,
// what stands in every lent slice afterwards, and that the answer's numbers were handed out as far as the lent answer has room.
#![tactic(auto)]

ghost use Rattle.rules.specs.Answers.{PlanNumbers, PlanText, CheckNumbers, CheckText};
ghost use Rattle.shapes.specs.Answer.{plan_numbers, check_numbers};
ghost use Rattle.handing.specs.Reply.{Reply};
ghost use Rattle.handing.specs.Slice.{slice_items};

use checking::check_list;
use checktext::check_text;
use handing::{job_of, reply_check, reply_plan};
use planning::plan_job;
use plantext::plan_text;

// Plans a job handed over as numbers.
#[unsafe(no_mangle)]
pub extern "C" fn varandeco_plan_numbers(
    job: &[u64],
    arena: &mut [u8],
    plan: &mut [u64],
    answer: &mut [u64],
) -> u64
    ensures { Reply plan_numbers (λ a. PlanNumbers arena.old plan.old (slice_items job.now) (record { answer = a; arena = arena.new; buffer = plan.new })) answer.old answer.new result }
{
    let v = plan_job(job_of(job), arena, plan);
    reply_plan(v, answer)
}

// Plans a job text.
#[unsafe(no_mangle)]
pub extern "C" fn varandeco_plan_text(
    text: &[u8],
    arena: &mut [u8],
    plan: &mut [u64],
    answer: &mut [u64],
) -> u64
    ensures { Reply plan_numbers (λ a. PlanText arena.old plan.old text.now (record { answer = a; arena = arena.new; buffer = plan.new })) answer.old answer.new result }
{
    let v = plan_text(text, arena, plan);
    reply_plan(v, answer)
}

// Checks a list of flat numbers for a job handed over as numbers.
#[unsafe(no_mangle)]
pub extern "C" fn varandeco_check_numbers(job: &[u64], list: &[u64], answer: &mut [u64]) -> u64
    ensures { Reply check_numbers (CheckNumbers list.now (slice_items job.now)) answer.old answer.new result }
{
    let v = check_list(job_of(job), list);
    reply_check(v, answer)
}

// Checks a plan text.
#[unsafe(no_mangle)]
pub extern "C" fn varandeco_check_text(text: &[u8], answer: &mut [u64]) -> u64
    ensures { Reply check_numbers (CheckText text.now) answer.old answer.new result }
{
    let v = check_text(text);
    reply_check(v, answer)
}
