// The planner on texts: from a job text, or a program's input, to the planner's answer, in a lent arena and a lent plan buffer.
// The program `plan` and the static library call it. It promises the refusal table's answer on every sequence of bytes:
// 11 for an input that is too long, then 1, 2, 3, 4, 5, or the best plan; and what stands in arena and plan buffer afterwards.
#![tactic(auto)]

ghost use Rattle.rules.specs.Answers.{PlanText, PlanInput};
ghost use Rattle.shapes.specs.Answer.{plan_answer};

use planning::plan_job;
use shapes::{INPUT_MOST, Plan, Refusal};
use texts::read_job;

pub fn plan_text(text: &[u8], arena: &mut [u8], buffer: &mut [u64]) -> Result<Plan, Refusal>
    ensures { PlanText arena.old buffer.old text.now (record { answer = plan_answer result; arena = arena.new; buffer = buffer.new }) }
{
    let job = read_job(text)?;
    plan_job(job, arena, buffer)
}

// A program's input may be too long.
pub fn plan_input(input: &[u8], arena: &mut [u8], buffer: &mut [u64]) -> Result<Plan, Refusal>
    ensures { PlanInput arena.old buffer.old input.now (record { answer = plan_answer result; arena = arena.new; buffer = buffer.new }) }
{
    if INPUT_MOST < input.len() {
        return Err(Refusal::InputTooLong);
    }
    plan_text(input, arena, buffer)
}
