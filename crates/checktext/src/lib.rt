// The checker on texts: from a plan text, or a program's input, to the checker's answer.
// The program `check` and the static library call it. It promises the refusal table's answer on every sequence of bytes:
// 11 for an input that is too long, then 1, 2, 6, 7, 8, 9, 10, or what the list earns.
#![tactic(auto)]

ghost use Rattle.rules.specs.Answers.{CheckText, CheckInput};
ghost use Rattle.shapes.specs.Answer.{check_answer};

use checking::check_list;
use shapes::{Drawing, INPUT_MOST, PLACEMENT_NUMBERS, PLAN_NUMBERS, Refusal};
use texts::read_plan;

pub fn check_text(text: &[u8]) -> Result<Drawing, Refusal>
    ensures { CheckText text.now (check_answer result) }
{
    let mut numbers = [0u64; PLAN_NUMBERS];
    let read = read_plan(text, &mut numbers)?;
    let end = PLACEMENT_NUMBERS * read.placements;
    check_list(read.job, &numbers[..end])
}

// A program's input may be too long.
pub fn check_input(input: &[u8]) -> Result<Drawing, Refusal>
    ensures { CheckInput input.now (check_answer result) }
{
    if INPUT_MOST < input.len() {
        return Err(Refusal::InputTooLong);
    }
    check_text(input)
}
