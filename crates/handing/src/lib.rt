// Jobs and answers as slices of numbers: the job that a lent slice holds, and an answer handed out into another one, as far as it has room.
// The static library calls this crate. A slice of any length holds a job, and any slice can be lent for an answer.
#![tactic(auto)]

ghost use Rattle.std.specs.Prelude.{◌≡◌, ◌+◌, ◌≤◌, min, get_or, length};
ghost use Rattle.shapes.specs.Answer.{plan_answer, check_answer, plan_numbers, check_numbers};
ghost use Rattle.shapes.specs.Handed.{type_of, items_of};
ghost use Rattle.handing.specs.Reply.{handed_out, Reply};
ghost use Rattle.handing.specs.Slice.{type_at, slice_items};

use shapes::{Drawing, Job, NO_TYPE, PieceType, Plan, Refusal, TYPES_MOST};

// Where the types of a job begin in a slice of its numbers, and the numbers of each.
const TYPES_AT: usize = 4;

const TYPE_NUMBERS: usize = 4;

// Hands out as many of the numbers as the answer has room for.
fn hand_out(numbers: &[u64], answer: &mut [u64])
    ensures { answer.new ≡ handed_out numbers.now answer.old }
{
    let end = numbers.len().min(answer.len());
    answer[..end].copy_from_slice(&numbers[..end]);
}

// Hands out the numbers that "plan" prints, and answers the first of them.
pub fn reply_plan(v: Result<Plan, Refusal>, answer: &mut [u64]) -> u64
    ensures { Reply plan_numbers (λ a. a ≡ plan_answer v) answer.old answer.new result }
{
    let line = shapes::plan_line(v);
    hand_out(&line.numbers(), answer);
    line.number
}

// The same of "check".
pub fn reply_check(v: Result<Drawing, Refusal>, answer: &mut [u64]) -> u64
    ensures { Reply check_numbers (λ a. a ≡ check_answer v) answer.old answer.new result }
{
    let line = shapes::check_line(v);
    hand_out(&line.numbers(), answer);
    line.number
}

// A missing number counts as 0, which is out of range wherever the job's count says that a number is to be read, but for a kerf.
fn number_at(numbers: &[u64], i: usize) -> u64
    ensures { result ≡ get_or numbers.now i 0 }
{
    numbers.get(i).copied().unwrap_or(0)
}

fn type_at(numbers: &[u64], i: usize) -> PieceType
    requires { i ≤ 48 }
    ensures { type_of result ≡ type_at numbers.now i }
{
    PieceType {
        length: number_at(numbers, i),
        width: number_at(numbers, i + 1),
        profit: number_at(numbers, i + 2),
        demand: number_at(numbers, i + 3),
    }
}

// The job that a slice of numbers holds.
pub fn job_of(numbers: &[u64]) -> Job
    ensures { items_of result ≡ slice_items numbers.now }
{
    let mut types = [NO_TYPE; TYPES_MOST];
    for t in 0..TYPES_MOST {
        types[t] = type_at(numbers, TYPES_AT + TYPE_NUMBERS * t);
    }
    Job {
        length: number_at(numbers, 0),
        width: number_at(numbers, 1),
        kerf: number_at(numbers, 2),
        count: number_at(numbers, 3),
        types,
    }
}
