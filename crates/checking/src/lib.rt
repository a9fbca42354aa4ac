// The checker: it accepts a drawn list exactly if its pieces keep to the job's sheet and demands and some sequence of through cuts parts them all.
// `check_list` takes a job of any numbers and a list of flat numbers of any length, which is only read.
// It promises the refusal table's answer: 2, then 6, 7, 8, 9, 10, each over the whole list before the next, or what the list earns.
#![tactic(auto)]

ghost use Rattle.rules.specs.Numbers.{entries};
ghost use Rattle.rules.specs.Checker.{Checked};
ghost use Rattle.rules.specs.Answers.{CheckNumbers};
ghost use Rattle.shapes.specs.Answer.{check_answer};
ghost use Rattle.shapes.specs.Handed.{items_of, numbers_of, JobInRange};
ghost use Rattle.laying.specs.Laid.{Ready};

use jobs::first_out_of_range;
use laying::{count_up, first_overlap, lay_boxes};
use parting::{Lines, can_be_parted};
use placing::{first_above_demand, first_not_a_type, first_off_sheet, profit_of};
use shapes::{Drawing, Job, PIECES_MOST, Refusal, placements_in};

// 9 and 10, and what is accepted: a list that tests 6 to 8 let pass is short enough for local boxes and a local order.
fn check_laid(job: Job, list: &[u64]) -> Result<Drawing, Refusal>
    requires { Ready job list.now }
    ensures { Checked (numbers_of job) (entries list.now) (check_answer result) }
{
    let mut boxes = [Lines::default(); PIECES_MOST];
    let mut order = [0u16; PIECES_MOST];
    let count = placements_in(list.len());
    lay_boxes(job, list, &mut boxes);
    if let Some(i) = first_overlap(&boxes, count) {
        return Err(Refusal::Overlaps(i));
    }
    count_up(&mut order);
    if !can_be_parted(&boxes, &mut order[..count]) {
        return Err(Refusal::NotParted);
    }
    Ok(Drawing {
        profit: profit_of(job, list),
        pieces: count as u64,
    })
}

fn check_in_range(job: Job, list: &[u64]) -> Result<Drawing, Refusal>
    requires { JobInRange job }
    ensures { Checked (numbers_of job) (entries list.now) (check_answer result) }
{
    if let Some(i) = first_not_a_type(job, list) {
        return Err(Refusal::NotAType(i));
    }
    if let Some(i) = first_off_sheet(job, list) {
        return Err(Refusal::OffSheet(i));
    }
    if let Some(i) = first_above_demand(job, list) {
        return Err(Refusal::AboveDemand(i));
    }
    check_laid(job, list)
}

// The checker's answer to a list of flat numbers, three to a placement; a rest of one or two numbers is lost.
pub fn check_list(job: Job, list: &[u64]) -> Result<Drawing, Refusal>
    ensures { CheckNumbers list.now (items_of job) (check_answer result) }
{
    if let Some(item) = first_out_of_range(job) {
        return Err(Refusal::OutOfRange(item));
    }
    check_in_range(job, list)
}
