// The readers of job texts and plan texts, on every sequence of bytes.
// The text entries of planner and checker call them. They promise refusal 1 with its place, refusal 2 with the first item out of range,
// or the job, and of a plan text its placements as flat numbers in the lent buffer. A text is read to its end before a range is told.
#![tactic(auto)]

ghost use Rattle.std.specs.Prelude.{◌≤◌, length};
ghost use Rattle.rules.specs.Limits.{types_most, pieces_most};
ghost use Rattle.reading.specs.Placements.{numbers_of_placements};
ghost use Rattle.texts.specs.Told.{Ends, Judged, JobRead, job_answer};
ghost use Rattle.texts.specs.Plan.{PlanKept, PlanRead, plan_left};

use reader::Reader;
use reading::Placements;
use shapes::{Job, PIECES_MOST, PLACEMENT_NUMBERS, Refusal};

// Nothing stands behind what was read.
fn at_end(r: &Reader<'_>) -> Result<(), Refusal>
    ensures { Ends r.now.text.now r.now.at result }
{
    if r.at < r.text.len() {
        return Err(Refusal::NotInGrammar(r.at));
    }
    Ok(())
}

// The job of a text's first two sections, if all its numbers are in range. Another sheet count than 1 is item 0.
fn judge(job: Option<Job>) -> Result<Job, Refusal>
    ensures { Judged job result }
{
    let Some(job) = job else {
        return Err(Refusal::OutOfRange(0));
    };
    match jobs::first_out_of_range(job) {
        Some(item) => Err(Refusal::OutOfRange(item)),
        None => Ok(job),
    }
}

pub fn read_job(text: &[u8]) -> Result<Job, Refusal>
    ensures { JobRead text.now (job_answer result) }
{
    let mut r = Reader::new(text);
    let sheet_and_pieces = reading::two_sections(&mut r)?;
    at_end(&r)?;
    judge(sheet_and_pieces.job)
}

// What a plan text holds: its job, and how many placements stand in the lent buffer.
#[derive(Clone, Copy, Debug, PartialEq, Eq)]
pub struct PlanText {
    pub job: Job,
    pub placements: usize,
}

// Keeps the placements of a text whose job is in range: their count may be out of range, and the buffer may be too short for them.
fn kept_plan(job: Job, list: &Placements, buffer: &mut [u64]) -> Result<usize, Refusal>
    requires { (job.count ≤ types_most) × (numbers_of_placements pieces_most ≤ length list.now.numbers) }
    ensures { PlanKept job list.now.count list.now.numbers buffer.old buffer.new result }
{
    if (PIECES_MOST as u64) < list.count {
        return Err(Refusal::OutOfRange(5 + 4 * job.count as usize));
    }
    let placements = list.count as usize;
    let n = PLACEMENT_NUMBERS * placements;
    if buffer.len() < n {
        return Err(Refusal::BufferShort);
    }
    buffer[..n].copy_from_slice(&list.numbers[..n]);
    Ok(placements)
}

pub fn read_plan(text: &[u8], buffer: &mut [u64]) -> Result<PlanText, Refusal>
    ensures { PlanRead buffer.old text.now (plan_left result buffer.new) }
{
    let mut r = Reader::new(text);
    let sections = reading::two_sections(&mut r)?;
    let list = reading::placement_section(&mut r)?;
    at_end(&r)?;
    let job = judge(sections.job)?;
    let placements = kept_plan(job, &list, buffer)?;
    Ok(PlanText { job, placements })
}
