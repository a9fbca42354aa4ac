// The checker's entry over records: a lent slice of placements, of any length, which is only read.
// It is thin: each placement goes through a scan, which keeps the flat numbers of a list that is still clean, and the core checks those.
// It promises the core's answer to the flat numbers of the records. Whoever holds records calls `check_records`; whoever gets them one at a time steps a `Scan`,
// which has the answer to those so far; everybody else calls the core.
#![tactic(auto)]

ghost use Rattle.std.specs.Prelude.{◌≡◌, []};
ghost use Rattle.rules.specs.Answers.{CheckNumbers};
ghost use Rattle.shapes.specs.Answer.{check_answer};
ghost use Rattle.shapes.specs.Handed.{items_of, JobInRange};
ghost use Rattle.records.specs.Scan.{InRange, Began, of_job, Tested, sooner_of, Keeps, Kept, Scanning, Reached, Steps, Ends, flat_of};

use checking::check_list;
use jobs::first_out_of_range;
use placing::{not_a_type, off_sheet, type_of};
use shapes::{
    Drawing, Job, PIECES_MOST, PLACEMENT_NUMBERS, Placement, Refusal, TYPES_MOST, refusal_number,
};

const FLAT_MOST: usize = PLACEMENT_NUMBERS * PIECES_MOST;

// What a job is refused for before any placement is seen.
fn job_found(job: Job) -> Option<Refusal>
    ensures { Began job result }
{
    first_out_of_range(job).map(Refusal::OutOfRange)
}

// Whether the job itself is refused, which nothing placed can change.
fn is_of_job(found: Option<Refusal>) -> bool
    ensures { result ≡ of_job found }
{
    matches!(found, Some(Refusal::OutOfRange(_)))
}

// The first of tests 6 to 8 that holds of the placement at i.
fn test_of(job: Job, counts: &[u64; TYPES_MOST], p: Placement, i: usize) -> Option<Refusal>
    requires { JobInRange job }
    ensures { Tested job counts.now p i result }
{
    if not_a_type(job.count, p.kind) {
        return Some(Refusal::NotAType(i));
    }
    if off_sheet(job, p) {
        return Some(Refusal::OffSheet(i));
    }
    let t = type_of(job, p.kind);
    let kind = (p.kind - 1) as usize;
    if t.demand <= counts[kind] {
        return Some(Refusal::AboveDemand(i));
    }
    None
}

// What the refusal table has first; of two with one number the older.
fn sooner(old: Option<Refusal>, new: Option<Refusal>) -> Option<Refusal>
    ensures { result ≡ sooner_of old new }
{
    match (old, new) {
        (Some(a), Some(b)) if refusal_number(b) < refusal_number(a) => new,
        _ => old.or(new),
    }
}

// The placements seen so far: what was found, which no later placement can make later in the table's order.
// While nothing is found the list is short, and its counts and its flat numbers are kept; behind a refusal `seen` goes on alone, so it is no length of `flat`.
// Of a job out of range no placement is looked at.
#[derive(Clone, Copy, Debug, PartialEq, Eq)]
pub struct Scan {
    pub job: Job,
    pub found: Option<Refusal>,
    pub seen: usize,
    pub counts: [u64; TYPES_MOST],
    pub flat: [u64; FLAT_MOST],
}

impl Scan {
    pub fn new(job: Job) -> Scan
        ensures { Scanning job [] result }
    {
        Scan::begun(job, job_found(job))
    }

    fn begun(job: Job, found: Option<Refusal>) -> Scan
        requires { Began job found }
        ensures { Scanning job [] result }
    {
        Scan {
            job,
            found,
            seen: 0,
            counts: [0; TYPES_MOST],
            flat: [0; FLAT_MOST],
        }
    }

    fn keep(&mut self, p: Placement)
        requires { Keeps self.old p }
        ensures { Kept self.old p self.new }
    {
        self.counts[(p.kind - 1) as usize] += 1;
        let at = self.seen * PLACEMENT_NUMBERS;
        self.flat[at] = p.kind;
        self.flat[at + 1] = p.x;
        self.flat[at + 2] = p.y;
        self.seen += 1;
    }

    // One placement more of a job in range; `check_records` asks for the job once, and not at each placement.
    fn add(&mut self, p: Placement)
        requires reached { Reached self.old }
        requires in_range { InRange self.old.job }
        ensures { Steps self.old p self.new }
    {
        let test = test_of(self.job, &self.counts, p, self.seen);
        let found = sooner(self.found, test);
        match found {
            None => self.keep(p),
            Some(_) => {
                self.found = found;
                self.seen += 1;
            }
        }
    }

    pub fn step(&mut self, p: Placement)
        requires { Reached self.old }
        ensures { Steps self.old p self.new }
    {
        if !is_of_job(self.found) {
            self.add(p);
        }
    }

    pub fn answer(&self) -> Result<Drawing, Refusal>
        requires { Reached self.now }
        ensures { Ends self.now result }
    {
        if let Some(refusal) = self.found {
            return Err(refusal);
        }
        let flat = &self.flat[..self.seen * PLACEMENT_NUMBERS];
        check_list(self.job, flat)
    }
}

// The checker's answer to a list of records.
pub fn check_records(job: Job, list: &[Placement]) -> Result<Drawing, Refusal>
    ensures { CheckNumbers (flat_of list.now) (items_of job) (check_answer result) }
{
    if let Some(refusal) = job_found(job) {
        return Err(refusal);
    }
    let mut scan = Scan::begun(job, None);
    for p in list {
        scan.add(*p);
    }
    scan.answer()
}
