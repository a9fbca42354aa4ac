// Outlines by value: a length along the sheet, a width across it, and a count of each type.
// Whoever joins, compares or stores builds calls this crate. The two joins are methods that hand back the joined outline,
// and lengths and widths are types of their own, so that no join can add a width to a length.
#![tactic(auto)]

ghost use Rattle.std.specs.Prelude.{◌≡◌, ◌+◌, ◌<◌, max, take};
ghost use Rattle.rules.specs.Job.{horizontal, vertical};
ghost use Rattle.rules.proofs.Bridge.{join};
ghost use Rattle.rules.proofs.Classes.{turned};
ghost use Rattle.rules.proofs.Outlines.{at_most, fits};
ghost use Rattle.outline.specs.Stands.{job_for, outline_of, Sized, sums, Joins, way_of, number_of, side_of, Alone, LeastOf, least_by, two_bytes};
ghost use Rattle.shapes.specs.Handed.{JobInRange};

use shapes::{Job, TYPES_MOST};

#[derive(Clone, Copy, Debug, PartialEq, Eq)]
pub struct Along(pub u64);

#[derive(Clone, Copy, Debug, PartialEq, Eq)]
pub struct Across(pub u64);

// Counts of types past those of the job are never read.
#[derive(Clone, Copy, Debug, PartialEq, Eq)]
pub struct Outline {
    pub length: Along,
    pub width: Across,
    pub counts: [u8; TYPES_MOST],
}

// How two outlines are put together: `Beside` is the horizontal build, `Above` the vertical one.
#[derive(Clone, Copy, Debug, PartialEq, Eq)]
pub enum Way {
    Beside,
    Above,
}

impl Way {
    // The way's number, as links and sizes are numbered in the arena.
    pub fn number(self) -> usize
        ensures { result ≡ number_of self }
    {
        self as usize
    }

    pub fn turned(self) -> Way
        ensures { way_of result ≡ turned (way_of self) }
    {
        match self {
            Way::Beside => Way::Above,
            Way::Above => Way::Beside,
        }
    }

    // The sheet's side that sizes of this way add up along.
    pub fn side(self, job: Job) -> u64
        ensures { result ≡ side_of job self }
    {
        match self {
            Way::Beside => job.length,
            Way::Above => job.width,
        }
    }
}

// Both have the same two methods: one type with a parameter would not be document 01's two, and a trait over both is longer than the four lines.
impl Along {
    pub fn plus(self, other: Along) -> Along
        requires { (self.0 < two_bytes) × (other.0 < two_bytes) }
        ensures { result.0 ≡ self.0 + other.0 }
    {
        Along(self.0 + other.0)
    }

    pub fn larger(self, other: Along) -> Along
        ensures { result.0 ≡ max self.0 other.0 }
    {
        Along(self.0.max(other.0))
    }
}

impl Across {
    pub fn plus(self, other: Across) -> Across
        requires { (self.0 < two_bytes) × (other.0 < two_bytes) }
        ensures { result.0 ≡ self.0 + other.0 }
    {
        Across(self.0 + other.0)
    }

    pub fn larger(self, other: Across) -> Across
        ensures { result.0 ≡ max self.0 other.0 }
    {
        Across(self.0.max(other.0))
    }
}

// The counts of both, each in a byte: two builds of a job hold at most 100 of a type.
fn added(a: [u8; TYPES_MOST], b: [u8; TYPES_MOST]) -> [u8; TYPES_MOST]
    ensures { result ≡ sums a b }
{
    let mut r = a;
    for i in 0..TYPES_MOST {
        r[i] = a[i].wrapping_add(b[i]);
    }
    r
}

// No count is above its demand.
fn demands_kept(counts: [u8; TYPES_MOST], job: Job) -> bool
    requires { JobInRange job }
    ensures { result ≡ at_most (take job.count counts) (job_for job).demands }
{
    for i in 0..job.count as usize {
        if job.types[i].demand < u64::from(counts[i]) {
            return false;
        }
    }
    true
}

impl Outline {
    // "A horizontal build of A and B has length lA+lB and the larger of the two widths."
    pub fn beside(self, other: Outline) -> Outline
        requires { Sized self × Sized other }
        ensures { Joins horizontal self other result }
    {
        Outline {
            length: self.length.plus(other.length),
            width: self.width.larger(other.width),
            counts: added(self.counts, other.counts),
        }
    }

    // "A vertical build has the larger of the two lengths and width wA+wB."
    pub fn above(self, other: Outline) -> Outline
        requires { Sized self × Sized other }
        ensures { Joins vertical self other result }
    {
        Outline {
            length: self.length.larger(other.length),
            width: self.width.plus(other.width),
            counts: added(self.counts, other.counts),
        }
    }

    pub fn joined(self, other: Outline, way: Way) -> Outline
        requires { Sized self × Sized other }
        ensures { Joins (join (way_of way)) self other result }
    {
        match way {
            Way::Beside => self.beside(other),
            Way::Above => self.above(other),
        }
    }

    // "length ≤ L, width ≤ W and, type by type, the added counts do not exceed the demand"
    pub fn fits(self, job: Job) -> bool
        requires { JobInRange job }
        ensures { result ≡ fits (job_for job) (outline_of job.count self) }
    {
        self.length.0 <= job.length && self.width.0 <= job.width && demands_kept(self.counts, job)
    }
}

// "One piece": the grown piece of type t, counted from 0.
pub fn single(job: Job, t: usize) -> Outline
    requires { JobInRange job × (t < job.count) }
    ensures { Alone job t result }
{
    let mut counts = [0; TYPES_MOST];
    counts[t] = 1;
    let piece = job.types[t];
    Outline {
        length: Along(piece.length + job.kerf),
        width: Across(piece.width + job.kerf),
        counts,
    }
}

// Sizes below which no piece of a job is, and so no build.
#[derive(Clone, Copy, Debug, PartialEq, Eq)]
pub struct Least {
    pub length: u64,
    pub width: u64,
}

impl Least {
    pub fn in_way(self, way: Way) -> u64
        ensures { result ≡ least_by (way_of way) self }
    {
        match way {
            Way::Beside => self.length,
            Way::Above => self.width,
        }
    }
}

// What two bytes hold is below: no piece of a job is as large.
const TWO_BYTES: u64 = 65_536;

// The length of a job's shortest piece and the width of its narrowest, grown.
pub fn least_sizes(job: Job) -> Least
    requires { JobInRange job }
    ensures { LeastOf job result }
{
    let mut length = TWO_BYTES;
    let mut width = TWO_BYTES;
    for t in 0..job.count as usize {
        let o = single(job, t);
        length = length.min(o.length.0);
        width = width.min(o.width.0);
    }
    Least { length, width }
}
