// What crosses the crates: the job, a placement, an outline's two sizes, and the answers; and the limits of the code, once.
// Every other crate of code uses these types. They hold any numbers: whoever needs a range tests it, or asks for it in a contract.
#![tactic(auto)]

ghost use Rattle.std.specs.Prelude.{◌≡◌, [], ◌∷◌};
ghost use Rattle.rules.specs.Limits.{size_most, kerf_most, types_most, profit_most, demand_most, pieces_most, record_bytes, records_most, placement_numbers, digits_most, input_most, program_records};
ghost use Rattle.rules.specs.Planner.{slots_of};
ghost use Rattle.shapes.specs.Answer.{number_of, place_of, plan_answer, check_answer, plan_line_of, check_line_of, plan_numbers, check_numbers, line_for};

pub const SIZE_MOST: u64 = 5_000;

pub const KERF_MOST: u64 = 20;

pub const TYPES_MOST: usize = 12;

pub const PROFIT_MOST: u64 = 25_000_000;

pub const DEMAND_MOST: u64 = 50;

pub const PIECES_MOST: usize = 600;

pub const RECORD_BYTES: usize = 32;

pub const RECORDS_MOST: usize = 65_535;

pub const PLACEMENT_NUMBERS: usize = 3;

pub const DIGITS_MOST: usize = 8;

pub const INPUT_MOST: usize = 32_768;

pub const PROGRAM_RECORDS: usize = 2_000;

// The flat numbers of the longest plan.
pub const PLAN_NUMBERS: usize = PIECES_MOST * PLACEMENT_NUMBERS;

// One byte more than a program's input may have, so that a longer one is seen.
pub const INPUT_ROOM: usize = INPUT_MOST + 1;

// The bytes of a program's arena.
pub const PROGRAM_ARENA: usize = PROGRAM_RECORDS * RECORD_BYTES;

// A piece type: a line `l w p b`.
#[derive(Clone, Copy, Debug, PartialEq, Eq)]
pub struct PieceType {
    pub length: u64,
    pub width: u64,
    pub profit: u64,
    pub demand: u64,
}

// No type: what stands past the piece count.
pub const NO_TYPE: PieceType = PieceType {
    length: 0,
    width: 0,
    profit: 0,
    demand: 0,
};

// A job handed over as numbers: the sheet `L W k`, a piece count, and room for all types; those past the count are not read.
#[derive(Clone, Copy, Debug, PartialEq, Eq)]
pub struct Job {
    pub length: u64,
    pub width: u64,
    pub kerf: u64,
    pub count: u64,
    pub types: [PieceType; TYPES_MOST],
}

// A placement `type x y`.
#[derive(Clone, Copy, Debug, PartialEq, Eq)]
pub struct Placement {
    pub kind: u64,
    pub x: u64,
    pub y: u64,
}

// The flat numbers of a list, three to a placement, hold this many placements; a rest of one or two numbers is lost.
pub fn placements_in(numbers: usize) -> usize
    ensures { result ≡ slots_of numbers }
{
    numbers / PLACEMENT_NUMBERS
}

// Why an input is refused, with the place where the refusal table gives one. `number_of` and `place_of` of specs/Answer say it in the table's numbers.
#[derive(Clone, Copy, Debug, PartialEq, Eq)]
pub enum Refusal {
    NotInGrammar(usize),
    OutOfRange(usize),
    NothingFits,
    ArenaFull,
    BufferShort,
    NotAType(usize),
    OffSheet(usize),
    AboveDemand(usize),
    Overlaps(usize),
    NotParted,
    InputTooLong,
}

// What the planner says of the best outline: its profit, sizes and pieces, and N.
#[derive(Clone, Copy, Debug, PartialEq, Eq)]
pub struct Plan {
    pub profit: u64,
    pub length: u64,
    pub width: u64,
    pub pieces: u64,
    pub outlines: u64,
}

// What the checker says of an accepted list.
#[derive(Clone, Copy, Debug, PartialEq, Eq)]
pub struct Drawing {
    pub profit: u64,
    pub pieces: u64,
}

// An answer in the numbers of the refusal table, as the programs print it and the library hands it out.
#[derive(Clone, Copy, Debug, PartialEq, Eq)]
pub struct Line<A> {
    pub number: u64,
    pub place: u64,
    pub found: A,
}

pub type PlanLine = Line<Plan>;

pub type CheckLine = Line<Drawing>;

// The refusal table's number of a refusal.
pub fn refusal_number(r: Refusal) -> u64
    ensures { result ≡ number_of r }
{
    match r {
        Refusal::NotInGrammar(_) => 1,
        Refusal::OutOfRange(_) => 2,
        Refusal::NothingFits => 3,
        Refusal::ArenaFull => 4,
        Refusal::BufferShort => 5,
        Refusal::NotAType(_) => 6,
        Refusal::OffSheet(_) => 7,
        Refusal::AboveDemand(_) => 8,
        Refusal::Overlaps(_) => 9,
        Refusal::NotParted => 10,
        Refusal::InputTooLong => 11,
    }
}

// The place that the refusal table gives with it.
pub fn refusal_place(r: Refusal) -> u64
    ensures { result ≡ place_of r }
{
    match r {
        Refusal::NotInGrammar(at)
        | Refusal::OutOfRange(at)
        | Refusal::NotAType(at)
        | Refusal::OffSheet(at)
        | Refusal::AboveDemand(at)
        | Refusal::Overlaps(at) => at as u64,
        Refusal::InputTooLong => INPUT_MOST as u64,
        Refusal::NothingFits | Refusal::ArenaFull | Refusal::BufferShort | Refusal::NotParted => 0,
    }
}

// What a refusal says of an outline, and of a list: "all other fields of a refusal are 0".
const NO_PLAN: Plan = Plan {
    profit: 0,
    length: 0,
    width: 0,
    pieces: 0,
    outlines: 0,
};

const NO_DRAWING: Drawing = Drawing {
    profit: 0,
    pieces: 0,
};

// The line of an answer; `none` stands in it where the answer is a refusal.
fn answer_line<A: Copy>(answer: Result<A, Refusal>, none: A) -> Line<A>
    ensures { result ≡ line_for answer none }
{
    match answer {
        Ok(found) => Line {
            number: 0,
            place: 0,
            found,
        },
        Err(refusal) => Line {
            number: refusal_number(refusal),
            place: refusal_place(refusal),
            found: none,
        },
    }
}

pub fn plan_line(answer: Result<Plan, Refusal>) -> PlanLine
    ensures { plan_line_of result ≡ plan_answer answer }
{
    answer_line(answer, NO_PLAN)
}

pub fn check_line(answer: Result<Drawing, Refusal>) -> CheckLine
    ensures { check_line_of result ≡ check_answer answer }
{
    answer_line(answer, NO_DRAWING)
}

impl Line<Plan> {
    // "number, place, profit, length, width, pieces, N"
    pub fn numbers(self) -> [u64; 7]
        ensures { result ≡ plan_numbers (plan_line_of self) }
    {
        [
            self.number,
            self.place,
            self.found.profit,
            self.found.length,
            self.found.width,
            self.found.pieces,
            self.found.outlines,
        ]
    }
}

impl Line<Drawing> {
    // "number, place, profit, pieces"
    pub fn numbers(self) -> [u64; 4]
        ensures { result ≡ check_numbers (check_line_of self) }
    {
        [
            self.number,
            self.place,
            self.found.profit,
            self.found.pieces,
        ]
    }
}

// The limits of the code, in the order of specs/Limits of the rules: they are the same numbers.
pub fn limits() -> [u64; 12]
    ensures { result ≡ size_most ∷ kerf_most ∷ types_most ∷ profit_most ∷ demand_most ∷ pieces_most ∷ record_bytes ∷ records_most ∷ placement_numbers ∷ digits_most ∷ input_most ∷ program_records ∷ [] }
{
    [
        SIZE_MOST,
        KERF_MOST,
        TYPES_MOST as u64,
        PROFIT_MOST,
        DEMAND_MOST,
        PIECES_MOST as u64,
        RECORD_BYTES as u64,
        RECORDS_MOST as u64,
        PLACEMENT_NUMBERS as u64,
        DIGITS_MOST as u64,
        INPUT_MOST as u64,
        PROGRAM_RECORDS as u64,
    ]
}
