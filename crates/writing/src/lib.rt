// The writers: a number, a line of numbers, the answer lines, a placement section and a job's house text, into lent bytes.
// The programs print with them, and whoever makes a house text out of other numbers writes it with them.
// Each writes all it is asked for or nothing: it answers the place behind the last byte, or that the buffer is too short,
// and then every byte is as it was. A contract says which bytes stand where, and that all others stay.
#![tactic(auto)]

ghost use Rattle.std.specs.Prelude.{◌≡◌, [], ◌∷◌, ◌++◌, map, ◌+◌, ◌≤◌, length, drop};
ghost use Rattle.rules.specs.Items.{type_items};
ghost use Rattle.shapes.specs.Handed.{type_of};
ghost use Rattle.writing.specs.Answer.{Writes, NumberOf, LineOf, PlanLineOf, CheckLineOf, SectionOf, HouseText};
ghost use Rattle.writing.specs.Steps.{digits, end_byte, line_text, lines_text, section_text, needed, Put, InScratch, CopyFits, Reaches, LinesFit, SectionFits, TwoSections, JobItems};

use shapes::{CheckLine, Job, PLACEMENT_NUMBERS, PieceType, PlanLine, TYPES_MOST};

// A number of 64 bits has at most 20 digits.
const SCRATCH_PLACES: usize = 20;

const DIGIT_ZERO: u64 = 48;

// The numbers of the sheet's line, and of a piece line.
const SHEET_NUMBERS: usize = 3;

const PIECE_NUMBERS: usize = 4;

// Why nothing is written.
#[derive(Clone, Copy, Debug, PartialEq, Eq)]
pub enum Unwritten {
    // The buffer ends before the last byte.
    Full,
    // There is no such text: a job whose count is above its types.
    NoText,
}

// Digits that were made back to front: they stand from `from` to the end.
#[derive(Clone, Copy)]
struct Scratch {
    bytes: [u8; SCRATCH_PLACES],
    from: usize,
}

// Back to front, since a division takes off the last digit.
fn in_scratch(n: u64) -> Scratch
    ensures { InScratch n result.bytes result.from }
{
    let mut bytes = [0u8; SCRATCH_PLACES];
    let mut from = SCRATCH_PLACES - 1;
    bytes[from] = (DIGIT_ZERO + n % 10) as u8;
    let mut rest = n / 10;
    // how many digits there are shows only when none is left
    while 0 < rest {
        from -= 1;
        bytes[from] = (DIGIT_ZERO + rest % 10) as u8;
        rest /= 10;
    }
    Scratch { bytes, from }
}

fn copy(scratch: Scratch, out: &mut [u8], at: usize) -> usize
    requires { CopyFits scratch.from out.old at }
    ensures { Put (drop scratch.from scratch.bytes) out.old at out.new result }
{
    let digits = &scratch.bytes[scratch.from..];
    let next = at + digits.len();
    out[at..next].copy_from_slice(digits);
    next
}

// A number in decimal digits.
pub fn number(n: u64, out: &mut [u8], at: usize) -> Result<usize, Unwritten>
    ensures { Writes (NumberOf n) out.old at out.new result }
{
    let scratch = in_scratch(n);
    let length = out.len();
    if length < at {
        return Err(Unwritten::Full);
    }
    if length - at < SCRATCH_PLACES - scratch.from {
        return Err(Unwritten::Full);
    }
    Ok(copy(scratch, out, at))
}

fn digit_count(n: u64) -> usize
    ensures { result ≡ length (digits n) }
{
    let mut count = 1;
    let mut left = n / 10;
    while 0 < left {
        count += 1;
        left /= 10;
    }
    count
}

// Where numbers end that are written from some place on, each with the byte behind it; or none, where the buffer ends before.
fn place_behind(numbers: &[u64], at: usize, size: usize) -> Option<usize>
    ensures { Reaches (needed numbers.now) at size result }
{
    if size < at {
        return None;
    }
    let mut next = at;
    for &number in numbers {
        let count = digit_count(number);
        if size - next <= count {
            return None;
        }
        next += count + 1;
    }
    Some(next)
}

// The byte behind a number that has some numbers behind it on its line.
fn end_byte(behind: usize) -> u8
    ensures { result ≡ end_byte behind }
{
    if behind == 0 {
        return b'\n';
    }
    b' '
}

fn put_number(n: u64, end: u8, out: &mut [u8], at: usize) -> usize
    requires { at + length (digits n ++ end ∷ []) ≤ length out.old }
    ensures { Put (digits n ++ end ∷ []) out.old at out.new result }
{
    let scratch = in_scratch(n);
    let next = copy(scratch, out, at);
    out[next] = end;
    next + 1
}

fn put_line(numbers: &[u64], out: &mut [u8], at: usize) -> usize
    requires { at + length (line_text numbers.now) ≤ length out.old }
    ensures { Put (line_text numbers.now) out.old at out.new result }
{
    let mut next = at;
    for (i, &n) in numbers.iter().enumerate() {
        let end = end_byte(numbers.len() - (i + 1));
        next = put_number(n, end, out, next);
    }
    next
}

fn put_lines(count: usize, width: usize, flat: &[u64], out: &mut [u8], at: usize) -> usize
    requires { LinesFit count width flat.now out.old at }
    ensures { Put (lines_text count width flat.now) out.old at out.new result }
{
    let mut next = at;
    let mut from = 0;
    for i in 0..count {
        let end = from + width;
        next = put_line(&flat[from..end], out, next);
        from = end;
    }
    next
}

// A line of numbers, one space between. A slice of no numbers is no line: no byte is written for it.
pub fn line(numbers: &[u64], out: &mut [u8], at: usize) -> Result<usize, Unwritten>
    ensures { Writes (LineOf numbers.now) out.old at out.new result }
{
    let place = place_behind(numbers, at, out.len());
    let Some(_) = place else {
        return Err(Unwritten::Full);
    };
    Ok(put_line(numbers, out, at))
}

// "number, place, profit, length, width, pieces, N"
pub fn plan_line(l: PlanLine, out: &mut [u8], at: usize) -> Result<usize, Unwritten>
    ensures { Writes (PlanLineOf l) out.old at out.new result }
{
    line(&l.numbers(), out, at)
}

// "number, place, profit, pieces"
pub fn check_line(l: CheckLine, out: &mut [u8], at: usize) -> Result<usize, Unwritten>
    ensures { Writes (CheckLineOf l) out.old at out.new result }
{
    line(&l.numbers(), out, at)
}

fn section_behind(count: usize, flat: &[u64], at: usize, size: usize) -> Option<usize>
    ensures { Reaches (needed (count ∷ flat.now)) at size result }
{
    let counted = [count as u64];
    let place = place_behind(&counted, at, size);
    let Some(next) = place else {
        return None;
    };
    place_behind(flat, next, size)
}

fn put_section(count: usize, width: usize, flat: &[u64], out: &mut [u8], at: usize) -> usize
    requires { SectionFits count width flat.now out.old at }
    ensures { Put (section_text count width flat.now) out.old at out.new result }
{
    let next = put_number(count as u64, b'\n', out, at);
    put_lines(count, width, flat, out, next)
}

// The placement section of a list of flat numbers: its count, and a line for each placement. A rest of one or two numbers is no placement.
pub fn placement_section(flat: &[u64], out: &mut [u8], at: usize) -> Result<usize, Unwritten>
    ensures { Writes (SectionOf flat.now) out.old at out.new result }
{
    let count = shapes::placements_in(flat.len());
    let end = count * PLACEMENT_NUMBERS;
    let place = section_behind(count, &flat[..end], at, out.len());
    let Some(_) = place else {
        return Err(Unwritten::Full);
    };
    Ok(put_section(count, PLACEMENT_NUMBERS, &flat[..end], out, at))
}

// The numbers of the piece lines, one line behind the other.
fn piece_numbers(types: [PieceType; TYPES_MOST]) -> [u64; PIECE_NUMBERS * TYPES_MOST]
    ensures { result ≡ type_items (map type_of types) }
{
    let mut flat = [0u64; PIECE_NUMBERS * TYPES_MOST];
    for i in 0..TYPES_MOST {
        let t = types[i];
        let at = PIECE_NUMBERS * i;
        flat[at] = t.length;
        flat[at + 1] = t.width;
        flat[at + 2] = t.profit;
        flat[at + 3] = t.demand;
    }
    flat
}

fn two_sections(
    sheet: &[u64],
    count: usize,
    pieces: &[u64],
    out: &mut [u8],
    at: usize,
) -> Result<usize, Unwritten>
    requires { TwoSections sheet.now count pieces.now }
    ensures { Writes (JobItems sheet.now count pieces.now) out.old at out.new result }
{
    let size = out.len();
    let place = section_behind(1, sheet, at, size);
    let Some(between) = place else {
        return Err(Unwritten::Full);
    };
    let last = section_behind(count, pieces, between, size);
    let Some(_) = last else {
        return Err(Unwritten::Full);
    };
    let next = put_section(1, SHEET_NUMBERS, sheet, out, at);
    Ok(put_section(count, PIECE_NUMBERS, pieces, out, next))
}

// The house text of a job's numbers, whatever their ranges: the sheet, and the piece lines up to the count.
// A count above the types that a job has room for asks for lines that are not there: no text has these items.
pub fn job_text(job: Job, out: &mut [u8], at: usize) -> Result<usize, Unwritten>
    ensures { Writes (HouseText job) out.old at out.new result }
{
    if (TYPES_MOST as u64) < job.count {
        return Err(Unwritten::NoText);
    }
    let count = job.count as usize;
    let sheet = [job.length, job.width, job.kerf];
    let types = job.types;
    let pieces = piece_numbers(types);
    let end = count * PIECE_NUMBERS;
    two_sections(&sheet, count, &pieces[..end], out, at)
}
