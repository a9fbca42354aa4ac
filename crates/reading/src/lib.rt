// The cursor core of the reader: numbers, lines and sections of a text. One reading position walks the lent text from front to back, once.
// The crate `texts` puts job texts and plan texts together from it; nothing here knows of ranges or of cutting.
// It promises that each walk goes as the grammar's reading does: on to the place behind what was asked for, or to the place where the text leaves the grammar.
#![tactic(auto)]

ghost use Rattle.std.specs.Prelude.{◌≡◌, ◌∷◌, ◌≤◌, length};
ghost use Rattle.rules.specs.Limits.{types_most, pieces_most};
ghost use Rattle.rules.specs.Text.{a_line, some_lines, section};
ghost use Rattle.reading.specs.Walked.{Reads, Passes};
ghost use Rattle.reading.specs.Sections.{some_sheets, one_sheet, sheets_and_pieces, sections_of, Holds};
ghost use Rattle.reading.specs.Placements.{numbers_of_placements, PlacementLines, Listed, PlacementsOf};
ghost use Rattle.reading.specs.Pieces.{PieceLines, PiecesOf};

use reader::{LF, Reader, SPACE, Stray};
use shapes::{Job, NO_TYPE, PIECES_MOST, PLACEMENT_NUMBERS, PLAN_NUMBERS, PieceType, TYPES_MOST};

// A line of W numbers.
fn line<const W: usize>(r: &mut Reader<'_>) -> Result<[u64; W], Stray>
    ensures text { r.new.text ≡ r.old.text }
    ensures read { Reads (a_line W) r.old.text.now r.old.at (λ numbers vs. vs ≡ numbers) result r.new.at }
{
    let mut numbers = [0; W];
    for j in 0..W {
        let end = if j + 1 < W { SPACE } else { LF };
        numbers[j] = r.number(end)?;
    }
    Ok(numbers)
}

// Lines of W numbers that nobody needs: a count may be any number, so nothing is kept of them.
fn skip_lines<const W: usize>(r: &mut Reader<'_>, n: u64) -> Result<(), Stray>
    requires { W ≤ 4 }
    ensures text { r.new.text ≡ r.old.text }
    ensures passed { Passes (some_lines n W) r.old.text.now r.old.at result r.new.at }
{
    for i in 0..n {
        line::<W>(r)?;
    }
    Ok(())
}

// A whole section of such lines behind its count.
fn skip_section<const W: usize>(r: &mut Reader<'_>) -> Result<(), Stray>
    requires { W ≤ 4 }
    ensures text { r.new.text ≡ r.old.text }
    ensures passed { Passes (section W) r.old.text.now r.old.at result r.new.at }
{
    let n = r.count()?;
    skip_lines::<W>(r, n)
}

// Piece lines `l w p b` as many as the job has room for.
fn piece_lines(r: &mut Reader<'_>, n: usize) -> Result<[PieceType; TYPES_MOST], Stray>
    requires { n ≤ types_most }
    ensures text { r.new.text ≡ r.old.text }
    ensures read { Reads (some_lines n 4) r.old.text.now r.old.at (PieceLines n) result r.new.at }
{
    let mut types = [NO_TYPE; TYPES_MOST];
    for i in 0..n {
        let [length, width, profit, demand] = line::<4>(r)?;
        types[i] = PieceType {
            length,
            width,
            profit,
            demand,
        };
    }
    Ok(types)
}

// The piece section: the piece count, and the types where a job has room for them. More are out of range, so that nobody needs their lines.
fn pieces(r: &mut Reader<'_>) -> Result<(u64, [PieceType; TYPES_MOST]), Stray>
    ensures text { r.new.text ≡ r.old.text }
    ensures read { Reads (section 4) r.old.text.now r.old.at PiecesOf result r.new.at }
{
    let count = r.count()?;
    if count <= TYPES_MOST as u64 {
        let types = piece_lines(r, count as usize)?;
        return Ok((count, types));
    }
    skip_lines::<4>(r, count)?;
    Ok((count, [NO_TYPE; TYPES_MOST]))
}

// The one sheet line `L W k`, and the pieces behind it.
fn one_sheet(r: &mut Reader<'_>) -> Result<Job, Stray>
    ensures text { r.new.text ≡ r.old.text }
    ensures read { Reads one_sheet r.old.text.now r.old.at (λ job vs. Holds (sections_of job) (1 ∷ vs)) result r.new.at }
{
    let [length, width, kerf] = line::<3>(r)?;
    let (count, types) = pieces(r)?;
    Ok(Job {
        length,
        width,
        kerf,
        count,
        types,
    })
}

// Another sheet count than 1 is out of range, whatever the lines hold.
fn other_sheets(r: &mut Reader<'_>, sheets: u64) -> Result<(), Stray>
    ensures text { r.new.text ≡ r.old.text }
    ensures passed { Passes (some_sheets sheets) r.old.text.now r.old.at result r.new.at }
{
    skip_lines::<3>(r, sheets)?;
    skip_section::<4>(r)
}

// The sheet and piece sections: the sheet count, and the job, where that count is 1.
#[derive(Clone, Copy)]
pub struct Sections {
    pub sheets: u64,
    pub job: Option<Job>,
}

// The two sections that job texts and plan texts begin with.
pub fn two_sections(r: &mut Reader<'_>) -> Result<Sections, Stray>
    ensures text { r.new.text ≡ r.old.text }
    ensures read { Reads sheets_and_pieces r.old.text.now r.old.at Holds result r.new.at }
{
    let sheets = r.count()?;
    if sheets == 1 {
        let job = one_sheet(r)?;
        return Ok(Sections {
            sheets,
            job: Some(job),
        });
    }
    other_sheets(r, sheets)?;
    Ok(Sections { sheets, job: None })
}

// Placement lines `type x y`, as flat numbers.
fn placement_lines(r: &mut Reader<'_>, n: usize, numbers: &mut [u64]) -> Result<(), Stray>
    requires { numbers_of_placements n ≤ length numbers.old }
    ensures text { r.new.text ≡ r.old.text }
    ensures read { PlacementLines r.old.text.now r.old.at n numbers.old numbers.new result r.new.at }
{
    for i in 0..n {
        let line = line::<PLACEMENT_NUMBERS>(r)?;
        let j = i * PLACEMENT_NUMBERS;
        let end = j + PLACEMENT_NUMBERS;
        numbers[j..end].copy_from_slice(&line);
    }
    Ok(())
}

fn listed(r: &mut Reader<'_>, count: usize) -> Result<[u64; PLAN_NUMBERS], Stray>
    requires { count ≤ pieces_most }
    ensures text { r.new.text ≡ r.old.text }
    ensures read { Reads (some_lines count 3) r.old.text.now r.old.at (Listed count) result r.new.at }
{
    let mut numbers = [0; PLAN_NUMBERS];
    placement_lines(r, count, &mut numbers)?;
    Ok(numbers)
}

// The placement section: the count, and the flat numbers, where the count is in range.
#[derive(Clone, Copy)]
pub struct Placements {
    pub count: u64,
    pub numbers: [u64; PLAN_NUMBERS],
}

// More placements than a plan may have are out of range, so that nobody needs their lines.
pub fn placement_section(r: &mut Reader<'_>) -> Result<Placements, Stray>
    ensures text { r.new.text ≡ r.old.text }
    ensures read { Reads (section 3) r.old.text.now r.old.at PlacementsOf result r.new.at }
{
    let count = r.count()?;
    if count <= PIECES_MOST as u64 {
        let numbers = listed(r, count as usize)?;
        return Ok(Placements { count, numbers });
    }
    skip_lines::<3>(r, count)?;
    let numbers = [0; PLAN_NUMBERS];
    Ok(Placements { count, numbers })
}
