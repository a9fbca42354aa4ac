// For tests: the numbers and headers of test cases are read here, lent buffers are filled, and looked at afterwards.
// The program `batch` calls it. Nothing is promised but that every call gets an answer: what is tested is elsewhere.
#![tactic(auto)]

ghost use Rattle.std.specs.Prelude.{◌≤◌, length};

// L, W, k, n and four numbers for each type.
pub const JOB_NUMBERS: usize = 52;

// The value of a digit.
fn digit(b: u8) -> Option<u64> {
    if !b.is_ascii_digit() {
        return None;
    }
    Some(u64::from(b - b'0'))
}

// The number with one digit more; a number that is too large becomes the largest.
fn with_digit(n: u64, d: u64) -> u64 {
    n.saturating_mul(10).saturating_add(d)
}

// A number and the place behind its last digit.
#[derive(Clone, Copy)]
pub struct Number {
    pub value: u64,
    pub next: usize,
}

// The number that is spelled from a place on; where no digit stands there, the place behind it is the place itself.
fn read_number(s: &[u8], at: usize) -> Number {
    let mut value = 0;
    for next in at..s.len() {
        let Some(d) = digit(s[next]) else {
            return Number { value, next };
        };
        value = with_digit(value, d);
    }
    Number {
        value,
        next: s.len().max(at),
    }
}

// How many numbers were read, and the place behind the last one.
#[derive(Clone, Copy)]
pub struct Row {
    pub count: usize,
    pub next: usize,
}

// Reads numbers with one byte between them, until there is no more, or no more room.
pub fn read_row(s: &[u8], at: usize, out: &mut [u64]) -> Row
    ensures { result.count ≤ length out.new }
{
    let mut next = at;
    for k in 0..out.len() {
        let number = read_number(s, next);
        out[k] = number.value;
        next = number.next;
        if s.len() <= next {
            return Row { count: k + 1, next };
        }
        if k + 1 < out.len() {
            next += 1;
        }
    }
    Row {
        count: out.len(),
        next,
    }
}

// The row behind the byte at a place: how many numbers it has.
pub fn read_row_behind(s: &[u8], place: usize, out: &mut [u64]) -> usize
    ensures { result ≤ length out.new }
{
    if s.len() <= place {
        return 0;
    }
    read_row(s, place + 1, out).count
}

pub fn fill_numbers(s: &mut [u64]) {
    for (i, number) in s.iter_mut().enumerate() {
        *number = 1_000_000 + i as u64;
    }
}

fn all_are(s: &[u8], b: u8) -> bool {
    s.iter().all(|&x| x == b)
}

pub fn arena_holds(arena: &[u8], fill: u8) -> u64 {
    if all_are(arena, 0) {
        0
    } else if all_are(arena, fill) {
        1
    } else {
        2
    }
}

// What a case asks for.
#[derive(Clone, Copy, Debug, PartialEq, Eq)]
pub enum Kind {
    PlanText,
    CheckText,
    PlanNumbers,
    CheckNumbers,
}

#[derive(Clone, Copy, Debug, PartialEq, Eq)]
pub struct UnknownKind;

impl TryFrom<u64> for Kind {
    type Error = UnknownKind;

    fn try_from(number: u64) -> Result<Kind, UnknownKind> {
        match number {
            1 => Ok(Kind::PlanText),
            2 => Ok(Kind::CheckText),
            3 => Ok(Kind::PlanNumbers),
            4 => Ok(Kind::CheckNumbers),
            _ => Err(UnknownKind),
        }
    }
}

// A header's numbers and where its case's bytes begin.
#[derive(Clone, Copy, Debug, PartialEq, Eq)]
pub struct Header {
    pub kind: Kind,
    pub arena: u64,
    pub fill: u64,
    pub buffer: u64,
    pub bytes: u64,
    pub from: usize,
}

// The header at a place, if it is one: five numbers, and LF behind them.
pub fn read_header(s: &[u8], at: usize) -> Option<Header> {
    let mut numbers = [0u64; 5];
    let end = read_row(s, at, &mut numbers).next;
    if s.len() <= end {
        return None;
    }
    if s[end] != b'\n' {
        return None;
    }
    let [number, arena, fill, buffer, bytes] = numbers;
    let kind = Kind::try_from(number).ok()?;
    Some(Header {
        kind,
        arena,
        fill,
        buffer,
        bytes,
        from: end + 1,
    })
}
