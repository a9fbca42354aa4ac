// A program for tests: answers many cases from standard input, so that one process serves thousands of them.
// A case is a header line `KIND A F B T` and then T bytes. Kind 1 plans a job text and kind 3 a job handed over as numbers, in an arena of
// A bytes that all hold F and a plan buffer of B numbers; kind 2 checks a plan text and kind 4 a flat list for a job handed over as numbers.
// Each case gets one line: the answer, and for a plan what is in the arena (0 zeros, 1 all F, 2 else) and every number of the buffer.
// The run ends at the first case that is not understood or does not fit. What is tested is in the crates below; here numbers are read and printed.
#![tactic(auto)]

ghost use Rattle.std.specs.Prelude.{◌≡◌, length};

use cases::{Header, JOB_NUMBERS, Kind};
use shapes::{Drawing, Plan, Refusal};
use std::io;
use std::io::Write;

const INPUT_SIZE: usize = 2_097_152;

const ARENA_SIZE: usize = 2_097_280;

const NUMBERS_SIZE: usize = 8_192;

// The numbers of a plan's answer line before those of the buffer.
const HEAD: usize = 8;

// 8,192 numbers of at most 20 digits, each with a byte behind it.
const LINE_SIZE: usize = 172_032;

// The arrays come from functions that promise nothing but their length: so no proof meets a list of two million zeros.
fn room_for_bytes<const N: usize>() -> [u8; N]
    ensures { length result ≡ N }
{
    [0; N]
}

fn room_for_numbers() -> [u64; NUMBERS_SIZE]
    ensures { 8192 ≡ length result }
{
    [0; NUMBERS_SIZE]
}

fn print_line(to: &mut impl Write, numbers: &[u64]) -> io::Result<bool> {
    let mut out = room_for_bytes::<LINE_SIZE>();
    let Ok(end) = writing::line(numbers, &mut out, 0) else {
        return Ok(false);
    };
    to.write_all(&out[..end])?;
    Ok(true)
}

fn print_check(to: &mut impl Write, answer: Result<Drawing, Refusal>) -> io::Result<bool> {
    print_line(to, &shapes::check_line(answer).numbers())
}

// The numbers of the list stand behind those of the job; a job may have no list behind it.
fn check_numbers(s: &[u8]) -> Result<Drawing, Refusal> {
    let mut numbers = [0u64; JOB_NUMBERS];
    let mut list = room_for_numbers();
    let from = cases::read_row(s, 0, &mut numbers).next;
    let count = cases::read_row_behind(s, from, &mut list);
    checking::check_list(handing::job_of(&numbers), &list[..count])
}

fn plan_numbers(s: &[u8], arena: &mut [u8], buffer: &mut [u64]) -> Result<Plan, Refusal> {
    let mut numbers = [0u64; JOB_NUMBERS];
    cases::read_row(s, 0, &mut numbers);
    planning::plan_job(handing::job_of(&numbers), arena, buffer)
}

// Plans in an arena that holds `fill` and a buffer that holds other numbers. The answer line stands in the numbers before those of the buffer.
fn plan<P: FnOnce(&mut [u8], &mut [u64]) -> Result<Plan, Refusal>>(
    to: &mut impl Write,
    planner: P,
    arena: &mut [u8],
    fill: u8,
    line: &mut [u64],
) -> io::Result<bool>
    requires { P.IsAlwaysCallable planner }
{
    if line.len() < HEAD {
        return Ok(false);
    }
    arena.fill(fill);
    cases::fill_numbers(&mut line[HEAD..]);
    let answer = planner(arena, &mut line[HEAD..]);
    line[..HEAD - 1].copy_from_slice(&shapes::plan_line(answer).numbers());
    line[HEAD - 1] = cases::arena_holds(arena, fill);
    print_line(to, line)
}

// A case that lends an arena and a buffer. False where they do not fit.
fn plan_lent<P: FnOnce(&mut [u8], &mut [u64]) -> Result<Plan, Refusal>>(
    to: &mut impl Write,
    h: Header,
    planner: P,
    arena: &mut [u8],
    line: &mut [u64],
) -> io::Result<bool>
    requires { P.IsAlwaysCallable planner }
{
    if (arena.len() as u64) < h.arena {
        return Ok(false);
    }
    if line.len() < HEAD {
        return Ok(false);
    }
    if ((line.len() - HEAD) as u64) < h.buffer {
        return Ok(false);
    }
    let bytes = h.arena as usize;
    let numbers = HEAD + h.buffer as usize;
    let fill = (h.fill % 256) as u8;
    plan(to, planner, &mut arena[..bytes], fill, &mut line[..numbers])
}

// Answers a case. False where it does not fit.
fn answer(
    to: &mut impl Write,
    h: Header,
    s: &[u8],
    arena: &mut [u8],
    line: &mut [u64],
) -> io::Result<bool> {
    match h.kind {
        Kind::PlanText => plan_lent(to, h, |a, b| plantext::plan_text(s, a, b), arena, line),
        Kind::PlanNumbers => plan_lent(to, h, |a, b| plan_numbers(s, a, b), arena, line),
        Kind::CheckText => print_check(to, checktext::check_text(s)),
        Kind::CheckNumbers => print_check(to, check_numbers(s)),
    }
}

// Answers the case whose header stands at a place: the place behind the case, or none where it is not understood or does not fit.
fn answer_at(
    to: &mut impl Write,
    s: &[u8],
    at: usize,
    arena: &mut [u8],
    line: &mut [u64],
) -> io::Result<Option<usize>> {
    let Some(h) = cases::read_header(s, at) else {
        return Ok(None);
    };
    let from = h.from;
    if s.len() < from {
        return Ok(None);
    }
    if ((s.len() - from) as u64) < h.bytes {
        return Ok(None);
    }
    let end = from + h.bytes as usize;
    let answered = answer(to, h, &s[from..end], arena, line)?;
    Ok(answered.then_some(end))
}

fn answer_all(to: &mut impl Write, s: &[u8], arena: &mut [u8], line: &mut [u64]) -> io::Result<()> {
    let mut at = 0;
    // The cases have lengths of their own, so that no range walks them.
    while at < s.len() {
        let Some(next) = answer_at(to, s, at, arena, line)? else {
            return Ok(());
        };
        if next <= at {
            return Ok(());
        }
        at = next;
    }
    Ok(())
}

fn main(rt: HostRuntime) -> io::Result<()> {
    let mut input = room_for_bytes::<INPUT_SIZE>();
    let mut arena = room_for_bytes::<ARENA_SIZE>();
    let mut line = room_for_numbers();
    let n = input::read_full(&mut rt.stdin(), &mut input)?;
    answer_all(&mut rt.stdout(), &input[..n], &mut arena, &mut line)
}
