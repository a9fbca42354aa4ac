// The program "plan": reads a job text from standard input and prints `number place profit length width pieces N`,
// and on number 0 the placement section. Its arena is one zeroed byte array for 2,000 records, its plan buffer has 600 placements.
// Everything that matters is in `plantext` and `writing`; what stands here reads, calls and writes. It ends early only where reading or writing fails.
#![tactic(auto)]

use plantext::plan_input;
use shapes::{INPUT_ROOM, PIECES_MOST, PLACEMENT_NUMBERS, PLAN_NUMBERS, PROGRAM_ARENA};
use std::io;
use std::io::Write;

// 600 lines of at most 13 bytes, and the count.
const SECTION_ROOM: usize = 8_192;

fn print_section(to: &mut impl Write, flat: &[u64]) -> io::Result<()> {
    let mut out = [0u8; SECTION_ROOM];
    if let Ok(end) = writing::placement_section(flat, &mut out, 0) {
        to.write_all(&out[..end])?;
    }
    Ok(())
}

fn main(rt: HostRuntime) -> io::Result<()> {
    let mut arena = [0u8; PROGRAM_ARENA];
    let mut input = [0u8; INPUT_ROOM];
    let mut buffer = [0u64; PLAN_NUMBERS];
    let n = input::read_full(&mut rt.stdin(), &mut input)?;
    let line = shapes::plan_line(plan_input(&input[..n], &mut arena, &mut buffer));
    let mut out = [0u8; 256];
    if let Ok(end) = writing::plan_line(line, &mut out, 0) {
        rt.stdout().write_all(&out[..end])?;
    }
    if line.number == 0 {
        let pieces = line.found.pieces as usize;
        if pieces <= PIECES_MOST {
            let numbers = PLACEMENT_NUMBERS * pieces;
            print_section(&mut rt.stdout(), &buffer[..numbers])?;
        }
    }
    Ok(())
}
