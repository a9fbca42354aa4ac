// The program "check": reads a plan text from standard input and prints `number place profit pieces`.
// Everything that matters is in `checktext` and `writing`; what stands here reads, calls and writes. It ends early only where reading or writing fails.
#![tactic(auto)]

use shapes::INPUT_ROOM;
use std::io;
use std::io::Write;

fn main(rt: HostRuntime) -> io::Result<()> {
    let mut input = [0u8; INPUT_ROOM];
    let n = input::read_full(&mut rt.stdin(), &mut input)?;
    let line = shapes::check_line(checktext::check_input(&input[..n]));
    let mut out = [0u8; 128];
    if let Ok(end) = writing::check_line(line, &mut out, 0) {
        rt.stdout().write_all(&out[..end])?;
    }
    Ok(())
}
