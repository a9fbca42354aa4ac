// How a program reads its input: as many bytes as there are, and no more than a lent buffer holds.
// The programs call `read_full`. It promises that what it counts is within the buffer, and of a reader whose bytes are known (standard input's are not)
// that it counts the first of them and stops short of a full buffer only at their end. A failed read is the answer's error; how much was read before it is not told.
#![tactic(auto)]

ghost use Rattle.std.specs.Prelude.{◌≤◌, ◌<◌, length, take, IfOk};
ghost use Rattle.std.specs.Io.KnownBytes.{Consumes, IsAtEnd};

use std::io;
use std::io::Read;

// Reads until the buffer is full or the input ends, and says how many bytes stand in the buffer.
pub fn read_full<R: Read>(from: &mut R, into: &mut [u8]) -> io::Result<usize>
    ensures within { IfOk result (λ n. n ≤ length into.new) }
    ensures first { IfOk result (λ n. Consumes (R.remaining from.old) (R.remaining from.new) (take n into.new)) }
    ensures all { IfOk result (λ n. n < length into.new → IsAtEnd (R.remaining from.new)) }
{
    let mut filled = 0;
    // a read gives as many bytes as it likes, so that no range walks the buffer
    while filled < into.len() {
        let n = from.read(&mut into[filled..])?;
        if n == 0 {
            break;
        }
        filled += n;
    }
    Ok(filled)
}
