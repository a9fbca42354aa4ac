// "each joined outline is unfolded into its two halves: the second half's placements go into the buffer behind the first half's."
// The planner calls `lay` on the chosen record. It goes by recursion over the arena's records: a record's halves have smaller indexes.
#![tactic(auto)]

ghost use Rattle.std.specs.Prelude.{◌≡◌, ◌∷◌, ◌≤◌, length, drop};
ghost use Rattle.outline.specs.Stands.{Sized};
ghost use Rattle.rules.specs.Limits.{placement_numbers};
ghost use Rattle.unfolding.specs.Laying.{Near, IsNext, Layable, LaidOut};

use arena::How;
use outline::{Outline, Way};
use shapes::PLACEMENT_NUMBERS;

#[derive(Clone, Copy, Debug, PartialEq, Eq)]
pub struct Corner {
    pub x: u64,
    pub y: u64,
}

// The corner of what is joined behind an outline.
fn next_corner(o: Outline, way: Way, x: u64, y: u64) -> Corner
    requires { Sized o × Near x y }
    ensures { IsNext o way x y result }
{
    match way {
        Way::Beside => Corner {
            x: x + o.length.0,
            y,
        },
        Way::Above => Corner {
            x,
            y: y + o.width.0,
        },
    }
}

// A placement at the front of the buffer.
fn put(buffer: &mut [u64], kind: u64, x: u64, y: u64)
    requires { placement_numbers ≤ length buffer.old }
    ensures { buffer.new ≡ kind ∷ x ∷ y ∷ drop placement_numbers buffer.old }
{
    buffer[..PLACEMENT_NUMBERS].copy_from_slice(&[kind, x, y]);
}

// Lays record i with its corner at (x, y); answers how many numbers its placements take up.
pub fn lay(arena: &[u8], i: usize, x: u64, y: u64, buffer: &mut [u64]) -> usize
    requires { Layable arena.now i x y buffer.old }
    ensures { LaidOut arena.now i x y buffer.old buffer.new result }
{
    match arena::load(arena, i).how {
        How::Piece(t) => {
            put(buffer, t as u64, x, y);
            PLACEMENT_NUMBERS
        }
        How::Joined(way, a, b) => {
            let half = arena::load(arena, a).outline;
            let next = next_corner(half, way, x, y);
            let n = lay(arena, a, x, y, buffer);
            let m = lay(arena, b, next.x, next.y, &mut buffer[n..]);
            n + m
        }
    }
}
