// The pieces of a placement list as boxes by their lines. The checker lays out a list that tests 6 and 7 let pass,
// and asks here which piece is the first to overlap an earlier one (refusal 9).
// The boxes are those that parting reads, in the order of the list.
#![tactic(auto)]

ghost use Rattle.std.specs.Prelude.{◌≡◌, ◌<◌, ◌≤◌, length};
ghost use Rattle.rules.specs.Limits.{pieces_most};
ghost use Rattle.shapes.specs.Handed.{numbers_of};
ghost use Rattle.laying.specs.Laid.{ToLay, Laid, Boxed, meet, lines_overlap, overlaps_below, FirstOverlap, Counted};

use parting::{Lines, Span};
use placing::{entry_at, type_of};
use shapes::{Job, placements_in};

// The boxes that the pieces of a list take up, in the order of the list.
pub fn lay_boxes(job: Job, list: &[u64], boxes: &mut [Lines])
    requires { ToLay job list.now boxes.old }
    ensures { Laid (numbers_of job) list.now boxes.new }
{
    for i in 0..placements_in(list.len()) {
        let p = entry_at(list, i);
        let t = type_of(job, p.kind);
        boxes[i] = Lines {
            along: Span {
                near: p.x,
                far: p.x + (t.length + job.kerf),
            },
            across: Span {
                near: p.y,
                far: p.y + (t.width + job.kerf),
            },
        };
    }
}

// Edges on one line touch and do not overlap.
fn meet(a: Span, b: Span) -> bool
    ensures { result ≡ meet a b }
{
    a.near < b.far && b.near < a.far
}

fn overlap(a: &Lines, b: &Lines) -> bool
    ensures { result ≡ lines_overlap a.now b.now }
{
    meet(a.along, b.along) && meet(a.across, b.across)
}

// Whether a box overlaps an earlier one.
fn overlaps_earlier(boxes: &[Lines], i: usize) -> bool
    requires { i < length boxes.now }
    ensures { result ≡ overlaps_below boxes.now i }
{
    boxes[..i].iter().any(|earlier| overlap(earlier, &boxes[i]))
}

// 9: "a piece that overlaps an earlier one".
pub fn first_overlap(boxes: &[Lines], count: usize) -> Option<usize>
    requires { Boxed boxes.now count }
    ensures { FirstOverlap boxes.now count result }
{
    for i in 0..count {
        if overlaps_earlier(boxes, i) {
            return Some(i);
        }
    }
    None
}

pub fn count_up(order: &mut [u16])
    requires { length order.old ≤ pieces_most }
    ensures { Counted order.old order.new }
{
    for (i, piece) in order.iter_mut().enumerate() {
        *piece = i as u16;
    }
}
