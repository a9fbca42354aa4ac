// A record of the class that grows at the arena's end, found by its two sizes: outlines of one class have the same counts, so that the sizes tell them apart.
// Whoever lets a class grow calls this crate. Until a class is entered links 2 and 3 are free from its start on: link 2 of a place, one of the slots from the start
// to the room's last, names the last record of the place, and link 3 of that record the one before it. A head that an earlier class left names none of the class.
// It promises that every record that was appended is found, and no other.
#![tactic(auto)]

ghost use Rattle.std.specs.Prelude.{◌≡◌, ◌≤◌, ◌<◌, length};
ghost use Rattle.rules.specs.Planner.{room_of};
ghost use Rattle.seeking.specs.Opened.{place_of, Placeable, HeadAt, SameSizes, Seekable, SoughtIn, Notable, Noted, Appendable, Appended};

use arena::Record;
// Until the class is entered: END of a place, the last record there, plus 1; CHAIN of a record of the class, the one before it in its place, plus 1. HEAD of a slot is another class's.
use classes::{CHAIN, END, HEAD};

// Where the head of the bucket of these sizes stands, for a class that begins at `start`.
fn place(start: usize, room: usize, long: u64, wide: u64) -> usize
    requires { Placeable start room long wide }
    ensures { (result ≡ place_of room start long wide) × (start ≤ result) × (result < room) }
{
    let second = weighing::next_weight(weighing::FIRST_WEIGHT);
    let weight = long * weighing::FIRST_WEIGHT + wide * second;
    start + weighing::bucket(weight, room - start)
}

// The head that stands at a place, or 0 for one that no class of n records can have left there.
fn head_at(arena: &[u8], at: usize, n: usize) -> usize
    requires { at < room_of (length arena.now) }
    ensures { HeadAt arena.now at n result }
{
    let p = arena::link_at(arena, at, END);
    if p <= n { p } else { 0 }
}

fn same_sizes(arena: &[u8], i: usize, long: u64, wide: u64) -> bool
    requires { i < room_of (length arena.now) }
    ensures { SameSizes arena.now i long wide result }
{
    arena::size_at(arena, i, 0) == long && arena::size_at(arena, i, 1) == wide
}

// A record with these sizes in the class from `start` up to n, which is not entered yet, if there is one.
pub fn find_size(arena: &[u8], start: usize, n: usize, long: u64, wide: u64) -> Option<usize>
    requires { Seekable arena.now start n long wide }
    ensures { SoughtIn arena.now start n long wide result }
{
    if n == start {
        return None;
    }
    let room = arena::room(arena.len());
    let mut p = head_at(arena, place(start, room, long, wide), n);
    // The links of a chain stand in the lent arena, the only memory: no iterator of std goes along them.
    while start < p {
        let i = p - 1;
        if same_sizes(arena, i, long, wide) {
            return Some(i);
        }
        p = arena::link_at(arena, i, CHAIN);
    }
    None
}

// Lets record n be found by its sizes.
fn note(arena: &mut [u8], start: usize, n: usize)
    requires { Notable arena.old start n }
    ensures { Noted start n arena.old arena.new }
{
    let room = arena::room(arena.len());
    let long = arena::size_at(arena, n, 0);
    let wide = arena::size_at(arena, n, 1);
    let at = place(start, room, long, wide);
    let was = head_at(arena, at, n);
    arena::put_link(arena, n, CHAIN, was);
    arena::put_link(arena, at, END, n + 1);
}

// Writes record n behind those of the class from `start` on, which is not entered yet, so that it is found by its sizes.
pub fn append(arena: &mut [u8], start: usize, n: usize, build: Record)
    requires { Appendable arena.old start n build }
    ensures { Appended start n build arena.old arena.new }
{
    let head = arena::link_at(arena, n, HEAD);
    let end = arena::link_at(arena, n, END);
    arena::store(arena, n, build);
    arena::put_link(arena, n, HEAD, head);
    arena::put_link(arena, n, END, end);
    note(arena, start, n);
}
