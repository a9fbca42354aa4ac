// Records of 32 bytes in the lent arena: an outline, and how it was made.
// Whoever lists, chooses or unfolds outlines calls this crate, and speaks of records from here on: the bytes of the arena are nobody else's.
// Bytes 0 to 11 hold the counts, then two bytes each the length, the width and the two halves, one byte how it was made; from byte 22 on stand five links,
// numbers of two bytes that whoever lists outlines keeps there. A record that is written has links 0.
#![tactic(auto)]

ghost use Rattle.std.specs.Prelude.{◌≡◌, true, List, ℕ, ◌+◌, ◌*◌, ◌≤◌, ◌<◌, ◌-◌, length, get_or, take, replicate};
ghost use Rattle.rules.specs.Limits.{record_bytes, types_most};
ghost use Rattle.rules.specs.Bag.{sum};
ghost use Rattle.rules.specs.Job.{plus};
ghost use Rattle.rules.specs.Planner.{room_of};
ghost use Rattle.rules.proofs.Outlines.{same_list, at_most};
ghost use Rattle.rules.proofs.Classes.{one_more};
ghost use Rattle.tally.specs.Bounds.{byte_most, counts_most, BoundsOf};
ghost use Rattle.outline.specs.Stands.{Sized, two_bytes};
ghost use Rattle.arena.specs.Bytes.{word, put_word, chunk, behind, link_of, how_of, encode, decode};
ghost use Rattle.arena.specs.Records.{record_at, size_of, link_at, links_most, Storable, StoredAlone, Loaded, Linkable, Linked};

use outline::{Across, Along, Outline, Way};
use shapes::{RECORD_BYTES, RECORDS_MOST, TYPES_MOST};
use tally::BOUNDS;

// A piece of a type, numbered from 1, or a join of two records that stand before.
#[derive(Clone, Copy, Debug, PartialEq, Eq)]
pub enum How {
    Piece(usize),
    Joined(Way, usize, usize),
}

#[derive(Clone, Copy, Debug, PartialEq, Eq)]
pub struct Record {
    pub outline: Outline,
    pub how: How,
}

// Where the fields of a record stand, behind its counts.
const LENGTH_AT: usize = 12;

const WIDTH_AT: usize = 14;

const FIRST_AT: usize = 16;

const SECOND_AT: usize = 18;

const KIND_AT: usize = 20;

const LINKS_AT: usize = 22;

// `How` as the bytes of a record hold it: kind 0 for a piece, 1 for a join beside, 2 for a join above; a record has 32 bytes.
#[derive(Clone, Copy, Debug, PartialEq, Eq)]
pub struct Link {
    pub kind: u8,
    pub first: usize,
    pub second: usize,
}

impl From<How> for Link {
    ghost from_gives = { λ how link. link ≡ link_of how };

    fn from(how: How) -> Link {
        match how {
            How::Piece(t) => Link {
                kind: 0,
                first: t,
                second: 0,
            },
            How::Joined(Way::Beside, a, b) => Link {
                kind: 1,
                first: a,
                second: b,
            },
            How::Joined(Way::Above, a, b) => Link {
                kind: 2,
                first: a,
                second: b,
            },
        }
    }
}

impl From<Link> for How {
    ghost from_gives = { λ link how. how ≡ how_of link };

    fn from(link: Link) -> How {
        match link.kind {
            0 => How::Piece(link.first),
            1 => How::Joined(Way::Beside, link.first, link.second),
            _ => How::Joined(Way::Above, link.first, link.second),
        }
    }
}

// Two bytes, the low one first.
fn get(s: &[u8], at: usize) -> u16
    requires { at + 1 < length s.now }
    ensures { result ≡ word s.now at }
{
    u16::from_le_bytes([s[at], s[at + 1]])
}

fn put(s: &mut [u8], at: usize, v: u16)
    requires { at + 1 < length s.old }
    ensures { s.new ≡ put_word s.old at v }
{
    let bytes = v.to_le_bytes();
    s[at] = bytes[0];
    s[at + 1] = bytes[1];
}

// '"Zeros" means every byte lent.'
pub fn zero(s: &mut [u8])
    ensures { s.new ≡ replicate (length s.old) 0 }
{
    s.fill(0);
}

// "Its room is its length divided by 32, rounded down, and at most 65,535 records."
pub fn room(bytes: usize) -> usize
    ensures { result ≡ room_of bytes }
{
    (bytes / RECORD_BYTES).min(RECORDS_MOST)
}

// The bytes of record i: the first of them are its counts.
fn bytes_at(arena: &[u8], i: usize) -> &[u8; RECORD_BYTES]
    requires { i < room_of (length arena.now) }
    ensures bytes { result.now ≡ chunk arena.now i }
    ensures counts { take types_most result.now ≡ (record_at arena.now i).outline.counts }
{
    let at = i * RECORD_BYTES;
    (&arena[at..at + RECORD_BYTES]).try_into().unwrap()
}

// What stands behind the counts.
fn write_behind(s: &mut [u8], along: u16, across: u16, link: Link)
    requires { (length s.old ≡ record_bytes - types_most) × (link.first < two_bytes) × (link.second < two_bytes) }
    ensures { s.new ≡ behind along across link }
{
    put(s, 0, along);
    put(s, 2, across);
    put(s, 4, link.first as u16);
    put(s, 6, link.second as u16);
    s[8] = link.kind;
    zero(&mut s[9..]);
}

fn write(s: &mut [u8], r: Record)
    requires { (length s.old ≡ record_bytes) × Sized r.outline × ((link_of r.how).first < two_bytes) × ((link_of r.how).second < two_bytes) }
    ensures { s.new ≡ encode r }
{
    s[..TYPES_MOST].copy_from_slice(&r.outline.counts);
    write_behind(
        &mut s[TYPES_MOST..],
        r.outline.length.0 as u16,
        r.outline.width.0 as u16,
        Link::from(r.how),
    );
}

fn read(s: &[u8; RECORD_BYTES]) -> Record
    ensures { Loaded (decode s.now) result }
{
    Record {
        outline: Outline {
            length: Along(u64::from(get(s, LENGTH_AT))),
            width: Across(u64::from(get(s, WIDTH_AT))),
            counts: tally::counts_of(s),
        },
        how: How::from(Link {
            kind: s[KIND_AT],
            first: usize::from(get(s, FIRST_AT)),
            second: usize::from(get(s, SECOND_AT)),
        }),
    }
}

// Writes record i.
pub fn store(arena: &mut [u8], i: usize, r: Record)
    requires { Storable arena.old i r }
    ensures { StoredAlone i r arena.old arena.new }
{
    let at = i * RECORD_BYTES;
    write(&mut arena[at..at + RECORD_BYTES], r);
}

// Reads record i.
pub fn load(arena: &[u8], i: usize) -> Record
    requires { i < room_of (length arena.now) }
    ensures { Loaded (record_at arena.now i) result }
{
    read(bytes_at(arena, i))
}

// Reads link k of record i.
pub fn link_at(arena: &[u8], i: usize, k: usize) -> usize
    requires { (i < room_of (length arena.now)) × (k < links_most) }
    ensures { (result ≡ link_at arena.now i k) × (result < two_bytes) }
{
    usize::from(get(arena, i * RECORD_BYTES + LINKS_AT + 2 * k))
}

// Writes link k of record i: no record, and no other link, is touched.
pub fn put_link(arena: &mut [u8], i: usize, k: usize, v: usize)
    requires { Linkable arena.old i k v }
    ensures { Linked i k v arena.old arena.new }
{
    put(arena, i * RECORD_BYTES + LINKS_AT + 2 * k, v as u16);
}

// The size of record i in a way: its length for 0, its width for 1. Ways are numbers here, since link 0 or 1 of a class's slots holds the order of that size.
pub fn size_at(arena: &[u8], i: usize, way: usize) -> u64
    requires { (i < room_of (length arena.now)) × (way < 2) }
    ensures { (result ≡ size_of way (record_at arena.now i).outline) × (result < two_bytes) }
{
    u64::from(get(arena, i * RECORD_BYTES + LENGTH_AT + 2 * way))
}

// Record i has these counts, for a job of so many types.
pub fn counts_at(arena: &[u8], i: usize, counts: &[u8; TYPES_MOST], types: usize) -> bool
    requires { (i < room_of (length arena.now)) × (types ≤ types_most) }
    ensures { result ≡ same_list (take types counts.now) (take types (record_at arena.now i).outline.counts) }
{
    tally::same_counts(bytes_at(arena, i), counts, types)
}

// The count of type t, counted from 0, in record i.
pub fn count_at(arena: &[u8], i: usize, t: usize) -> u8
    requires { (i < room_of (length arena.now)) × (t < types_most) }
    ensures { result ≡ get_or (record_at arena.now i).outline.counts t 0 }
{
    arena[i * RECORD_BYTES + t]
}

// Record i has no more of any type than the counts that these bounds are of.
pub fn within_at(arena: &[u8], i: usize, bounds: [u8; BOUNDS]) -> bool
    requires { i < room_of (length arena.now) }
    ensures { (types : ℕ) (c : List ℕ) → BoundsOf types c bounds → result ≡ at_most (take types (record_at arena.now i).outline.counts) (take types c) }
{
    tally::within(bytes_at(arena, i), bounds)
}

// What is left of these counts when those of record i are taken away, for a job of so many types.
pub fn rest_at(arena: &[u8], i: usize, counts: [u8; TYPES_MOST], types: usize) -> [u8; TYPES_MOST]
    requires { (i < room_of (length arena.now)) × (types ≤ types_most) × (at_most (take types (record_at arena.now i).outline.counts) (take types counts) ≡ true) }
    ensures { plus (take types (record_at arena.now i).outline.counts) (take types result) ≡ take types counts }
{
    tally::rest(bytes_at(arena, i), counts, types)
}

// The number of pieces of record i, for a job of so many types.
pub fn pieces_at(arena: &[u8], i: usize, types: usize) -> usize
    requires { (i < room_of (length arena.now)) × (types ≤ types_most) }
    ensures { (result ≡ sum (take types (record_at arena.now i).outline.counts)) × (result ≤ counts_most) }
{
    tally::pieces(bytes_at(arena, i), types)
}

// The counts of record i with one piece more of type t, counted from 0, for a job of so many types.
pub fn more_at(arena: &[u8], i: usize, t: usize, types: usize) -> [u8; TYPES_MOST]
    requires { (i < room_of (length arena.now)) × (types ≤ types_most) × (t < types) × (get_or (record_at arena.now i).outline.counts t 0 < byte_most) }
    ensures { take types result ≡ one_more t (take types (record_at arena.now i).outline.counts) }
{
    let mut r = tally::counts_of(bytes_at(arena, i));
    r[t] += 1;
    r
}
