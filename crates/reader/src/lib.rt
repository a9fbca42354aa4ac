// A number at a place of a text, and a small reader that holds the text and the place.
// The crate `reading` walks the sections of a text with it. It promises the number that stands at a place, with the place behind it,
// or the place where the text leaves the grammar.
#![tactic(auto)]

ghost use Rattle.std.specs.Prelude.{◌≡◌, ◌&&◌, ◌-◌, ◌≤◌, ◌<◌, MatchResult, OnErr};
ghost use Rattle.rules.proofs.Reading.{is_digit, room};
ghost use Rattle.shapes.specs.declared.Refusal.TheVariants.{NotInGrammar};
ghost use Rattle.reader.specs.Number.{number_at};

use shapes::{DIGITS_MOST, Refusal};

// What ends a number.
pub const SPACE: u8 = b' ';

pub const LF: u8 = b'\n';

// A text leaves the grammar at this place: refusal 1.
#[derive(Clone, Copy, Debug, PartialEq, Eq)]
pub struct Stray {
    pub place: usize,
}

impl From<Stray> for Refusal {
    ghost from_gives = { λ stray refusal. refusal ≡ NotInGrammar stray.place };

    fn from(stray: Stray) -> Refusal {
        Refusal::NotInGrammar(stray.place)
    }
}

// Whether the byte is a digit that may come after so many digits with this value.
fn may_follow(b: u8, digits: usize, value: u64) -> bool
    ensures { result ≡ (is_digit b && room digits value) }
{
    b.is_ascii_digit() && (digits == 0 || 0 < value && digits < DIGITS_MOST)
}

fn digit(b: u8) -> u64
    requires { (48 ≤ b) × (b < 58) }
    ensures { result ≡ b - 48 }
{
    u64::from(b - b'0')
}

// The number that begins at `from` and is ended by the byte `end`, with the position behind it, or the place where the text leaves the grammar.
pub fn number_at(text: &[u8], from: usize, end: u8) -> Result<(u64, usize), Stray>
    ensures { result ≡ number_at end text.now from }
{
    let mut digits = 0;
    let mut value = 0;
    for at in from..text.len() {
        let b = text[at];
        if may_follow(b, digits, value) {
            value = value * 10 + digit(b);
            digits += 1;
        } else if b == end && 0 < digits {
            return Ok((value, at + 1));
        } else {
            return Err(Stray { place: at });
        }
    }
    let place = text.len().max(from);
    Err(Stray { place })
}

// The one reading position, with the text that it walks.
#[derive(Clone, Copy)]
pub struct Reader<'a> {
    pub text: &'a [u8],
    pub at: usize,
}

impl<'a> Reader<'a> {
    // At the front of a text.
    pub fn new(text: &'a [u8]) -> Reader<'a>
        ensures { (result.text ≡ text.entry) × (result.at ≡ 0) }
    {
        Reader { text, at: 0 }
    }

    // The reader at another place of its text.
    pub fn moved(self, to: usize) -> Reader<'a>
        ensures { (result.text ≡ self.entry.text) × (result.at ≡ to) }
    {
        Reader {
            text: self.text,
            at: to,
        }
    }

    // Reads the number that begins here and is ended by the byte `end`, and stands behind it then. It stays where it is if there is none.
    pub fn number(&mut self, end: u8) -> Result<u64, Stray>
        ensures text { self.new.text ≡ self.old.text }
        ensures number { MatchResult result (λ n. number_at end self.old.text.now self.old.at ≡ Ok (n, self.new.at)) (λ stray. number_at end self.old.text.now self.old.at ≡ Err stray) }
        ensures stays { OnErr result (self.new ≡ self.old) }
    {
        let (number, next) = number_at(self.text, self.at, end)?;
        self.at = next;
        Ok(number)
    }

    // A count is ended by LF.
    pub fn count(&mut self) -> Result<u64, Stray>
        ensures text { self.new.text ≡ self.old.text }
        ensures number { MatchResult result (λ n. number_at 10 self.old.text.now self.old.at ≡ Ok (n, self.new.at)) (λ stray. number_at 10 self.old.text.now self.old.at ≡ Err stray) }
        ensures stays { OnErr result (self.new ≡ self.old) }
    {
        self.number(LF)
    }
}
