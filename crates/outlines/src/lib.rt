// What listing all outlines of a job leaves in the lent arena, and whether they found room there.
// `listing` makes the list, `planning` reads it; both speak of it in the words of specs/Listing.
#![tactic(auto)]

ghost use Rattle.std.specs.Prelude.{◌≡◌};
ghost use Rattle.shapes.specs.declared.Refusal.TheVariants as refusals;

use shapes::Refusal;

// There are more outlines than the arena has room for: refusal 4.
#[derive(Clone, Copy, Debug, PartialEq, Eq)]
pub struct ArenaFull;

impl From<ArenaFull> for Refusal {
    ghost from_gives = { λ _ refusal. refusal ≡ refusals.ArenaFull };

    fn from(_full: ArenaFull) -> Refusal {
        Refusal::ArenaFull
    }
}
