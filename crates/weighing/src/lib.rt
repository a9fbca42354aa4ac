// What the numbers of a key weigh together, and the bucket that a weight falls into. Whoever finds something through buckets calls this crate: a class by its counts, an outline of a class by its two sizes.
// Weights add up as the numbers do: where one count goes up by a piece the weight goes up by that piece's, and what is left of some counts weighs what they weigh less the part.
#![tactic(auto)]

ghost use Rattle.std.specs.Prelude.{◌≡◌, ◌*◌, ◌≤◌, ◌<◌, take};
ghost use Rattle.rules.specs.Limits.{types_most, records_most};
ghost use Rattle.weighing.specs.Weights.{weight_most, next_weight, weighed, spread, key_most};

use shapes::TYPES_MOST;

// What one unit of a key's first number weighs; each number behind it weighs so many times as much, as far as weights go. Both are odd and large, so that keys spread over the buckets.
pub const FIRST_WEIGHT: u64 = 2_654_435_769;

const FACTOR: u64 = 2_246_822_519;

const WEIGHT_MOST: u64 = 4_294_967_296;

// What a unit of the next number of a key weighs.
pub fn next_weight(weight: u64) -> u64
    requires { weight < weight_most }
    ensures { (result ≡ next_weight weight) × (result < weight_most) }
{
    weight * FACTOR % WEIGHT_MOST
}

// What these counts weigh, for a job of so many types.
pub fn weight_of(counts: [u8; TYPES_MOST], types: usize) -> u64
    requires { types ≤ types_most }
    ensures { (result ≡ weighed 0 (take types counts)) × (result ≤ types * key_most) }
{
    let mut sum: u64 = 0;
    let mut each = FIRST_WEIGHT;
    for i in 0..types {
        sum += u64::from(counts[i]) * each;
        each = next_weight(each);
    }
    sum
}

// As far among so many buckets as the weight is in its range.
pub fn bucket(weight: u64, buckets: usize) -> usize
    requires { (0 < buckets) × (buckets ≤ records_most) }
    ensures { (result ≡ spread buckets weight) × (result < buckets) }
{
    (weight % WEIGHT_MOST * buckets as u64 / WEIGHT_MOST) as usize
}
