// Sums over lists of any length: products of two lists' values added up, and a bound on a list's
// values, by which a caller knows that such a sum fits.
#![tactic(auto)]

ghost use Rattle.std.specs.Prelude.{◌≡◌, ◌^◌, ◌<◌, ◌≤◌, length};
ghost use Rattle.sums.specs.Sums.{weighted, all_at_most};

// Each value times the weight at its place, added up. Weights past the last value count for nothing.
#[tactic(auto, using(crate::proofs::Steps::weighted_here, crate::proofs::Steps::weighted_end))]
pub fn weighted_sum(weights: &[u32], values: &[u32]) -> u64
    requires { (length values.now ≤ length weights.now) × (weighted weights.now values.now < 2 ^ 64) }
    ensures { result ≡ weighted weights.now values.now }
{
    let mut sum: u64 = 0;
    for (i, &value) in values.iter().enumerate() {
        sum += u64::from(weights[i]) * u64::from(value);
    }
    sum
}

pub fn all_at_most(most: u32, values: &[u32]) -> bool
    ensures { result ≡ all_at_most most values.now }
{
    values.iter().all(|&value| value <= most)
}
