// The discount of two classes, EQ15 and EQ16: from the half-widths and the stocks of their carbon
// pools to ten-thousandths, in whole numbers throughout.
#![tactic(auto)]

ghost use Rattle.std.specs.Prelude.{◌≡◌, true, ◌+◌, ◌*◌, ◌/◌, ◌<◌, ◌≤◌, length, MatchOption};
ghost use Rattle.words.specs.Answers.{amount};
ghost use Rattle.sums.specs.Sums.{weighted};
ghost use Rattle.discount.specs.Discount.{discount, lengths_valid, factor, rounded_down};
ghost use Rattle.discount.specs.Bounds.{pool_valid, most_stock, most_squares, root_limit, Bounded, TooLarge, StockSums};

use words::{Reason, Refusal, need, refuse};

const MOST_POOLS: usize = 5;

const MOST_VALUE: u32 = 20_000; // of a value, in tenths of t CO2e per ha

// Four lists with one value for each of one to five carbon pools.
#[derive(Clone, Copy, Debug, PartialEq, Eq)]
struct Pools<'a> {
    first_widths: &'a [u32],
    second_widths: &'a [u32],
    first_stocks: &'a [u32],
    second_stocks: &'a [u32],
    ghost lengths: { lengths_valid (length first_widths.now) (length second_widths.now) (length first_stocks.now) (length second_stocks.now) ≡ true },
}

// The sums of both classes' stocks.
#[derive(Clone, Copy, Debug, PartialEq, Eq)]
struct StockTotals {
    first: u64,
    second: u64,
}

// Whether four lists of these lengths have one value for each of one to five carbon pools.
#[tactic(auto, unfolding(crate::specs::Discount::lengths_valid, words::specs::Bits::within))]
fn lengths_valid(a: usize, b: usize, c: usize, d: usize) -> bool
    ensures { result ≡ lengths_valid a b c d }
{
    (a == b) & (a == c) & (a == d) & ((1 <= a) & (a <= MOST_POOLS))
}

// Whether the values of one carbon pool in the four lists are not too large.
#[tactic(auto, unfolding(crate::specs::Bounds::pool_valid))]
fn pool_valid(a: u32, b: u32, c: u32, d: u32) -> bool
    ensures { result ≡ pool_valid a b c d }
{
    (a <= MOST_VALUE) & (b <= MOST_VALUE) & (c <= MOST_VALUE) & (d <= MOST_VALUE)
}

// The sum of a list's squares.
#[tactic(auto, using(crate::proofs::Bounds::squares_le))]
fn sum_of_squares(widths: &[u32]) -> u64
    requires { Bounded widths.now }
    ensures { (result ≡ weighted widths.now widths.now) × (result ≤ most_squares) }
{
    sums::weighted_sum(widths, widths)
}

impl Pools<'_> {
    // Adds up the stocks of both classes, and tests every value of the four lists, pool by pool: no
    // sums where one is too large.
    #[tactic(auto, using(crate::proofs::Bounds::lengths, crate::proofs::Passed::pools))]
    fn stock_sums(&self) -> Option<StockTotals>
        ensures { MatchOption result
            (TooLarge self.now.first_widths.now self.now.second_widths.now self.now.first_stocks.now self.now.second_stocks.now)
            (λ sums. StockSums self.now.first_widths.now self.now.second_widths.now self.now.first_stocks.now self.now.second_stocks.now sums.first sums.second) }
    {
        let mut first: u64 = 0;
        let mut second: u64 = 0;
        for i in 0..self.first_widths.len() {
            let a = self.first_stocks[i];
            let b = self.second_stocks[i];
            if !pool_valid(self.first_widths[i], self.second_widths[i], a, b) {
                return None;
            }
            first += u64::from(a);
            second += u64::from(b);
        }
        Some(StockTotals { first, second })
    }

    // The answer to four lists of which one at least has a value that is too large: the first such list.
    #[tactic(auto, using(words::proofs::Answers::answers), unfolding(crate::specs::Discount::discount))]
    fn refuse_value(&self) -> Result<u32, Refusal>
        requires { TooLarge self.now.first_widths.now self.now.second_widths.now self.now.first_stocks.now self.now.second_stocks.now }
        ensures { amount result ≡ discount self.now.first_widths.now self.now.second_widths.now self.now.first_stocks.now self.now.second_stocks.now }
    {
        let valid = sums::all_at_most(MOST_VALUE, self.first_widths);
        need(valid, Reason::ValueTooLarge, 0)?;
        let valid = sums::all_at_most(MOST_VALUE, self.second_widths);
        need(valid, Reason::ValueTooLarge, 1)?;
        let valid = sums::all_at_most(MOST_VALUE, self.first_stocks);
        need(valid, Reason::ValueTooLarge, 2)?;
        refuse(Reason::ValueTooLarge, 3)
    }
}

// One step of Newton's towards the root of n, from any r above 0.
#[tactic(auto, using(crate::proofs::Newton::steps))]
fn newton_step(n: u32, r: u32) -> u32
    requires { (n ≤ root_limit) × (0 < r) × (r ≤ root_limit) }
    ensures { result ≡ (r + n / r) / 2 }
{
    (r + n / r) / 2
}

// The root of n, rounded down. A discount asks for no n below 2,250,000; of those from there on one
// in a hundred takes a fourth step: the loop goes by no index. By the library's `isqrt` a discount takes half
// as long again.
#[tactic(auto, using(crate::proofs::Newton::steps))]
fn root(n: u32) -> u32
    requires { n < root_limit }
    ensures { (result * result ≤ n) × (n < (result + 1) * (result + 1)) }
{
    let middle = if n < 16_000_000 { 2_500 } else { 6_500 };
    let mut r = newton_step(n, newton_step(n, newton_step(n, middle)));
    while u64::from(n) < u64::from(r) * u64::from(r) {
        r = newton_step(n, r);
    }
    r
}

// 10,000 × √q / d rounded up is one more than the root of what is just below its square, rounded
// down: the square's whole part, and one less where the square is whole.
#[tactic(auto, using(crate::proofs::Bounds::square_le, crate::proofs::Rounded::roots))]
fn rounded_down(q: u64, d: u64) -> u32
    requires { (d ≤ most_stock) × (0 < q) × (q < d * d) }
    ensures { result ≡ rounded_down q d }
{
    9_999 - root(((100_000_000 * q - 1) / (d * d)) as u32)
}

#[tactic(auto, using(crate::proofs::Meaning::cases, crate::proofs::Bounds::nine_fits))]
fn factor(q: u64, d: u64) -> u32
    requires { (q ≤ 2 * most_squares) × (d ≤ most_stock) }
    ensures { result ≡ factor q d }
{
    if d == 0 {
        return 0;
    }
    if 400 * q <= 9 * d * d {
        return 10_000;
    }
    if d * d <= q {
        return 0;
    }
    rounded_down(q, d)
}

// The discount of two classes in ten-thousandths, or why the lists are refused and which: each list
// has one value for each carbon pool. Four parameters, since C gives four lists.
#[tactic(auto, using(words::proofs::Answers::answers, crate::proofs::Bounds::distance_le), unfolding(crate::specs::Discount::discount))]
pub fn discount(
    first_widths: &[u32],
    second_widths: &[u32],
    first_stocks: &[u32],
    second_stocks: &[u32],
) -> Result<u32, Refusal>
    ensures { amount result ≡ discount first_widths.now second_widths.now first_stocks.now second_stocks.now }
{
    let lengths = lengths_valid(
        first_widths.len(),
        second_widths.len(),
        first_stocks.len(),
        second_stocks.len(),
    );
    need(lengths, Reason::ListLengths, 0)?;
    let pools = Pools {
        first_widths,
        second_widths,
        first_stocks,
        second_stocks,
    };
    let Some(stocks) = pools.stock_sums() else {
        return pools.refuse_value();
    };
    let q = sum_of_squares(first_widths) + sum_of_squares(second_widths);
    let d = stocks.first.abs_diff(stocks.second);
    Ok(factor(q, d))
}
