// Logged blocks, EQ34 and EQ48: the long-term average carbon stock, and whether it limits term 4. In
// whole numbers throughout: the test is made without a quotient.
#![tactic(auto)]

ghost use Rattle.std.specs.Prelude.{◌≡◌, true, ◌+◌, ◌*◌, ◌/◌, ◌≤◌, length, leb};
ghost use Rattle.words.specs.Answers.{outcome, answer_with};
ghost use Rattle.sums.specs.Sums.{products, sum};
ghost use Rattle.logging.specs.Logging.{each_year, most_years, figures_of, sizes_valid, tables_checked, no_figures, logged};
ghost use Rattle.logging.specs.Bounds.{Accepted, most_densities, most_stock, most_area, most_left, Discounted};

use words::{Reason, Refusal, need};

const MOST_YEARS: u32 = 100;

const MOST_STRATA: u32 = 8;

const MOST_VALUE: u32 = 10_000; // of a density, an area or a discount

const MOST_DENSITIES: usize = 808; // of years 0 to 100 in 8 strata

// What the test of logged blocks answers: the average in tenths of t C per ha, rounded down, and
// whether the left side of EQ48 is at least its right.
#[derive(Clone, Copy, Debug, PartialEq, Eq)]
pub struct LoggedFigures {
    pub average: u32,
    pub holds: bool,
}

// The tables of years 0 or 1 to `years`, none of them refused. Each stratum has a discount.
#[derive(Clone, Copy, Debug, PartialEq, Eq)]
struct Tables<'a> {
    years: u32,
    densities: &'a [u32],
    areas: &'a [u32],
    discounts: &'a [u32],
    ghost accepted: { Accepted years densities.now areas.now discounts.now },
}

// Whether tables of these lengths are those of so many years and strata: no product before both are in range.
#[tactic(auto, unfolding(crate::specs::Logging::sizes_valid, words::specs::Bits::within))]
fn sizes_valid(years: u32, strata: u32, densities: usize, areas: usize, discounts: usize) -> bool
    ensures { result ≡ sizes_valid years strata densities areas discounts }
{
    let in_range = (1 <= years) & (years <= MOST_YEARS) & ((1 <= strata) & (strata <= MOST_STRATA));
    if !in_range {
        return false;
    }
    let (t, n) = (years as usize, strata as usize);
    (densities == (t + 1) * n) & (areas == t * n) & (discounts == n)
}

// Numbers 21 and 22.
fn check(
    years: u32,
    strata: u32,
    densities: &[u32],
    areas: &[u32],
    discounts: &[u32],
) -> Result<(), Refusal>
    ensures { outcome result ≡ tables_checked years strata densities.now areas.now discounts.now }
{
    let sizes = sizes_valid(years, strata, densities.len(), areas.len(), discounts.len());
    need(sizes, Reason::LoggedSizes, 0)?;
    let valid = sums::all_at_most(MOST_VALUE, densities);
    need(valid, Reason::LoggedValueTooLarge, 0)?;
    let valid = sums::all_at_most(MOST_VALUE, areas);
    need(valid, Reason::LoggedValueTooLarge, 1)?;
    let valid = sums::all_at_most(MOST_VALUE, discounts);
    need(valid, Reason::LoggedValueTooLarge, 2)
}

// The figures by three sums: of all discounted densities, of all areas, and of each area times the discounted
// density of its year and stratum. The test is that of the fractions, times 10,000 and T.
fn figures_from(years: u32, stock: u64, area: u64, left: u64) -> LoggedFigures
    requires { (1 ≤ years) × (years ≤ most_years) × (stock ≤ most_stock) × (area ≤ most_area) × (left ≤ most_left) }
    ensures average { result.average ≡ stock / (10000 * years) }
    ensures holds { result.holds ≡ leb (area * stock) (years * left) }
{
    let t = u64::from(years);
    LoggedFigures {
        average: (stock / (10_000 * t)) as u32,
        holds: area * stock <= t * left,
    }
}

// The sum of a table's values: each counts once.
#[tactic(auto, using(crate::proofs::Bounds::weighted_by_ones, crate::proofs::Bounds::ones_fit))]
fn sum(values: &[u32]) -> u64
    requires { length values.now ≤ most_densities }
    ensures { result ≡ sum values.now }
{
    sums::weighted_sum(&[1; MOST_DENSITIES], values)
}

impl Tables<'_> {
    // Writes each density times the discount of its stratum, from year 0 on.
    fn discount_densities(&self, discounted: &mut [u32])
        requires { length discounted.old ≡ length self.now.densities.now }
        ensures { discounted.new ≡ products (each_year (self.now.years + 1) self.now.discounts.now) self.now.densities.now }
    {
        let strata = self.discounts.len();
        for (k, &density) in self.densities.iter().enumerate() {
            discounted[k] = density * self.discounts[k % strata];
        }
    }

    // The figures by the discounted densities: those of years 1 to T stand behind those of year 0.
    #[tactic(auto, using(crate::proofs::Bounds::bounds))]
    fn figures(&self, discounted: &[u32]) -> LoggedFigures
        requires { Discounted self.now.years self.now.densities.now self.now.discounts.now discounted.now }
        ensures { result ≡ figures_of self.now.years self.now.densities.now self.now.areas.now self.now.discounts.now }
    {
        let stock = sum(discounted);
        let area = sum(self.areas);
        let left = sums::weighted_sum(self.areas, &discounted[self.discounts.len()..]);
        figures_from(self.years, stock, area, left)
    }
}

// The long-term average of logged blocks and the test by it, or why the numbers and tables are refused: T,
// the number of strata, densities of years 0 to T, areas of years 1 to T, and discounts.
pub fn logged(
    years: u32,
    strata: u32,
    densities: &[u32],
    areas: &[u32],
    discounts: &[u32],
) -> Result<LoggedFigures, Refusal>
    ensures { answer_with no_figures result ≡ logged years strata densities.now areas.now discounts.now }
{
    check(years, strata, densities, areas, discounts)?;
    let tables = Tables {
        years,
        densities,
        areas,
        discounts,
    };
    let mut buffer = [0u32; MOST_DENSITIES];
    let discounted = &mut buffer[..densities.len()];
    tables.discount_densities(discounted);
    Ok(tables.figures(discounted))
}
