// A cell's year: what burns, what oxidises, and what both emit.
#![tactic(auto)]

ghost use Rattle.std.specs.Prelude.{◌≡◌, ◌+◌, ◌-◌, ◌^◌, ◌<◌, ◌≤◌, min};
ghost use Rattle.fields.specs.Valid.{HeadValid, RowValid};
ghost use Rattle.year.specs.Year.{unconverted, inactive, drained, burned_by, oxidised_by, burned_weight, emission, kg_of, mm_of, loss_of, no_loss, opened, after_loss, planned, marked, most_loss};
ghost use Rattle.year.specs.Limits.{WithinLimits};

use fields::{Cell, Head, Row};

// What K times the weights of all mm lost is divided by.
const EMISSION_DIVISOR: u64 = 3_000_000_000;

// `h` and `c` are two parameters throughout: the head is the listing's, read once for all cells, and a pair
// of both, with `WithinLimits` as its fact, would have to be tied to the listing again wherever it is made.

// What the book holds of a cell: its mark, its plan year, and the mm lost to date. A plan year of 0 is
// none, as its word has it, and as C gives it and is told.
#[derive(Debug, Clone, Copy, PartialEq, Eq, Default)]
pub struct Entry {
    pub withdrawn: bool,
    pub plan: u32,
    pub oxidised: u32,
    pub burned: u32,
}

// Mm lost of a cell, in a year before its kg are worked out, or to date.
#[derive(Debug, Clone, Copy, PartialEq, Eq)]
pub struct LostMm {
    pub oxidised: u32,
    pub burned: u32,
}

// What a cell loses in a year: mm, mm and kg, as its three lines say.
#[derive(Debug, Clone, Copy, PartialEq, Eq, Default)]
pub struct Loss {
    pub oxidised: u32,
    pub burned: u32,
    pub kg: u32,
}

// The entry of a cell that was opened with a plan year.
pub fn opened(plan: u32) -> Entry
    ensures { result ≡ opened plan }
{
    Entry {
        plan,
        ..Entry::default()
    }
}

// The entry after a loss.
pub fn after_loss(e: Entry, s: Loss) -> Entry
    requires { (e.oxidised + s.oxidised < 2 ^ 32) × (e.burned + s.burned < 2 ^ 32) }
    ensures { result ≡ after_loss e s }
{
    Entry {
        oxidised: e.oxidised + s.oxidised,
        burned: e.burned + s.burned,
        ..e
    }
}

// The entry with another plan year.
pub fn planned(e: Entry, plan: u32) -> Entry
    ensures { result ≡ planned e plan }
{
    Entry { plan, ..e }
}

// The entry with the mark of a withdrawn cell.
pub fn marked(e: Entry) -> Entry
    ensures { result ≡ marked e }
{
    Entry {
        withdrawn: true,
        ..e
    }
}

// Whether a plan year is 0 or above `year`.
#[tactic(auto, unfolding(crate::specs::Year::unconverted))]
pub fn unconverted(plan: u32, year: u32) -> bool
    ensures { result ≡ unconverted plan year }
{
    (plan == 0) | (year < plan)
}

// Whether a cell loses nothing in `year`.
#[tactic(auto, unfolding(crate::specs::Year::inactive))]
pub fn inactive(h: Head, c: Cell, e: Entry, year: u32) -> bool
    ensures { result ≡ inactive h c e year }
{
    e.withdrawn | (unconverted(e.plan, year) | (c.entered < h.thickness))
}

// d: the mm from the surface at the start of the year down to the water, 0 where the surface has sunk to the
// water or below. The table counts from the surface at conversion, which has sunk by what was lost.
fn drained(r: Row, e: Entry) -> u32
    requires { RowValid r × (e.oxidised + e.burned < 2 ^ 32) }
    ensures { result ≡ drained r e.oxidised e.burned }
{
    (10 * r.drainage).saturating_sub(e.oxidised + e.burned)
}

// What burns of `remaining` mm: the guard above the water stays.
#[tactic(auto, unfolding(crate::specs::Year::burned_by))]
fn burned_by(guard: u32, d: u32, b: u32, remaining: u32) -> u32
    ensures { result ≡ burned_by guard d b remaining }
{
    b.min(remaining.min(d.saturating_sub(guard)))
}

// What oxidises of what the fire leaves, down to the water.
#[tactic(auto, unfolding(crate::specs::Year::oxidised_by))]
fn oxidised_by(d: u32, o: u32, remaining: u32, burned: u32) -> u32
    requires { (burned ≤ remaining) × (burned ≤ d) }
    ensures { result ≡ oxidised_by d o remaining burned }
{
    o.min(remaining.min(d) - burned)
}

// The weight of a burned mm in an emission: the CO2 of what is not left as char, and the methane.
#[tactic(auto, unfolding(crate::specs::Year::burned_weight))]
fn burned_weight(h: Head) -> u64
    requires { HeadValid h }
    ensures { result ≡ burned_weight h }
{
    1_100_000 - 11_000 * u64::from(h.char) + 400 * u64::from(h.warming) * u64::from(h.methane)
}

// The emission to date of so much oxidised and burned, in kg. The products are made in u64.
#[tactic(auto, using(crate::proofs::Laws::burned_weight_most, crate::proofs::Laws::fit_dividend), unfolding(crate::specs::Year::emission))]
pub fn emission(h: Head, c: Cell, oxidised: u32, burned: u32) -> u32
    requires { WithinLimits h c oxidised burned }
    ensures { result ≡ emission h c oxidised burned }
{
    let k = u64::from(c.area) * u64::from(c.density);
    let oxidation = 1_100_000 * u64::from(oxidised);
    let burning = burned_weight(h) * u64::from(burned);
    (k * (oxidation + burning) / EMISSION_DIVISOR) as u32
}

// What an inactive cell loses.
pub fn no_loss() -> Loss
    ensures { result ≡ no_loss }
{
    Loss::default()
}

// The mm that an active cell loses, by its row of the table: the fire comes first.
#[tactic(auto, using(crate::proofs::Laws::burned_least), unfolding(crate::specs::Year::mm_of))]
pub fn mm_of(h: Head, c: Cell, r: Row, e: Entry) -> LostMm
    requires { WithinLimits h c e.oxidised e.burned × RowValid r }
    ensures { result ≡ mm_of h c r e }
{
    let remaining = c.entered - (e.oxidised + e.burned);
    let d = drained(r, e);
    let burned = burned_by(h.guard, d, r.burning, remaining);
    let oxidised = oxidised_by(d, r.oxidation, remaining, burned);
    LostMm { oxidised, burned }
}

// What it loses in all, where its kg to date is `before`.
#[tactic(auto, using(crate::proofs::Laws::lost_within, crate::proofs::Laws::emission_grows))]
pub fn loss_of(h: Head, c: Cell, r: Row, e: Entry, before: u32) -> Loss
    requires { WithinLimits h c e.oxidised e.burned × RowValid r × (before ≡ kg_of h c e) }
    ensures { result ≡ loss_of h c r e }
{
    let m = mm_of(h, c, r, e);
    let then = emission(h, c, e.oxidised + m.oxidised, e.burned + m.burned);
    Loss {
        oxidised: m.oxidised,
        burned: m.burned,
        kg: then - before,
    }
}

// The most that can be lost of a cell: what was entered, and nothing of one that is no peat.
#[tactic(auto, unfolding(crate::specs::Year::most_loss))]
pub fn most_loss(h: Head, c: Cell) -> u32
    ensures { result ≡ most_loss h c }
{
    if c.entered < h.thickness {
        0
    } else {
        c.entered
    }
}
