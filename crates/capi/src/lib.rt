// The calls for C and Rust: they take numbers and slices, and answer structs. A slice is a pointer and then
// its length; include/peat.h has the declarations.
#![tactic(auto)]

ghost use Rattle.std.specs.Prelude.{◌≡◌};
ghost use Rattle.words.specs.Answers.{accepted, refused, outcome, amount, answer_with};
ghost use Rattle.ledger.specs.Calls.{open_effect, convert_effect, close_effect, replan_effect, withdraw_effect, issue_effect, no_figures, statement_answer};
ghost use Rattle.forecast.specs.Forecast.{forecast_effect};
ghost use Rattle.reading.specs.Depth.{depth};
ghost use Rattle.reading.specs.declared.Reading.TheVariants.{Core, Levels, Missing};
ghost use Rattle.discount.specs.Discount.{discount};
ghost use Rattle.dips.specs.Dips.{recording_of, dips};
ghost use Rattle.dips.specs.Dips as dips_figures;
ghost use Rattle.logging.specs.Logging.{logged};
ghost use Rattle.logging.specs.Logging as logging;
ghost use Rattle.capi.specs.Exported.{exported, exported_account, exported_total, exported_logged, exported_dips};

use dips::{DipsFigures, Recording};
use ledger::CellFigures;
use logging::LoggedFigures;
use words::Refusal;

// The answer of a call, as include/peat.h has it: number 0 where it is accepted, and otherwise the
// refusal's number and place, with the value 0. In this order it is returned in two registers.
#[repr(C)]
#[derive(Clone, Copy, Debug, PartialEq, Eq)]
pub struct Answer {
    pub number: u32,
    pub value: u32,
    pub place: usize,
}

// The answer of a statement: number and place as above, and what is stated of the cell.
#[repr(C)]
#[derive(Clone, Copy, Debug, PartialEq, Eq)]
pub struct Account {
    pub number: u32,
    pub place: usize,
    pub entered: u32,
    pub remaining: u32,
    pub oxidised: u32,
    pub burned: u32,
    pub kg: u32,
    pub plan_year: u32,
    pub withdrawn: bool,
}

// The answer of a forecast: number and place as above, and the kg to date of all cells after the last year,
// which may pass 32 bits.
#[repr(C)]
#[derive(Clone, Copy, Debug, PartialEq, Eq)]
pub struct Total {
    pub number: u32,
    pub place: usize,
    pub total: u64,
}

// The answer of the test of logged blocks: number and place as above, the average in tenths of t C per ha,
// rounded down, and whether the left side of EQ48 is at least its right.
#[repr(C)]
#[derive(Clone, Copy, Debug, PartialEq, Eq)]
pub struct LoggedAnswer {
    pub number: u32,
    pub place: usize,
    pub average: u32,
    pub holds: bool,
}

// The answer of two recordings held against each other: number and place as above, the number of days in both,
// in the first alone and in the second alone, whether on any day in both they differ by more than both
// tolerances together, and the first such day. `differs` tells whether there is one: its number may be 0.
#[repr(C)]
#[derive(Clone, Copy, Debug, PartialEq, Eq)]
pub struct DipsAnswer {
    pub number: u32,
    pub place: usize,
    pub paired: usize,
    pub only_first: usize,
    pub only_second: usize,
    pub differs: bool,
    pub day: u32,
}

impl From<Result<u32, Refusal>> for Answer {
    ghost from_gives = { λ answer a. a ≡ exported (amount answer) };

    fn from(answer: Result<u32, Refusal>) -> Answer {
        match answer {
            Ok(value) => Answer {
                number: 0,
                value,
                place: 0,
            },
            Err(why) => Answer {
                number: why.reason.number(),
                value: 0,
                place: why.place,
            },
        }
    }
}

// A call that answers no number answers 0.
impl From<Result<(), Refusal>> for Answer {
    ghost from_gives = { λ answer a. a ≡ exported (outcome answer) };

    fn from(answer: Result<(), Refusal>) -> Answer {
        Answer::from(answer.map(|()| 0))
    }
}

impl From<Result<CellFigures, Refusal>> for Account {
    ghost from_gives = { λ answer a. a ≡ exported_account (answer_with no_figures answer) };

    fn from(answer: Result<CellFigures, Refusal>) -> Account {
        match answer {
            Ok(a) => Account {
                number: 0,
                place: 0,
                entered: a.entered,
                remaining: a.remaining,
                oxidised: a.oxidised,
                burned: a.burned,
                kg: a.kg,
                plan_year: a.plan_year,
                withdrawn: a.withdrawn,
            },
            Err(why) => Account {
                number: why.reason.number(),
                place: why.place,
                entered: 0,
                remaining: 0,
                oxidised: 0,
                burned: 0,
                kg: 0,
                plan_year: 0,
                withdrawn: false,
            },
        }
    }
}

impl From<Result<u64, Refusal>> for Total {
    ghost from_gives = { λ answer a. a ≡ exported_total (amount answer) };

    fn from(answer: Result<u64, Refusal>) -> Total {
        match answer {
            Ok(total) => Total {
                number: 0,
                place: 0,
                total,
            },
            Err(why) => Total {
                number: why.reason.number(),
                place: why.place,
                total: 0,
            },
        }
    }
}

impl From<Result<LoggedFigures, Refusal>> for LoggedAnswer {
    ghost from_gives = { λ answer a. a ≡ exported_logged (answer_with logging.no_figures answer) };

    fn from(answer: Result<LoggedFigures, Refusal>) -> LoggedAnswer {
        match answer {
            Ok(a) => LoggedAnswer {
                number: 0,
                place: 0,
                average: a.average,
                holds: a.holds,
            },
            Err(why) => LoggedAnswer {
                number: why.reason.number(),
                place: why.place,
                average: 0,
                holds: false,
            },
        }
    }
}

impl From<Result<DipsFigures, Refusal>> for DipsAnswer {
    ghost from_gives = { λ answer a. a ≡ exported_dips (answer_with dips_figures.no_figures answer) };

    fn from(answer: Result<DipsFigures, Refusal>) -> DipsAnswer {
        match answer {
            Ok(a) => DipsAnswer {
                number: 0,
                place: 0,
                paired: a.paired,
                only_first: a.only_first,
                only_second: a.only_second,
                differs: a.first_differing.is_some(),
                day: a.first_differing.unwrap_or(0),
            },
            Err(why) => DipsAnswer {
                number: why.reason.number(),
                place: why.place,
                paired: 0,
                only_first: 0,
                only_second: 0,
                differs: false,
                day: 0,
            },
        }
    }
}

#[unsafe(no_mangle)]
pub extern "C" fn peat_open(listing: &[u32], book: &mut [u32]) -> Answer
    ensures value { result ≡ exported (open_effect listing.now book.old).answer }
    ensures new_book { book.new ≡ (open_effect listing.now book.old).book }
{
    Answer::from(ledger::open(listing, book))
}

// The place of number 6 is the length of the book that is too short; that of number 8 is an index in the old book.
#[unsafe(no_mangle)]
pub extern "C" fn peat_convert(listing: &[u32], old: &[u32], new: &mut [u32]) -> Answer
    ensures value { result ≡ exported (convert_effect listing.now old.now new.old).answer }
    ensures new_book { new.new ≡ (convert_effect listing.now old.now new.old).book }
{
    Answer::from(ledger::convert(listing, old, new))
}

#[unsafe(no_mangle)]
pub extern "C" fn peat_close(listing: &[u32], book: &mut [u32], lines: &mut [u32]) -> Answer
    ensures value { result ≡ exported (close_effect listing.now book.old lines.old).answer }
    ensures new_book { book.new ≡ (close_effect listing.now book.old lines.old).book }
    ensures new_lines { lines.new ≡ (close_effect listing.now book.old lines.old).output }
{
    Answer::from(ledger::close(listing, book, lines))
}

#[unsafe(no_mangle)]
pub extern "C" fn peat_replan(listing: &[u32], book: &mut [u32], cell: usize, year: u32) -> Answer
    ensures value { result ≡ exported (replan_effect listing.now book.old cell year).answer }
    ensures new_book { book.new ≡ (replan_effect listing.now book.old cell year).book }
{
    Answer::from(ledger::replan(listing, book, cell, year))
}

#[unsafe(no_mangle)]
pub extern "C" fn peat_withdraw(listing: &[u32], book: &mut [u32], cell: usize) -> Answer
    ensures value { result ≡ exported (withdraw_effect listing.now book.old cell).answer }
    ensures new_book { book.new ≡ (withdraw_effect listing.now book.old cell).book }
{
    Answer::from(ledger::withdraw(listing, book, cell))
}

// The value is the tonnes issued.
#[unsafe(no_mangle)]
pub extern "C" fn peat_issue(listing: &[u32], book: &mut [u32]) -> Answer
    ensures value { result ≡ exported (issue_effect listing.now book.old).answer }
    ensures new_book { book.new ≡ (issue_effect listing.now book.old).book }
{
    Answer::from(ledger::issue(listing, book))
}

#[unsafe(no_mangle)]
pub extern "C" fn peat_statement(listing: &[u32], book: &[u32], cell: usize) -> Account
    ensures { result ≡ exported_account (statement_answer listing.now book.now cell) }
{
    Account::from(ledger::statement(listing, book, cell))
}

#[unsafe(no_mangle)]
pub extern "C" fn peat_forecast(listing: &[u32], book: &mut [u32], output: &mut [u64]) -> Total
    ensures value { result ≡ exported_total (forecast_effect listing.now book.old output.old).answer }
    ensures new_book { book.new ≡ (forecast_effect listing.now book.old output.old).book }
    ensures new_output { output.new ≡ (forecast_effect listing.now book.old output.old).output }
{
    Total::from(forecast::forecast(listing, book, output))
}

// The depth of a core; the value is its mm, as for the two calls below.
#[unsafe(no_mangle)]
pub extern "C" fn peat_core(metres: f32) -> Answer
    ensures { result ≡ exported (depth (Core metres)) }
{
    Answer::from(reading::core(metres))
}

// The depth between a pair of levels.
#[unsafe(no_mangle)]
pub extern "C" fn peat_levels(surface: f32, base: f32) -> Answer
    ensures { result ≡ exported (depth (Levels surface base)) }
{
    Answer::from(reading::levels(surface, base))
}

// The answer to a reading that is missing.
#[unsafe(no_mangle)]
pub extern "C" fn peat_missing() -> Answer
    ensures { result ≡ exported (depth Missing) }
{
    Answer::from(reading::missing())
}

// The value is the discount in ten-thousandths.
#[unsafe(no_mangle)]
pub extern "C" fn peat_discount(
    first_widths: &[u32],
    second_widths: &[u32],
    first_stocks: &[u32],
    second_stocks: &[u32],
) -> Answer
    ensures { result ≡ exported (discount first_widths.now second_widths.now first_stocks.now second_stocks.now) }
{
    Answer::from(discount::discount(first_widths, second_widths, first_stocks, second_stocks))
}

// The long-term average of logged blocks, and the test by it.
#[unsafe(no_mangle)]
pub extern "C" fn peat_logged(
    years: u32,
    strata: u32,
    densities: &[u32],
    areas: &[u32],
    discounts: &[u32],
) -> LoggedAnswer
    ensures { result ≡ exported_logged (logged years strata densities.now areas.now discounts.now) }
{
    LoggedAnswer::from(logging::logged(years, strata, densities, areas, discounts))
}

// Two recordings of a well held against each other: for each its days, depths and tolerances.
#[unsafe(no_mangle)]
pub extern "C" fn peat_dips(
    first_days: &[u32],
    first_depths: &[f32],
    first_tolerances: &[f32],
    second_days: &[u32],
    second_depths: &[f32],
    second_tolerances: &[f32],
) -> DipsAnswer
    ensures { result ≡ exported_dips (dips (recording_of first_days.now first_depths.now first_tolerances.now) (recording_of second_days.now second_depths.now second_tolerances.now)) }
{
    let first = Recording {
        days: first_days,
        depths: first_depths,
        tolerances: first_tolerances,
    };
    let second = Recording {
        days: second_days,
        depths: second_depths,
        tolerances: second_tolerances,
    };
    DipsAnswer::from(dips::dips(&first, &second))
}
