// The forecast: a listing's years on a scratch book, without replanning or withdrawal, year after year.
#![tactic(auto)]

ghost use Rattle.std.specs.Prelude.{◌≡◌, false, ◌+◌, ◌<◌, ◌≤◌, length, IfOk};
ghost use Rattle.words.specs.Answers.{outcome, amount};
ghost use Rattle.words.specs.Blocks.{filled};
ghost use Rattle.words.specs.Effect.{effect};
ghost use Rattle.listing.specs.Layout.{head, cells, horizon};
ghost use Rattle.year.specs.Year.{inactive};
ghost use Rattle.book.specs.Current.{current, held_at, new_book, Fitted};
ghost use Rattle.closing.specs.Closable.{CellYear};
ghost use Rattle.years.specs.Years.{entries_after};
ghost use Rattle.forecast.specs.Forecast.{output_checked, forecast_checked, forecast_effect};
ghost use Rattle.forecast.specs.Running.{entry_to_date, cell_to_date, next_cell, cell_after, total_after, output_of, CellsAfter, Ready};

use book::BOOK;
use fields::{Cell, MOST_CELLS};
use listing::Listing;
use words::{Reason, Refusal, need};
use year::{Entry, LostMm};

// A cell as it is carried from one year to the next: its words in the listing, which are read once, its mm
// to date, and its kg to date, so that a cell that loses nothing in a year costs no emission.
#[derive(Clone, Copy, Debug, PartialEq, Eq)]
struct CellToDate {
    cell: Cell,
    lost: LostMm,
    kg: u32,
}

// What stands for a cell before it is opened: zeros, which cost least to write.
const NO_CELL: CellToDate = CellToDate {
    cell: Cell {
        stratum: 0,
        conversion: 0,
        entered: 0,
        area: 0,
        density: 0,
    },
    lost: LostMm {
        oxidised: 0,
        burned: 0,
    },
    kg: 0,
};

// Number 15, for a valid listing. Of the output, lent to be written later, the length alone goes along.
fn check_output(listing: &Listing<'_>, capacity: usize) -> Result<(), Refusal>
    ensures { outcome result ≡ output_checked listing.now.words.now capacity }
{
    let size = listing.figures.horizon as usize;
    need(size <= capacity, Reason::OutputShort, capacity)
}

// Numbers 1 to 6 and 15: this writes nothing, and of the output its length alone counts here.
fn may_forecast<'a>(
    listing: &'a [u32],
    book: &[u32],
    capacity: usize,
) -> Result<Listing<'a>, Refusal>
    ensures value { outcome result ≡ forecast_checked listing.now book.now capacity }
    ensures same_words { IfOk result (λ l. l.words.now ≡ listing.now) }
{
    let accepted = book::fits(BOOK, listing, book)?;
    check_output(&accepted, capacity)?;
    Ok(accepted)
}

// A cell that was opened.
fn opened_cell(listing: &Listing<'_>, i: usize) -> CellToDate
    requires { i < cells listing.now.words.now }
    ensures { result ≡ cell_after listing.now.words.now 0 i }
{
    CellToDate {
        cell: listing.cell(i),
        lost: LostMm {
            oxidised: 0,
            burned: 0,
        },
        kg: 0,
    }
}

// Opens every cell where it stays: as an array that is answered, a thousand cells would be copied twice. What
// lies beyond the listing's cells is not read.
fn open_cells(listing: &Listing<'_>, all: &mut [CellToDate])
    requires { cells listing.now.words.now ≤ length all.old }
    ensures { CellsAfter listing.now.words.now 0 all.new }
{
    for i in 0..listing.figures.cells as usize {
        all[i] = opened_cell(listing, i);
    }
}

// The entry of a cell that was only closed: no mark, and the plan year of the listing.
fn entry_to_date(d: CellToDate) -> Entry
    ensures { result ≡ entry_to_date d }
{
    Entry {
        oxidised: d.lost.oxidised,
        burned: d.lost.burned,
        ..year::opened(d.cell.conversion)
    }
}

// An active cell after `year`: the year's mm are added, and its kg to date are their emission. Where nothing
// is lost, it is as it was.
fn run_active(listing: &Listing<'_>, before: CellToDate, year: u32) -> CellToDate
    requires { CellYear listing.now.words.now before.cell (entry_to_date before) year
        × (inactive (head listing.now.words.now) before.cell (entry_to_date before) year ≡ false)
        × (before ≡ cell_to_date (head listing.now.words.now) before.cell (entry_to_date before)) }
    ensures { result ≡ next_cell listing.now.words.now before year }
{
    let e = entry_to_date(before);
    let r = closing::active_row(listing, before.cell, e, year);
    let m = year::mm_of(listing.figures, before.cell, r, e);
    if m.oxidised + m.burned == 0 {
        return before;
    }
    let lost = LostMm {
        oxidised: before.lost.oxidised + m.oxidised,
        burned: before.lost.burned + m.burned,
    };
    let kg = year::emission(listing.figures, before.cell, lost.oxidised, lost.burned);
    CellToDate { lost, kg, ..before }
}

// A cell after `year`: as it was, where it is inactive.
fn run_cell(listing: &Listing<'_>, before: CellToDate, year: u32) -> CellToDate
    requires { CellYear listing.now.words.now before.cell (entry_to_date before) year
        × (before ≡ cell_to_date (head listing.now.words.now) before.cell (entry_to_date before)) }
    ensures { result ≡ next_cell listing.now.words.now before year }
{
    if year::inactive(listing.figures, before.cell, entry_to_date(before), year) {
        return before;
    }
    run_active(listing, before, year)
}

// The year after `closed_years` years, over all cells: answers their kg to date after it, added up once.
fn run_year(listing: &Listing<'_>, all: &mut [CellToDate], closed_years: u32) -> u64
    requires { CellsAfter listing.now.words.now closed_years all.old × (closed_years < horizon listing.now.words.now) }
    ensures value { result ≡ total_after listing.now.words.now (closed_years + 1) }
    ensures new_cells { CellsAfter listing.now.words.now (closed_years + 1) all.new }
{
    let mut total: u64 = 0;
    for i in 0..listing.figures.cells as usize {
        let after = run_cell(listing, all[i], closed_years + 1);
        all[i] = after;
        total += u64::from(after.kg);
    }
    total
}

// Every year, each number the difference of two totals. One running total of all cells' kg to date goes
// from a year to the next; answers the last.
fn run_years(listing: &Listing<'_>, all: &mut [CellToDate], output: &mut [u64]) -> u64
    requires { CellsAfter listing.now.words.now 0 all.old × (horizon listing.now.words.now ≤ length output.old) }
    ensures value { result ≡ total_after listing.now.words.now (horizon listing.now.words.now) }
    ensures new_cells { CellsAfter listing.now.words.now (horizon listing.now.words.now) all.new }
    ensures new_output { output.new ≡ output_of listing.now.words.now output.old }
{
    let mut total: u64 = 0;
    for t in 0..listing.figures.horizon {
        let now = run_year(listing, all, t);
        output[t as usize] = now - total;
        total = now;
    }
    total
}

// Writes the cells' words. A walk as that of `opening::open_cells`.
fn put_cells(listing: &Listing<'_>, book: &mut [u32], all: &[CellToDate])
    requires { Fitted listing.now.words.now book.old × CellsAfter listing.now.words.now (horizon listing.now.words.now) all.now }
    ensures { book.new ≡ filled current.entry book.old current.head
        (held_at (entries_after listing.now.words.now (horizon listing.now.words.now))) (cells listing.now.words.now) }
{
    for i in 0..listing.figures.cells as usize {
        let a = book::entry_at(BOOK, i);
        let e = a + BOOK.entry;
        book::put_entry(&mut book[a..e], entry_to_date(all[i]));
    }
}

// Writes each year's kg, and the scratch book as it is after the last; answers the last total.
fn write_years(listing: &Listing<'_>, book: &mut [u32], output: &mut [u64]) -> u64
    requires { Ready listing.now.words.now book.old (length output.old) }
    ensures value { result ≡ total_after listing.now.words.now (horizon listing.now.words.now) }
    ensures new_book { book.new ≡
        new_book listing.now.words.now book.old (horizon listing.now.words.now) 0 (entries_after listing.now.words.now (horizon listing.now.words.now)) }
    ensures new_output { output.new ≡ output_of listing.now.words.now output.old }
{
    let mut all = [NO_CELL; MOST_CELLS as usize];
    open_cells(listing, &mut all);
    let total = run_years(listing, &mut all, output);
    put_cells(listing, book, &all);
    book::put_year(book, listing.figures.horizon);
    book::put_issued(BOOK, book, 0);
    total
}

// Opens the scratch book, closes every year on it, and writes each year's kg over all cells. What the
// scratch book held is not tested. Answers the kg to date of all cells after the last year.
pub fn forecast(listing: &[u32], book: &mut [u32], output: &mut [u64]) -> Result<u64, Refusal>
    ensures { effect (amount result) book.new output.new ≡ forecast_effect listing.now book.old output.old }
{
    let accepted = may_forecast(listing, &book[..], output.len())?;
    Ok(write_years(&accepted, book, output))
}
