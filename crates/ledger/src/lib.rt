// The ledger's seven calls. None requires anything of its caller; each answers a reason and a place where
// it is refused, and then it has written nothing. They take slices, as C gives them.
#![tactic(auto)]

ghost use Rattle.std.specs.Prelude.{◌≡◌, ◌<◌, [], IfOk};
ghost use Rattle.words.specs.Answers.{outcome, amount, answer_with};
ghost use Rattle.words.specs.Effect.{effect};
ghost use Rattle.listing.specs.Layout.{cells};
ghost use Rattle.ledger.specs.Calls.{open_effect, close_effect, cell_checked, admitted_cell, mark_checked, admitted_unwithdrawn, plan_checked, replan_answer, replan_effect};
ghost use Rattle.ledger.specs.Calls.{withdraw_effect, issue_effect, no_figures, figures_of, statement_answer, convert_effect};

use book::{BOOK, ISSUED_IN_ONE_WORD, ISSUED_IN_TWO_WORDS, OpenBook};
use listing::Listing;
use words::{Reason, Refusal, need};

// What is stated of a cell: mm entered, remaining, oxidised and burned to date, kg to date, its plan
// year, 0 where it has none, as C is told, and its mark.
#[derive(Clone, Copy, Debug, PartialEq, Eq)]
pub struct CellFigures {
    pub entered: u32,
    pub remaining: u32,
    pub oxidised: u32,
    pub burned: u32,
    pub kg: u32,
    pub plan_year: u32,
    pub withdrawn: bool,
}

// Opens a book for a listing.
pub fn open(listing: &[u32], book: &mut [u32]) -> Result<(), Refusal>
    ensures { effect (outcome result) book.new [] ≡ open_effect listing.now book.old }
{
    let accepted = book::fits(BOOK, listing, &book[..])?;
    opening::open_book(&accepted, book);
    Ok(())
}

// Closes the year after the current one: three line words for each cell, and the book.
pub fn close(listing: &[u32], book: &mut [u32], lines: &mut [u32]) -> Result<(), Refusal>
    ensures { effect (outcome result) book.new lines.new ≡ close_effect listing.now book.old lines.old }
{
    let accepted = closing::may_close(listing, &book[..], lines.len())?;
    closing::close_year(&accepted, book, lines);
    Ok(())
}

// Number 10, for an accepted listing.
fn check_cell(listing: &Listing<'_>, cell: usize) -> Result<(), Refusal>
    ensures { outcome result ≡ cell_checked listing.now.words.now cell }
{
    need(cell < listing.figures.cells as usize, Reason::NoSuchCell, 0)
}

// Numbers 1 to 6, 8 and 10.
fn admit_cell<'a>(listing: &'a [u32], book: &'a [u32], cell: usize) -> Result<OpenBook<'a>, Refusal>
    ensures value { outcome result ≡ admitted_cell listing.now book.now cell }
    ensures same_listing { IfOk result (λ b. b.listing.words.now ≡ listing.now) }
    ensures same_book { IfOk result (λ b. b.words.now ≡ book.now) }
{
    let open = book::read(listing, book)?;
    check_cell(&open.listing, cell)?;
    Ok(open)
}

// Number 11.
fn check_mark(book: &OpenBook<'_>, cell: usize) -> Result<(), Refusal>
    requires { cell < cells book.now.listing.words.now }
    ensures { outcome result ≡ mark_checked book.now.words.now cell }
{
    let e = book.entry(cell);
    need(!e.withdrawn, Reason::CellWithdrawn, 0)
}

// Numbers 1 to 6, 8, 10 and 11. Inlined, since an open book that is handed over in memory costs a call on a
// small site a quarter of its time.
#[inline(always)]
fn admit_unwithdrawn<'a>(
    listing: &'a [u32],
    book: &'a [u32],
    cell: usize,
) -> Result<OpenBook<'a>, Refusal>
    ensures value { outcome result ≡ admitted_unwithdrawn listing.now book.now cell }
    ensures same_listing { IfOk result (λ b. b.listing.words.now ≡ listing.now) }
    ensures same_book { IfOk result (λ b. b.words.now ≡ book.now) }
{
    let open = admit_cell(listing, book, cell)?;
    check_mark(&open, cell)?;
    Ok(open)
}

// Numbers 12 and 13.
fn check_plan(book: &OpenBook<'_>, cell: usize, year: u32) -> Result<(), Refusal>
    requires { cell < cells book.now.listing.words.now }
    ensures { outcome result ≡ plan_checked book.now.listing.words.now book.now.words.now cell year }
{
    let current = book.year();
    let e = book.entry(cell);
    need(year::unconverted(e.plan, current), Reason::CellConverted, 0)?;
    let ahead = (current < year) & (year <= book.listing.figures.horizon);
    need((year == 0) | ahead, Reason::YearNotAhead, 0)
}

// Numbers 1 to 6, 8 and 10 to 13.
fn may_replan<'a>(
    listing: &'a [u32],
    book: &'a [u32],
    cell: usize,
    year: u32,
) -> Result<OpenBook<'a>, Refusal>
    ensures value { outcome result ≡ replan_answer listing.now book.now cell year }
    ensures same_listing { IfOk result (λ b. b.listing.words.now ≡ listing.now) }
    ensures same_book { IfOk result (λ b. b.words.now ≡ book.now) }
{
    let open = admit_unwithdrawn(listing, book, cell)?;
    check_plan(&open, cell, year)?;
    Ok(open)
}

// Gives a cell that is not yet converted another plan year, or 0 for never, as C gives it.
pub fn replan(listing: &[u32], book: &mut [u32], cell: usize, year: u32) -> Result<(), Refusal>
    ensures { effect (outcome result) book.new [] ≡ replan_effect listing.now book.old cell year }
{
    let open = may_replan(listing, &book[..], cell, year)?;
    let e = open.entry(cell);
    book::put_plan(BOOK, book, cell, year::planned(e, year));
    Ok(())
}

// Marks a cell for good. What it has lost stays counted.
pub fn withdraw(listing: &[u32], book: &mut [u32], cell: usize) -> Result<(), Refusal>
    ensures { effect (outcome result) book.new [] ≡ withdraw_effect listing.now book.old cell }
{
    let open = admit_unwithdrawn(listing, &book[..], cell)?;
    let e = open.entry(cell);
    book::put_plan(BOOK, book, cell, year::marked(e));
    Ok(())
}

// Pays out of the balance what was not issued before, in tonnes.
pub fn issue(listing: &[u32], book: &mut [u32]) -> Result<u32, Refusal>
    ensures { effect (amount result) book.new [] ≡ issue_effect listing.now book.old }
{
    let open = book::read(listing, &book[..])?;
    let tonnes = balance::tonnes_due(&open);
    let issued = open.issued();
    book::put_issued(BOOK, book, issued + u64::from(tonnes));
    Ok(tonnes)
}

fn figures_of(book: &OpenBook<'_>, cell: usize) -> CellFigures
    requires { cell < cells book.now.listing.words.now }
    ensures { result ≡ figures_of book.now.listing.words.now book.now.words.now cell }
{
    let c = book.listing.cell(cell);
    let e = book.entry(cell);
    CellFigures {
        entered: c.entered,
        remaining: c.entered - (e.oxidised + e.burned),
        oxidised: e.oxidised,
        burned: e.burned,
        kg: book.kg_to_date(cell),
        plan_year: e.plan,
        withdrawn: e.withdrawn,
    }
}

// Answers what the listing and the book state of a cell.
pub fn statement(listing: &[u32], book: &[u32], cell: usize) -> Result<CellFigures, Refusal>
    ensures { answer_with no_figures result ≡ statement_answer listing.now book.now cell }
{
    let open = admit_cell(listing, book, cell)?;
    Ok(figures_of(&open, cell))
}

// Converts a book with one word of tonnes issued into one with two, in a slice of its own.
pub fn convert(listing: &[u32], old: &[u32], new: &mut [u32]) -> Result<(), Refusal>
    ensures { effect (outcome result) new.new [] ≡ convert_effect listing.now old.now new.old }
{
    let (from, to) = (ISSUED_IN_ONE_WORD, ISSUED_IN_TWO_WORDS);
    let accepted = converting::may_convert(from, to, listing, old, &new[..])?;
    converting::convert_book(from, to, &accepted, old, new);
    Ok(())
}
