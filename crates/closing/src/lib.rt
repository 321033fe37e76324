// The closing of a year: the tests decide, and only then is anything written, cell by cell.
#![tactic(auto)]

ghost use Rattle.std.specs.Prelude.{◌≡◌, false, ◌<◌, ◌≤◌, length, IfOk};
ghost use Rattle.words.specs.Blocks.{filled};
ghost use Rattle.words.specs.Answers.{outcome};
ghost use Rattle.listing.specs.Layout.{head, cells, row, cell};
ghost use Rattle.year.specs.Year.{inactive, age, kg_of, year_loss, after_loss};
ghost use Rattle.book.specs.Current.{current};
ghost use Rattle.book.specs.Layout.{line_words, entry_of, held_words, lines_of};
ghost use Rattle.book.specs.AcceptedBook.{CellWordsValid};
ghost use Rattle.closing.specs.Closing.{cell_loss, closed_words, book_after, lines_after, lines_checked, most_payload, year_checked, close_answer};
ghost use Rattle.closing.specs.Closable.{CellYear, NextYear, Closable};

use book::{BOOK, LINE_WORDS, OpenBook};
use fields::{Cell, Row};
use listing::Listing;
use words::{Kind, Reason, Refusal, need};
use year::{Entry, Loss};

// The row of an active cell in `year`: that of its own stratum and age.
pub fn active_row(listing: &Listing<'_>, c: Cell, e: Entry, year: u32) -> Row
    requires { CellYear listing.now.words.now c e year × (inactive (head listing.now.words.now) c e year ≡ false) }
    ensures { result ≡ row listing.now.words.now c.stratum (age e.plan year) }
{
    let age = year - e.plan + 1;
    listing.row(c.stratum, age)
}

// What an active cell loses in `year`, by its own entry. `before` is its kg to date.
fn active_loss(listing: &Listing<'_>, c: Cell, e: Entry, before: u32, year: u32) -> Loss
    requires { CellYear listing.now.words.now c e year × (inactive (head listing.now.words.now) c e year ≡ false)
        × (before ≡ kg_of (head listing.now.words.now) c e) }
    ensures { result ≡ year_loss (head listing.now.words.now) (row listing.now.words.now) c e year }
{
    let r = active_row(listing, c, e, year);
    year::loss_of(listing.figures, c, r, e, before)
}

// Number 9, for a valid book. Number 14 comes after it, and is proved not to arise: no kg line is
// above `most_line` of year/specs/Year.antt.
fn check_year(book: &OpenBook<'_>) -> Result<(), Refusal>
    ensures { outcome result ≡ year_checked book.now.listing.words.now book.now.words.now }
{
    let ahead = book.year() < book.listing.figures.horizon;
    need(ahead, Reason::HorizonReached, 0)
}

// Number 7, for a valid listing. The lines are lent to be written later: their length alone goes along.
fn check_lines(listing: &Listing<'_>, capacity: usize) -> Result<(), Refusal>
    ensures { outcome result ≡ lines_checked listing.now.words.now capacity }
{
    let size = LINE_WORDS * listing.figures.cells as usize;
    need(size <= capacity, Reason::LinesShort, capacity)
}

// Whether a year can be closed with a lines buffer of `capacity` words, of which the length alone counts
// here: numbers 1 to 6, then 7, then 8 and 9. This writes nothing.
pub fn may_close<'a>(
    listing: &'a [u32],
    book: &[u32],
    capacity: usize,
) -> Result<Listing<'a>, Refusal>
    ensures value { outcome result ≡ close_answer listing.now book.now capacity }
    ensures same_words { IfOk result (λ l. l.words.now ≡ listing.now) }
{
    let accepted = book::fits(BOOK, listing, book)?;
    check_lines(&accepted, capacity)?;
    book::check_book(BOOK, &accepted, book)?;
    let open = OpenBook {
        listing: accepted,
        words: book,
    };
    check_year(&open)?;
    Ok(accepted)
}

// Closes cell `i`, whose own words are lent: adds the year's mm to its mm to date. The kg to date of a
// cell that is inactive are not worked out. What is known of the words is a clause, since they are written.
fn close_cell(entry: &mut [u32], listing: &Listing<'_>, i: usize, year: u32) -> Loss
    requires { CellWordsValid (head listing.now.words.now) (cell listing.now.words.now i) entry.old × (i < cells listing.now.words.now)
        × CellYear listing.now.words.now (cell listing.now.words.now i) (entry_of entry.old) year }
    ensures value { result ≡ cell_loss listing.now.words.now year i (entry_of entry.old) }
    ensures new_entry { entry.new ≡
        held_words (length entry.old) (after_loss (entry_of entry.old) (cell_loss listing.now.words.now year i (entry_of entry.old))) }
{
    let e = book::entry_of(&entry[..]);
    let c = listing.cell(i);
    let inactive = year::inactive(listing.figures, c, e, year);
    if inactive {
        book::put_entry(entry, e);
        return year::no_loss();
    }
    let before = book::kg_of(listing.figures, c, &entry[..]);
    let s = active_loss(listing, c, e, before, year);
    book::put_entry(entry, year::after_loss(e, s));
    s
}

// Writes a cell's three lines.
#[tactic(auto, unfolding(book::specs::Layout::lines_of))]
fn put_lines(lines: &mut [u32], s: Loss)
    requires { (length lines.old ≡ line_words) × (s.oxidised ≤ most_payload) × (s.burned ≤ most_payload) × (s.kg ≤ most_payload) }
    ensures { lines.new ≡ lines_of s }
{
    lines[0] = Kind::OxidisedLine.word(s.oxidised);
    lines[1] = Kind::BurnedLine.word(s.burned);
    lines[2] = Kind::KgLine.word(s.kg);
}

// Closes every cell: its words in the book, and its lines. They are lent to its step by place, the form that
// document 01 asks for; an opening, a conversion of a book and a forecast lend them so too, to `book::put_entry`.
fn close_cells(listing: &Listing<'_>, book: &mut [u32], lines: &mut [u32], year: u32)
    requires { NextYear listing.now.words.now book.old year × Closable listing.now.words.now book.old (length lines.old) }
    ensures new_book { book.new ≡ filled current.entry book.old current.head (closed_words listing.now.words.now book.old) (cells listing.now.words.now) }
    ensures new_lines { lines.new ≡ lines_after listing.now.words.now book.old lines.old }
{
    for i in 0..listing.figures.cells as usize {
        let a = book::entry_at(BOOK, i);
        let e = a + BOOK.entry;
        let s = close_cell(&mut book[a..e], listing, i, year);
        let from = LINE_WORDS * i;
        let to = from + LINE_WORDS;
        put_lines(&mut lines[from..to], s);
    }
}

// Closes the year after the current one. Book and lines are lent to be written, so that what allows a
// closing stays a clause.
pub fn close_year(listing: &Listing<'_>, book: &mut [u32], lines: &mut [u32])
    requires { Closable listing.now.words.now book.old (length lines.old) }
    ensures new_book { book.new ≡ book_after listing.now.words.now book.old }
    ensures new_lines { lines.new ≡ lines_after listing.now.words.now book.old lines.old }
{
    let year = book::year(&book[..]) + 1;
    close_cells(listing, book, lines, year);
    book::put_year(book, year);
}
