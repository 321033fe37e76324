// Reads a listing's words from standard input, closes every year and issues after each. It prints a
// line for each year, and what is left; or why the input is refused. It stops at a write that fails.
#![tactic(auto)]

ghost use Rattle.std.specs.Prelude.{◌≡◌, true, ◌*◌, ◌^◌, ◌≤◌, ◌<◌, ltb, length, OnOk};
ghost use Rattle.words.specs.Answers.{outcome};
ghost use Rattle.words.specs.Refusals.{too_few_words, term_not_above, number_of};
ghost use Rattle.listing.specs.Layout.{cells, horizon, cell};
ghost use Rattle.year.specs.Year.{remaining};
ghost use Rattle.book.specs.Current.{entry, admitted};
ghost use Rattle.book.specs.Layout.{line_words};
ghost use Rattle.closing.specs.Closable.{Closable};
ghost use Rattle.peatrun.specs.Years.{most_bytes, RefusedByListing, InYear, Ran, ran_for, remaining_total};

use book::{BOOK, LINE_WORDS};
use fields::MOST_CELLS;
use listing::MOST_WORDS;
use std::io;
use std::io::Read;
use totals::Line;
use words::Refusal;

// The sizes of the buffers: the bytes of the longest listing, the book and the lines of the most
// cells. The program keeps to fixed memory.
const MOST_BYTES: usize = 4 * MOST_WORDS;

const MOST_BOOK_WORDS: usize = BOOK.head + BOOK.entry * MOST_CELLS as usize;

const MOST_LINE_WORDS: usize = LINE_WORDS * MOST_CELLS as usize;

// Reads until `buffer` is full or the input ends, and answers how many bytes it read. A read that
// fails is not the end of the input. The library's `read_to_end` wants a `Vec`.
fn read(input: &mut impl Read, buffer: &mut [u8]) -> io::Result<usize> {
    let mut done: usize = 0;
    while done < buffer.len() {
        let n = input.read(&mut buffer[done..])?;
        if n == 0 {
            break;
        }
        done += n;
    }
    Ok(done)
}

// The word refused, its number and its place. A function of its own for what it requires: only a listing
// is refused here, by 1 to 5, so that no other refusal can be printed.
fn print_refused(rt: &impl Print, why: Refusal) -> io::Result<()>
    requires { (too_few_words ≤ number_of why.reason) × (number_of why.reason ≤ term_not_above) }
{
    println!(rt; "{why}")
}

// Prints the refusal of an answer, which a `let .. else` cannot bind.
fn print_refusal(rt: &impl Print, answer: Result<(), Refusal>) -> io::Result<()>
    requires { RefusedByListing (outcome answer) }
{
    match answer {
        Ok(()) => Ok(()),
        Err(why) => print_refused(rt, why),
    }
}

// A year's line: mm oxidised, mm burned and kg over all cells, and the tonnes issued.
fn print_year(rt: &impl Print, year: u32, lines: &[u32], tonnes: u32) -> io::Result<()>
    requires { length lines.now ≤ 2 ^ 32 }
{
    let oxidised = totals::line_total(lines, Line::Oxidised);
    let burned = totals::line_total(lines, Line::Burned);
    let kg = totals::line_total(lines, Line::Kg);
    println!(rt; "{year} {oxidised} {burned} {kg} {tonnes}")
}

// Closes the year after the current one and issues: the tonnes. Neither call is refused, by the
// contract, so that 0 is never answered for a refusal. The ledger's calls take slices, as C gives them, so
// that listing and book go beside each other here and below, with what is known of them in clauses.
fn run_year(listing: &[u32], book: &mut [u32], lines: &mut [u32]) -> u32
    requires { Closable listing.now book.old (length lines.old) }
    ensures { Ran listing.now book.old lines.old book.new lines.new result }
{
    let Ok(()) = ledger::close(listing, book, lines) else {
        return 0;
    };
    let Ok(tonnes) = ledger::issue(listing, book) else {
        return 0;
    };
    tonnes
}

// Every year of a book in year 0, unless a line cannot be written.
#[tactic(auto, using(crate::proofs::Years::opened_long, crate::proofs::Years::opened_cells))]
fn run_years(
    rt: &impl Print,
    listing: &[u32],
    book: &mut [u32],
    lines: &mut [u32],
) -> io::Result<()>
    requires { InYear listing.now book.old 0 × (length lines.old ≡ line_words * cells listing.now) }
    ensures new_book { (admitted listing.now book.new).done ≡ true }
    ensures every_year { OnOk result (book.new ≡ (ran_for listing.now (record { book = book.old; lines = lines.old }) (horizon listing.now)).book) }
{
    let horizon = listing::head(listing).horizon;
    for year in 0..horizon {
        let tonnes = run_year(listing, book, lines);
        print_year(rt, year + 1, lines, tonnes)?;
    }
    Ok(())
}

// What remains of cell `i`, by its statement. The book passes the tests and has the cell, so that
// the statement is not refused.
fn remaining(listing: &[u32], book: &[u32], i: usize) -> u32
    requires { ((admitted listing.now book.now).done ≡ true) × (i < cells listing.now) }
    ensures { result ≡ remaining (cell listing.now i) (entry book.now i) }
{
    let Ok(figures) = ledger::statement(listing, book, i) else {
        return 0;
    };
    figures.remaining
}

// The mm that remain, over all cells: a loop of its own, as the balance's sum of kg.
#[tactic(auto, using(crate::proofs::Years::opened_long))]
fn remaining_total(listing: &[u32], book: &[u32]) -> u64
    requires { (admitted listing.now book.now).done ≡ true }
    ensures { result ≡ remaining_total listing.now book.now }
{
    let cells = listing::head(listing).cells as usize;
    let mut sum: u64 = 0;
    for i in 0..cells {
        sum += u64::from(remaining(listing, book, i));
    }
    sum
}

fn print_remaining(rt: &impl Print, listing: &[u32], book: &[u32]) -> io::Result<()>
    requires { (admitted listing.now book.now).done ≡ true }
{
    let left = remaining_total(listing, book);
    println!(rt; "left {left}")
}

// The table of an opened book, with space for its lines.
#[tactic(auto, using(crate::proofs::Years::opened_long))]
fn run_opened(
    rt: &impl Print,
    listing: &[u32],
    book: &mut [u32],
    lines: &mut [u32],
) -> io::Result<()>
    requires { InYear listing.now book.old 0 × (line_words * cells listing.now ≤ length lines.old) }
{
    println!(rt; "year ox burn kg issued")?;
    let end = LINE_WORDS * listing::head(listing).cells as usize;
    run_years(rt, listing, book, &mut lines[0..end])?;
    print_remaining(rt, listing, &book[..])
}

// The table of a listing, or its refusal: by `let .. else`, the form that document 01 asks for here.
fn run(rt: &impl Print, listing: &[u32]) -> io::Result<()> {
    let mut book = [0u32; MOST_BOOK_WORDS];
    let opened = ledger::open(listing, &mut book);
    let Ok(()) = opened else {
        return print_refusal(rt, opened);
    };
    let mut lines = [0u32; MOST_LINE_WORDS];
    run_opened(rt, listing, &mut book, &mut lines)
}

// Whether so many bytes are more than the longest listing has. It asks for their count alone.
fn too_long(count: usize) -> bool
    ensures { result ≡ ltb most_bytes count }
{
    MOST_BYTES < count
}

// What is printed for bytes that are not too many.
fn answer(rt: &impl Print, bytes: &[u8]) -> io::Result<()>
    requires { length bytes.now ≤ most_bytes }
{
    if bytes.len() % 4 != 0 {
        return println!(rt; "odd bytes");
    }
    let mut words = [0u32; MOST_WORDS];
    let n = decode::decode(bytes, &mut words);
    run(rt, &words[0..n])
}

fn main(rt: HostRuntime) {
    let mut buffer = [0u8; MOST_BYTES + 1];
    let Ok(count) = read(&mut rt.stdin(), &mut buffer) else {
        let _ = eprintln!(rt; "peatrun: standard input cannot be read");
        return;
    };
    let written = if too_long(count) {
        println!(rt; "too long")
    } else {
        answer(&rt, &buffer[0..count])
    };
    if written.is_err() {
        let _ = eprintln!(rt; "peatrun: standard output cannot be written");
    }
}
