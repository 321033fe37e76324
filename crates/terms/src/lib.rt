// The yearly terms of a listing, added up to date.
#![tactic(auto)]

ghost use Rattle.std.specs.Prelude.{◌≡◌, ◌≤◌, length};
ghost use Rattle.fields.specs.Fields.{tonnes_of};
ghost use Rattle.listing.specs.Layout.{most_term_words, offsets};
ghost use Rattle.terms.specs.Terms.{total, terms_to_date};
ghost use Rattle.terms.specs.Split.{up_to, Split};

use fields::YearlyTerm;
use listing::Listing;

// The last term that the buffer percentage is taken of, by its number, as the methodology has it.
const LAST_BUFFERED: u32 = 5;

// The terms to date: all of them, for N, and those up to 5, for S. Peat, term 2, is not among them.
#[derive(Clone, Copy, Debug, PartialEq, Eq)]
pub struct TermSums {
    pub all: i64,
    pub buffered: i64,
}

// Where the terms of the years 1 to `year` end: terms rise by year, so that these come first. By halving:
// the library's `partition_point` takes a third longer, having a jump more for each word that it tests.
fn end_of_terms_to_date(listing: &Listing<'_>, year: u32) -> usize
    ensures { Split listing.now.words.now year (offsets listing.now.words.now).terms result result }
{
    let mut low = listing.offsets().terms;
    let mut high = listing.words.len();
    while low < high {
        let middle = low + (high - low) / 2;
        if YearlyTerm::from(listing.words[middle]).year <= year {
            low = middle + 1;
        } else {
            high = middle;
        }
    }
    low
}

// A term's tonnes.
fn tonnes(w: u32) -> i64
    ensures { result ≡ tonnes_of w }
{
    i64::from(YearlyTerm::from(w).tonnes)
}

// The same, or 0 where it is a term after `last`.
fn up_to(w: u32, last: u32) -> i64
    ensures { result ≡ up_to last w }
{
    if YearlyTerm::from(w).term <= last {
        return tonnes(w);
    }
    0
}

// Both sums of the words of terms.
fn term_sums(words: &[u32]) -> TermSums
    requires { length words.now ≤ most_term_words }
    ensures { (result.all ≡ total tonnes_of words.now) × (result.buffered ≡ total (up_to 5) words.now) }
{
    let mut all: i64 = 0;
    let mut buffered: i64 = 0;
    for &word in words {
        all += tonnes(word);
        buffered += up_to(word, LAST_BUFFERED);
    }
    TermSums { all, buffered }
}

// The terms of the years 1 to `year`.
pub fn terms_to_date(listing: &Listing<'_>, year: u32) -> TermSums
    ensures { (result.all ≡ terms_to_date listing.now.words.now year 8) × (result.buffered ≡ terms_to_date listing.now.words.now year 5) }
{
    let start = listing.offsets().terms;
    let end = end_of_terms_to_date(listing, year);
    term_sums(&listing.words[start..end])
}
