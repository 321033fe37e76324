// A project's listing: whether it is accepted, and where its words are.
#![tactic(auto)]

ghost use Rattle.std.specs.Prelude.{◌≡◌, true, ◌+◌, ◌*◌, ◌<◌, ◌≤◌, length, IfOk};
ghost use Rattle.words.specs.Search.{first_invalid};
ghost use Rattle.words.specs.Answers.{outcome};
ghost use Rattle.fields.specs.Valid.{SizesWithin};
ghost use Rattle.listing.specs.Layout.{least_words, cell_words, head, cells, strata, horizon, tables_at, offsets_of, row_at, row, cell_at, cell};
ghost use Rattle.listing.specs.Check.{is_cell_word, table_word_valid, cell_word_valid, term_word_valid, term_above, words_checked, later_checked, checked};
ghost use Rattle.listing.specs.Accepted.{Contiguous, Accepted};
ghost use Rattle.std.proofs.Props.{props};
ghost use Rattle.fields.proofs.Valid.{listed_prop};

use fields::{Cell, Head, MOST_CELLS, MOST_HORIZON, MOST_STRATA, Row};
use words::{KIND, Reason, Refusal, first_invalid, need};

// The words that every listing has.
const LEAST_WORDS: usize = 2;

// The place of the site word, in a listing that carries it.
const SITE_AT: usize = 2;

// Where the tables begin at the latest: after the site word.
const LATEST_TABLES_AT: usize = SITE_AT + 1;

const CELL_WORDS: usize = 2;

// The terms that a year may have, each once.
const YEAR_TERMS: usize = 7;

// The words of the longest listing: 4,303.
pub const MOST_WORDS: usize = LATEST_TABLES_AT
    + (MOST_STRATA * MOST_HORIZON) as usize
    + CELL_WORDS * MOST_CELLS as usize
    + YEAR_TERMS * MOST_HORIZON as usize;

// A listing that is accepted, and the figures of its head, which are read once.
#[derive(Clone, Copy, Debug, PartialEq, Eq)]
pub struct Listing<'a> {
    pub words: &'a [u32],
    pub figures: Head,
    pub ghost accepted: { Accepted words.now } by { Prim.hlevel (props, listed_prop) },
    pub ghost is_head: { figures ≡ head words.now },
}

// Where the parts of a listing begin.
#[derive(Clone, Copy, Debug, PartialEq, Eq)]
pub struct Offsets {
    pub tables: usize,
    pub cells: usize,
    pub terms: usize,
}

// A cell's two words alternate: which one it is, its place says. By a branch, as in the definition: of two
// closures one would be chosen by the same branch. Strata and horizon are what the definition takes.
#[tactic(auto, using(crate::proofs::Accepted::offset_depth, crate::proofs::Accepted::not_depth))]
fn is_cell_word(w: u32, strata: u32, horizon: u32, offset: usize) -> bool
    ensures { result ≡ is_cell_word strata horizon offset w }
{
    if offset == 0 {
        return fields::is_depth_word(w, strata, horizon);
    }
    fields::is_area_word(w)
}

// Whether every word of the tables is valid: without a branch for each word, since most listings are. By
// the search alone a closing took 18 percent longer (docs/DECISIONS.md). Places are those of the whole
// listing, here and below, as the definitions and a refusal name them.
fn tables_valid(listing: &[u32], start: usize, end: usize) -> bool
    requires { (start ≤ end) × (end ≤ length listing.now) }
    ensures { result ≡ true → end ≡ first_invalid (table_word_valid listing.now) start end }
{
    let mut faults: u32 = 0;
    for at in start..end {
        faults |= fields::table_fault(listing[at]);
    }
    KIND.of(faults) == 0
}

// The first word of the tables that is invalid; where there is none, `end`. By nested loops over strata and
// ages, left by a label, the form that document 01 asks for here.
fn first_invalid_table_word(
    listing: &[u32],
    strata: usize,
    horizon: usize,
    start: usize,
    end: usize,
) -> usize
    requires { (end ≡ start + strata * horizon) × (end ≤ length listing.now) }
    ensures { result ≡ first_invalid (table_word_valid listing.now) start end }
{
    if tables_valid(listing, start, end) {
        return end;
    }
    let mut found = end;
    'strata: for stratum in 0..strata {
        for age in 0..horizon {
            let at = start + stratum * horizon + age;
            if !fields::is_table_word(listing[at]) {
                found = at;
                break 'strata;
            }
        }
    }
    found
}

// Whether every word of the cells is valid: without a branch for each, as above. Words that are not
// accepted have no type yet, so that the head goes beside them, here and below.
fn cells_valid(listing: &[u32], h: Head, start: usize) -> bool
    requires { start + cell_words * h.cells ≤ length listing.now }
    ensures { result ≡ true →
        start + cell_words * h.cells ≡ first_invalid (cell_word_valid listing.now h.strata h.horizon start) start (start + cell_words * h.cells) }
{
    let mut valid = true;
    for i in 0..h.cells as usize {
        let at = start + CELL_WORDS * i;
        valid &= fields::is_depth_word(listing[at], h.strata, h.horizon);
        valid &= fields::is_area_word(listing[at + 1]);
    }
    valid
}

// The first word of the cells that is invalid; where there is none, `end`.
fn first_invalid_cell_word(listing: &[u32], h: Head, start: usize, end: usize) -> usize
    requires { (end ≡ start + cell_words * h.cells) × (end ≤ length listing.now) }
    ensures { result ≡ first_invalid (cell_word_valid listing.now h.strata h.horizon start) start end }
{
    if cells_valid(listing, h, start) {
        return end;
    }
    first_invalid(
        start,
        end,
        |at: usize| -> bool
            requires { (start ≤ at) × (at < length listing.now) }
            ensures { result ≡ cell_word_valid listing.entry.now h.strata h.horizon start at }
        { is_cell_word(listing[at], h.strata, h.horizon, (at - start) % CELL_WORDS) },
    )
}

// Whether there are terms, each of them valid and above the one before: without a branch for each
// word, as above. Where each is above the one before, no year is below the first or above the last, so that
// only these two are tested for their year.
fn terms_valid(listing: &[u32], horizon: u32, start: usize) -> bool
    requires { start ≤ length listing.now }
    ensures { result ≡ true →
        (length listing.now ≡ first_invalid (term_word_valid listing.now horizon) start (length listing.now))
        × (length listing.now ≡ first_invalid (term_above listing.now) (start + 1) (length listing.now)) }
{
    if listing.len() <= start {
        return false;
    }
    let mut valid = fields::is_term_word(listing[start], horizon);
    let mut last = fields::term_order(listing[start]);
    for at in start + 1..listing.len() {
        let next = fields::term_order(listing[at]);
        valid &= fields::is_listed_term(listing[at]);
        valid &= last < next;
        last = next;
    }
    valid & fields::is_term_word(listing[listing.len() - 1], horizon)
}

// The first term that is invalid; where there is none, the length.
fn first_invalid_term(listing: &[u32], horizon: u32, start: usize) -> usize
    requires { start ≤ length listing.now }
    ensures { result ≡ first_invalid (term_word_valid listing.now horizon) start (length listing.now) }
{
    first_invalid(
        start,
        listing.len(),
        |at: usize| -> bool
            requires { at < length listing.now }
            ensures { result ≡ term_word_valid listing.entry.now horizon at }
        { fields::is_term_word(listing[at], horizon) },
    )
}

// The first term that is not above the one before; where there is none, the length, or one more
// where there is no term.
fn first_term_not_above(listing: &[u32], start: usize) -> usize
    requires { start ≤ length listing.now }
    ensures { result ≡ first_invalid (term_above listing.now) (start + 1) (length listing.now) }
{
    if listing.len() <= start {
        return start + 1;
    }
    first_invalid(
        start + 1,
        listing.len(),
        |at: usize| -> bool
            requires { (1 ≤ at) × (at < length listing.now) }
            ensures { result ≡ term_above listing.entry.now at }
        { fields::is_above(listing[at - 1], listing[at]) },
    )
}

// The head of a listing; one that ends before word 2 has no site word, since 0 is not of kind 7.
pub fn head(listing: &[u32]) -> Head
    requires { least_words ≤ length listing.now }
    ensures { result ≡ head listing.now }
{
    let site = listing.get(SITE_AT).copied().unwrap_or(0);
    fields::head_of(listing[0], listing[1], site)
}

// Where the tables begin.
#[tactic(auto, unfolding(crate::specs::Layout::tables_at))]
fn tables_at(h: Head) -> usize
    ensures { result ≡ tables_at h }
{
    if h.has_site_word {
        LATEST_TABLES_AT
    } else {
        SITE_AT
    }
}

// Where the parts begin in a listing of these sizes.
pub fn offsets_of(h: Head) -> Offsets
    requires { SizesWithin h }
    ensures { result ≡ offsets_of h }
{
    let tables = tables_at(h);
    let cells = tables + (h.strata * h.horizon) as usize;
    Offsets {
        tables,
        cells,
        terms: cells + CELL_WORDS * h.cells as usize,
    }
}

impl Listing<'_> {
    // Where the parts begin.
    pub fn offsets(&self) -> Offsets
        ensures { result ≡ offsets_of (head self.now.words.now) }
    {
        offsets_of(self.figures)
    }

    // Where the table of a stratum has its word for a year of age.
    fn row_at(&self, stratum: u32, age: u32) -> usize
        requires { (stratum < strata self.now.words.now) × (1 ≤ age) × (age ≤ horizon self.now.words.now) }
        ensures { (result ≡ row_at self.now.words.now stratum age) × (result < length self.now.words.now) }
    {
        let s = self.offsets();
        s.tables + (stratum * self.figures.horizon) as usize + (age - 1) as usize
    }

    // Where cell `i` has its first word.
    fn cell_at(&self, i: usize) -> usize
        requires { i < cells self.now.words.now }
        ensures { (result ≡ cell_at self.now.words.now i) × (result + 1 < length self.now.words.now) }
    {
        let s = self.offsets();
        s.cells + CELL_WORDS * i
    }

    // The row of a stratum's table for a year of age.
    pub fn row(&self, stratum: u32, age: u32) -> Row
        requires { (stratum < strata self.now.words.now) × (1 ≤ age) × (age ≤ horizon self.now.words.now) }
        ensures { result ≡ row self.now.words.now stratum age }
    {
        Row::from(self.words[self.row_at(stratum, age)])
    }

    // The figures of cell `i`. A cell's number stays a `usize`, which C gives and number 10 tests: a type of
    // its own would have to be tied to the listing wherever one is made.
    pub fn cell(&self, i: usize) -> Cell
        requires { i < cells self.now.words.now }
        ensures { result ≡ cell self.now.words.now i }
    {
        let at = self.cell_at(i);
        fields::cell_of(self.words[at], self.words[at + 1])
    }
}

// Numbers 4 and 5, for the words from the tables on, whose parts begin at `s`: a search that came to its end
// has found nothing.
fn check_words(listing: &[u32], h: Head, s: Offsets) -> Result<(), Refusal>
    requires { Contiguous h s × (s.terms ≤ length listing.now) }
    ensures { outcome result ≡ words_checked listing.now h s }
{
    let table = first_invalid_table_word(
        listing,
        h.strata as usize,
        h.horizon as usize,
        s.tables,
        s.cells,
    );
    need(s.cells <= table, Reason::LaterWord, table)?;
    let cell = first_invalid_cell_word(listing, h, s.cells, s.terms);
    need(s.terms <= cell, Reason::LaterWord, cell)?;
    if terms_valid(listing, h.horizon, s.terms) {
        return Ok(());
    }
    let term = first_invalid_term(listing, h.horizon, s.terms);
    let later = first_term_not_above(listing, s.terms);
    need(listing.len() <= term, Reason::LaterWord, term)?;
    need(listing.len() <= later, Reason::TermNotAbove, later)
}

// Number 3, then the site's figures, and then the words.
fn check_later(listing: &[u32], h: Head, s: Offsets) -> Result<(), Refusal>
    requires { Contiguous h s }
    ensures { outcome result ≡ later_checked listing.now h s }
{
    let long_enough = s.terms <= listing.len();
    need(long_enough, Reason::ListingShort, listing.len())?;
    need(fields::is_site_valid(h), Reason::LaterWord, SITE_AT)?;
    check_words(listing, h, s)
}

// The answer for any words, numbers 1 to 5: the listing, or why it is refused. `same_words` says whose
// listing it is, here and where it is handed on, since the type holds any accepted words.
pub fn check(listing: &[u32]) -> Result<Listing<'_>, Refusal>
    ensures value { outcome result ≡ checked listing.now }
    ensures same_words { IfOk result (λ l. l.words.now ≡ listing.now) }
{
    need(LEAST_WORDS <= listing.len(), Reason::TooFewWords, 0)?;
    need(fields::is_size_word(listing[0]), Reason::HeadWord, 0)?;
    need(fields::is_figure_word(listing[1]), Reason::HeadWord, 1)?;
    let h = head(listing);
    check_later(listing, h, offsets_of(h))?;
    Ok(Listing {
        words: listing,
        figures: h,
    })
}
