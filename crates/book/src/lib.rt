// The book: where its words are and what they hold, its check, and the refusals with which every
// call begins. What goes by a book's shape takes it.
#![tactic(auto)]

ghost use Rattle.std.specs.Prelude.{◌≡◌, true, ◌+◌, ◌*◌, ◌^◌, ◌<◌, ◌≤◌, length, set, IfOk};
ghost use Rattle.words.specs.Bits.{word_of};
ghost use Rattle.words.specs.Kinds.{kind_of};
ghost use Rattle.words.specs.Search.{first_invalid};
ghost use Rattle.words.specs.Answers.{outcome};
ghost use Rattle.listing.specs.Layout.{head, cells};
ghost use Rattle.year.specs.Year.{kg_of};
ghost use Rattle.book.specs.Layout.{Sized, Shaped, year_at, issued_words, entry_at, book_size, joined, year, issued, entry_of, words_of, entry, with_year, stored};
ghost use Rattle.book.specs.Layout.{with_issued, plan_word, with_plan, held_words};
ghost use Rattle.book.specs.Check.{is_year_word, is_plan_word, is_burned_word, is_head_word, head_word_valid, entry_word_valid, book_word_valid, capacity_checked, fitted, book_checked, admitted};
ghost use Rattle.book.specs.AcceptedBook.{Fitted, CellInBook, All, Storable, CellWordsValid};
ghost use Rattle.book.specs.Current as current;
ghost use Rattle.std.proofs.Props.{props};
ghost use Rattle.fields.proofs.Valid.{listed_prop};

use fields::{Cell, Head};
use listing::Listing;
use words::{Field, Kind, PAYLOAD, Reason, Refusal, first_invalid, need};
use year::Entry;

// How many words a book's head has, and a cell in it. `Shaped` stays a fact of clauses: as a ghost field,
// each shape that a definition writes would have to carry its proof.
#[derive(Clone, Copy, Debug, PartialEq, Eq)]
pub struct Shape {
    pub head: usize,
    pub entry: usize,
}

// The old shape: one word of tonnes issued, so a head of 2 words; 3 words for each cell.
pub const ISSUED_IN_ONE_WORD: Shape = Shape { head: 2, entry: 3 };

// Two words of tonnes issued, so a head of 3 words.
pub const ISSUED_IN_TWO_WORDS: Shape = Shape { head: 3, entry: 3 };

// The book that the calls take.
pub const BOOK: Shape = ISSUED_IN_TWO_WORDS;

// The words of a cell in the lines of a closing.
pub const LINE_WORDS: usize = 3;

// The bits of a cell's mark and of its plan year, and those between the mark and the kind, which are 0.
const MARK: Field = Field { high: 8, low: 8 };

const PLAN: Field = Field { high: 7, low: 0 };

const PLAN_ZEROS: Field = Field { high: 27, low: 9 };

// Where the current year is, and where the tonnes issued begin.
const YEAR_AT: usize = 0;

const ISSUED_AT: usize = 1;

// An accepted listing, and a slice with space for its book, whose words are not tested yet.
#[derive(Clone, Copy, Debug, PartialEq, Eq)]
struct FittedBook<'a> {
    shape: Shape,
    listing: Listing<'a>,
    words: &'a [u32],
    ghost shaped: { Shaped shape },
    ghost capacity: { book_size shape (cells listing.words.now) ≤ length words.now },
}

// An accepted listing, and an accepted book for it. Of a slice that is lent to be written the facts stay in
// clauses: that it is accepted need not hold between two writes, and a struct with its length alone would have
// to lend it again at each. So do those of functions that read a book of any shape, since this is of one.
#[derive(Clone, Copy, Debug, PartialEq, Eq)]
pub struct OpenBook<'a> {
    pub listing: Listing<'a>,
    pub words: &'a [u32],
    pub ghost accepted: { current.AcceptedBook listing.words.now words.now } by { Prim.hlevel (props, listed_prop) },
}

// Where cell `i` begins; at the number of cells, how many words a book needs.
pub fn entry_at(s: Shape, i: usize) -> usize
    requires { Shaped s × (i < 2 ^ 32) }
    ensures { result ≡ entry_at s i }
{
    s.head + s.entry * i
}

// The words of cell `i`, in a book of any shape, of which no more is known than that it is long enough.
pub fn words_of(s: Shape, book: &[u32], i: usize) -> &[u32]
    requires { CellInBook s book.now i }
    ensures { result.now ≡ words_of s book.now i }
{
    let a = entry_at(s, i);
    let e = a + s.entry;
    &book[a..e]
}

fn is_year_word(w: u32, horizon: u32) -> bool
    ensures { result ≡ is_year_word horizon w }
{
    Kind::Year.is_of(w) & PAYLOAD.is_within(w, 0, horizon)
}

fn is_plan_word(w: u32, horizon: u32) -> bool
    ensures { result ≡ is_plan_word horizon w }
{
    Kind::Plan.is_of(w) & (PLAN_ZEROS.of(w) == 0) & PLAN.is_within(w, 0, horizon)
}

// Whether a cell's word of mm burned is valid, behind its word of mm oxidised: not more is lost than
// `most`.
fn is_burned_word(before: u32, w: u32, most: u32) -> bool
    ensures { result ≡ is_burned_word most before w }
{
    Kind::Burned.is_of(w) & (PAYLOAD.of(before) + PAYLOAD.of(w) <= most)
}

// Whether the word at `k` of the head is valid: which it is, its place says, by a branch as in the
// definition. Of two closures one would be chosen by the same branch.
fn is_head_word(w: u32, k: usize, horizon: u32) -> bool
    ensures { result ≡ is_head_word horizon k w }
{
    if k == YEAR_AT {
        return is_year_word(w, horizon);
    }
    Kind::Issued.is_of(w)
}

// Whether all of a cell's own words are valid: without a branch, since most are. With one for each cell a
// closing took 12 percent longer (docs/DECISIONS.md). They are lent as a slice, since a cell of a coming shape
// has more. Head and cell are two parameters, here and below, as in `year`.
fn entry_valid(h: Head, c: Cell, entry: &[u32]) -> bool
    requires { Sized (length entry.now) }
    ensures { result ≡ true → All (entry_word_valid h c entry.now) (length entry.now) }
{
    let plan = is_plan_word(entry[0], h.horizon);
    let oxidised = Kind::Oxidised.is_of(entry[1]);
    plan & oxidised & is_burned_word(entry[1], entry[2], year::most_loss(h, c))
}

// The first of a cell's own words that is invalid; where there is none, their number. Three words of three
// kinds, tested in turn: a search by place would choose the test by the place.
fn first_invalid_entry_word(h: Head, c: Cell, entry: &[u32]) -> usize
    requires { Sized (length entry.now) }
    ensures { result ≡ first_invalid (entry_word_valid h c entry.now) 0 (length entry.now) }
{
    if !is_plan_word(entry[0], h.horizon) {
        return 0;
    }
    if !Kind::Oxidised.is_of(entry[1]) {
        return 1;
    }
    if !is_burned_word(entry[1], entry[2], year::most_loss(h, c)) {
        return 2;
    }
    entry.len()
}

impl FittedBook<'_> {
    // How many words the book needs.
    fn size(&self) -> usize
        ensures { result ≡ book_size self.now.shape (cells self.now.listing.words.now) }
    {
        entry_at(self.shape, self.listing.figures.cells as usize)
    }

    // The first word of the head that is invalid; where there is none, the head's size.
    fn first_invalid_head_word(&self) -> usize
        ensures { result ≡ first_invalid (head_word_valid self.now.listing.figures.horizon self.now.words.now) 0 self.now.shape.head }
    {
        let horizon = self.listing.figures.horizon;
        let book = self.words;
        first_invalid(
            0,
            self.shape.head,
            |k: usize| -> bool
                requires { k < length book.now }
                ensures { result ≡ head_word_valid horizon book.entry.now k }
            { is_head_word(book[k], k, horizon) },
        )
    }

    // Whether the words of all cells are valid, without a branch for each cell, as `entry_valid` has none.
    fn cells_valid(&self) -> bool
        ensures { result ≡ true →
            book_size self.now.shape (cells self.now.listing.words.now)
            ≡ first_invalid (book_word_valid self.now.shape self.now.listing.words.now self.now.words.now) self.now.shape.head (book_size self.now.shape (cells self.now.listing.words.now)) }
    {
        let mut valid = true;
        for i in 0..self.listing.figures.cells as usize {
            let words = words_of(self.shape, self.words, i);
            valid &= entry_valid(self.listing.figures, self.listing.cell(i), words);
        }
        valid
    }

    // The first word of the cells that is invalid; where there is none, the book's size. Cell by cell, so
    // that a cell's figures are read once and not for each of its words.
    fn first_invalid_cell_word(&self) -> usize
        ensures { result
            ≡ first_invalid (book_word_valid self.now.shape self.now.listing.words.now self.now.words.now) self.now.shape.head (book_size self.now.shape (cells self.now.listing.words.now)) }
    {
        for i in 0..self.listing.figures.cells as usize {
            let words = words_of(self.shape, self.words, i);
            let j = first_invalid_entry_word(self.listing.figures, self.listing.cell(i), words);
            if j < self.shape.entry {
                return entry_at(self.shape, i) + j;
            }
        }
        self.size()
    }

    // The first word of the book that is invalid; where there is none, its size.
    fn first_invalid_word(&self) -> usize
        ensures { result
            ≡ first_invalid (book_word_valid self.now.shape self.now.listing.words.now self.now.words.now) 0 (book_size self.now.shape (cells self.now.listing.words.now)) }
    {
        let k = self.first_invalid_head_word();
        if k < self.shape.head {
            return k;
        }
        if self.cells_valid() {
            return self.size();
        }
        self.first_invalid_cell_word()
    }
}

// Number 6, for a valid listing.
pub fn check_capacity(s: Shape, listing: &Listing<'_>, book: &[u32]) -> Result<(), Refusal>
    requires { Shaped s }
    ensures { outcome result ≡ capacity_checked s listing.now.words.now book.now }
{
    let size = entry_at(s, listing.figures.cells as usize);
    need(size <= book.len(), Reason::BookShort, book.len())
}

// Numbers 1 to 6: a valid listing, and space for its book.
pub fn fits<'a>(s: Shape, listing: &'a [u32], book: &[u32]) -> Result<Listing<'a>, Refusal>
    requires { Shaped s }
    ensures value { outcome result ≡ fitted s listing.now book.now }
    ensures same_words { IfOk result (λ l. l.words.now ≡ listing.now) }
{
    let accepted = listing::check(listing)?;
    check_capacity(s, &accepted, book)?;
    Ok(accepted)
}

// Number 8, for a valid listing and a book that is long enough.
pub fn check_book(s: Shape, listing: &Listing<'_>, book: &[u32]) -> Result<(), Refusal>
    requires { Fitted s listing.now.words.now book.now }
    ensures { outcome result ≡ book_checked s listing.now.words.now book.now }
{
    let fitted = FittedBook {
        shape: s,
        listing: *listing,
        words: book,
    };
    let at = fitted.first_invalid_word();
    need(fitted.size() <= at, Reason::BookWord, at)
}

// Numbers 1 to 6 and 8, with which every call on an open book but a closing begins.
pub fn admit<'a>(s: Shape, listing: &'a [u32], book: &[u32]) -> Result<Listing<'a>, Refusal>
    requires { Shaped s }
    ensures value { outcome result ≡ admitted s listing.now book.now }
    ensures same_words { IfOk result (λ l. l.words.now ≡ listing.now) }
{
    let accepted = fits(s, listing, book)?;
    check_book(s, &accepted, book)?;
    Ok(accepted)
}

// The same for a book that the calls take.
pub fn read<'a>(listing: &'a [u32], book: &'a [u32]) -> Result<OpenBook<'a>, Refusal>
    ensures value { outcome result ≡ current.admitted listing.now book.now }
    ensures same_listing { IfOk result (λ b. b.listing.words.now ≡ listing.now) }
    ensures same_book { IfOk result (λ b. b.words.now ≡ book.now) }
{
    let accepted = admit(BOOK, listing, book)?;
    Ok(OpenBook {
        listing: accepted,
        words: book,
    })
}

// The number in `n` words, one or two, from `from` on: by place and count, here and where it is written,
// as the definitions have it.
fn joined(book: &[u32], from: usize, n: usize) -> u64
    requires { (n ≤ 2) × (from + n ≤ length book.now) }
    ensures { result ≡ joined book.now from n }
{
    let mut x: u64 = 0;
    for k in 0..n {
        x = x * 268_435_456 + u64::from(PAYLOAD.of(book[from + k]));
    }
    x
}

// The current year.
pub fn year(book: &[u32]) -> u32
    requires { year_at < length book.now }
    ensures { result ≡ year book.now }
{
    PAYLOAD.of(book[YEAR_AT])
}

// The tonnes issued.
pub fn issued(s: Shape, book: &[u32]) -> u64
    requires { Shaped s × (s.head ≤ length book.now) }
    ensures { result ≡ issued s book.now }
{
    joined(book, ISSUED_AT, s.head - ISSUED_AT)
}

// The entry that a cell's own words hold. A slice of three words or more, since a cell of a coming shape
// has more, and a `From` could not ask for three.
pub fn entry_of(words: &[u32]) -> Entry
    requires { 3 ≤ length words.now }
    ensures { result ≡ entry_of words.now }
{
    Entry {
        withdrawn: MARK.of(words[0]) == 1,
        plan: PLAN.of(words[0]),
        oxidised: PAYLOAD.of(words[1]),
        burned: PAYLOAD.of(words[2]),
    }
}

// The entry that the book holds of cell `i`.
pub fn entry(s: Shape, book: &[u32], i: usize) -> Entry
    requires { CellInBook s book.now i }
    ensures { result ≡ entry s book.now i }
{
    entry_of(words_of(s, book, i))
}

// The kg to date of a cell, from its own words.
pub fn kg_of(h: Head, c: Cell, words: &[u32]) -> u32
    requires { CellWordsValid h c words.now }
    ensures { result ≡ kg_of h c (entry_of words.now) }
{
    let e = entry_of(words);
    year::emission(h, c, e.oxidised, e.burned)
}

// Writes the word of a kind at `at`.
fn put_payload(book: &mut [u32], at: usize, kind: Kind, payload: u32)
    requires { (at < length book.old) × (payload < 2 ^ 28) }
    ensures { book.new ≡ set book.old at (word_of (kind_of kind) payload) }
{
    book[at] = kind.word(payload);
}

// Writes a number into `n` words of a kind, from `from` on.
fn put_joined(book: &mut [u32], from: usize, n: usize, kind: Kind, x: u64)
    requires { from + n ≤ length book.old }
    ensures { book.new ≡ stored (kind_of kind) book.old from n x }
{
    let mut rest = x;
    for k in (0..n).rev() {
        put_payload(book, from + k, kind, (rest % 268_435_456) as u32);
        rest /= 268_435_456;
    }
}

// Writes the current year.
pub fn put_year(book: &mut [u32], year: u32)
    requires { year_at < length book.old }
    ensures { book.new ≡ with_year book.old year }
{
    put_joined(book, YEAR_AT, 1, Kind::Year, u64::from(year));
}

// Writes the tonnes issued.
pub fn put_issued(s: Shape, book: &mut [u32], tonnes: u64)
    requires { Shaped s × (s.head ≤ length book.old) × (tonnes < 2 ^ (28 * issued_words s)) }
    ensures { book.new ≡ with_issued s book.old tonnes }
{
    put_joined(book, ISSUED_AT, s.head - ISSUED_AT, Kind::Issued, tonnes);
}

// The word of a mark and a plan year.
fn plan_word(withdrawn: bool, plan: u32) -> u32
    requires { plan < 2 ^ 8 }
    ensures { result ≡ plan_word withdrawn plan }
{
    let mark = u32::from(withdrawn);
    Kind::Plan.word((mark << 8) | plan)
}

// Writes the mark and the plan year of an entry as those of cell `i`.
pub fn put_plan(s: Shape, book: &mut [u32], i: usize, e: Entry)
    requires { CellInBook s book.old i × (e.plan < 2 ^ 8) }
    ensures { book.new ≡ with_plan s book.old i e }
{
    let at = entry_at(s, i);
    book[at] = plan_word(e.withdrawn, e.plan);
}

// Writes a cell's own words.
pub fn put_entry(words: &mut [u32], e: Entry)
    requires { Sized (length words.old) × Storable e }
    ensures { words.new ≡ held_words (length words.old) e }
{
    words[0] = plan_word(e.withdrawn, e.plan);
    words[1] = Kind::Oxidised.word(e.oxidised);
    words[2] = Kind::Burned.word(e.burned);
}

// The functions above, for the shape in use, so that whoever has an open book gives no shape.
impl OpenBook<'_> {
    // The current year.
    pub fn year(&self) -> u32
        ensures { result ≡ year self.now.words.now }
    {
        year(self.words)
    }

    // The tonnes issued.
    pub fn issued(&self) -> u64
        ensures { result ≡ current.issued self.now.words.now }
    {
        issued(BOOK, self.words)
    }

    // The entry that it holds of cell `i`.
    pub fn entry(&self, i: usize) -> Entry
        requires { i < cells self.now.listing.words.now }
        ensures { result ≡ current.entry self.now.words.now i }
    {
        entry(BOOK, self.words, i)
    }

    // The kg to date of cell `i`.
    pub fn kg_to_date(&self, i: usize) -> u32
        requires { i < cells self.now.listing.words.now }
        ensures { result ≡ current.kg_to_date self.now.listing.words.now self.now.words.now i }
    {
        let c = self.listing.cell(i);
        kg_of(self.listing.figures, c, words_of(BOOK, self.words, i))
    }
}
