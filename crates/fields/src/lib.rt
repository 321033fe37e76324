// The words of a project's listing, each by itself: which are valid, and their fields.
#![tactic(auto)]

ghost use Rattle.std.specs.Prelude.{◌≡◌, cond};
ghost use Rattle.words.specs.Bits.{bits, is_kind};
ghost use Rattle.fields.specs.Fields.{is_site_word, head_of, row_of, cell_of, yearly_term_of};
ghost use Rattle.fields.specs.Words.{is_size_word, is_figure_word, is_site_valid, is_table_word, is_depth_word, is_area_word, is_listed_term, is_term_word, is_above};
ghost use Rattle.fields.specs.Valid.{term_order};

use words::{Field, Kind};

// The limits of word 0.
pub const MOST_CELLS: u32 = 1000;

pub const MOST_STRATA: u32 = 16;

pub const MOST_HORIZON: u32 = 100;

// Of word 1: the buffer percentage, the warming potential and the emission ratio of methane.
const MOST_BUFFER: u32 = 100;

const MOST_WARMING: u32 = 100;

const MOST_METHANE: u32 = 100;

// Of the site word: the guard, the least thickness of peat.
const MOST_GUARD: u32 = 2_000;

const MOST_THICKNESS: u32 = 2_000;

// Of a cell's words.
const MOST_DEPTH: u32 = 20_000;

const MOST_AREA: u32 = 10_000;

const MOST_DENSITY: u32 = 2_400;

// The highest term.
const MOST_TERM: u32 = 8;

// The fields of word 0.
const CELLS: Field = Field { high: 27, low: 16 };

const STRATA: Field = Field { high: 15, low: 8 };

const HORIZON: Field = Field { high: 7, low: 0 };

// Of word 1.
const CHAR: Field = Field { high: 27, low: 23 };

const BUFFER: Field = Field { high: 22, low: 16 };

const WARMING: Field = Field { high: 15, low: 8 };

const METHANE: Field = Field { high: 7, low: 0 };

// Of the site word, and what they are in a listing without it.
const GUARD: Field = Field { high: 27, low: 14 };

const THICKNESS: Field = Field { high: 13, low: 0 };

const DEFAULT_GUARD: u32 = 400;

const DEFAULT_THICKNESS: u32 = 300;

// Of a word of a table.
const DRAINAGE: Field = Field { high: 27, low: 20 };

const OXIDATION: Field = Field { high: 19, low: 10 };

const BURNING: Field = Field { high: 9, low: 0 };

// Of a cell's two words; AREA_ZEROS are bits that must be 0.
const STRATUM: Field = Field { high: 27, low: 24 };

const CONVERSION: Field = Field { high: 23, low: 16 };

const ENTERED: Field = Field { high: 15, low: 0 };

const AREA_ZEROS: Field = Field { high: 27, low: 26 };

const AREA: Field = Field { high: 25, low: 12 };

const DENSITY: Field = Field { high: 11, low: 0 };

// Of a term.
const TERM: Field = Field { high: 27, low: 24 };

const YEAR: Field = Field { high: 23, low: 17 };

const TONNES: Field = Field { high: 16, low: 0 };

// The figures of the project as a whole, and whether a word states those of the site: the guard and the
// least thickness of peat, in mm.
#[derive(Clone, Copy, Debug, PartialEq, Eq)]
pub struct Head {
    pub cells: u32,
    pub strata: u32,
    pub horizon: u32,
    pub char: u32,
    pub buffer: u32,
    pub warming: u32,
    pub methane: u32,
    pub has_site_word: bool,
    pub guard: u32,
    pub thickness: u32,
}

// The figures of a stratum's table for a year of age.
#[derive(Clone, Copy, Debug, PartialEq, Eq)]
pub struct Row {
    pub drainage: u32,
    pub oxidation: u32,
    pub burning: u32,
}

// The figures of a cell; a conversion of 0 is none, as its word has it.
#[derive(Clone, Copy, Debug, PartialEq, Eq)]
pub struct Cell {
    pub stratum: u32,
    pub conversion: u32,
    pub entered: u32,
    pub area: u32,
    pub density: u32,
}

// A term of a year. Terms go by the number that the methodology gives them, since S takes those up to 5.
#[derive(Clone, Copy, Debug, PartialEq, Eq)]
pub struct YearlyTerm {
    pub term: u32,
    pub year: u32,
    pub tonnes: i32,
}

// Whether w is valid as word 0.
pub fn is_size_word(w: u32) -> bool
    ensures { result ≡ is_size_word w }
{
    Kind::Size.is_of(w)
        & CELLS.is_within(w, 1, MOST_CELLS)
        & STRATA.is_within(w, 1, MOST_STRATA)
        & HORIZON.is_within(w, 1, MOST_HORIZON)
}

// Whether w is valid as word 1.
pub fn is_figure_word(w: u32) -> bool
    ensures { result ≡ is_figure_word w }
{
    Kind::Figure.is_of(w)
        & BUFFER.is_within(w, 0, MOST_BUFFER)
        & WARMING.is_within(w, 1, MOST_WARMING)
        & METHANE.is_within(w, 0, MOST_METHANE)
}

// Whether the site's figures are valid, from its word or without one.
#[tactic(auto, unfolding(crate::specs::Words::is_site_valid))]
pub fn is_site_valid(h: Head) -> bool
    ensures { result ≡ is_site_valid h }
{
    (h.guard <= MOST_GUARD) & (h.thickness <= MOST_THICKNESS)
}

// Whether w is valid as a word of a table.
pub fn is_table_word(w: u32) -> bool
    ensures { result ≡ is_table_word w }
{
    Kind::Table.is_of(w)
}

// The bits in which w differs from the word of a table with all values 0: bits 31 to 28 are 0 where w is
// a word of a table, so that many words can be joined by `|` and tested once.
pub fn table_fault(w: u32) -> u32
    ensures { is_kind 0 result ≡ is_table_word w }
{
    w ^ Kind::Table.word(0)
}

// Whether w is valid as a cell's first word, by the two figures of word 0 that its ranges go by.
pub fn is_depth_word(w: u32, strata: u32, horizon: u32) -> bool
    ensures { result ≡ is_depth_word strata horizon w }
{
    Kind::Depth.is_of(w)
        & (STRATUM.of(w) < strata)
        & CONVERSION.is_within(w, 0, horizon)
        & ENTERED.is_within(w, 0, MOST_DEPTH)
}

// Whether w is valid as a cell's second word.
pub fn is_area_word(w: u32) -> bool
    ensures { result ≡ is_area_word w }
{
    Kind::Area.is_of(w)
        & (AREA_ZEROS.of(w) == 0)
        & AREA.is_within(w, 1, MOST_AREA)
        & DENSITY.is_within(w, 1, MOST_DENSITY)
}

// Whether w is valid as a term but for its year: 1, or 3 and more, by the methodology's numbers.
pub fn is_listed_term(w: u32) -> bool
    ensures { result ≡ is_listed_term w }
{
    Kind::Term.is_of(w) & ((TERM.of(w) == 1) | TERM.is_within(w, 3, MOST_TERM))
}

// Whether w is valid as a term.
pub fn is_term_word(w: u32, horizon: u32) -> bool
    ensures { result ≡ is_term_word horizon w }
{
    is_listed_term(w) & YEAR.is_within(w, 1, horizon)
}

// A term's place in the order of terms: by year, then by term, which has 4 bits. One number, which a pass
// over the terms compares without the branch that an order of pairs has.
pub fn term_order(w: u32) -> u32
    ensures { result ≡ term_order w }
{
    YEAR.of(w) * 16 + TERM.of(w)
}

// Whether a term is of a later year than the one before, or of the same year and a higher term.
pub fn is_above(before: u32, w: u32) -> bool
    ensures { result ≡ is_above before w }
{
    term_order(before) < term_order(w)
}

// A figure of the site: that of `x` where it is the site word, and otherwise what holds without one.
fn site_figure(x: u32, figure: Field, default: u32) -> u32
    ensures { result ≡ cond (is_site_word x) (bits x figure.high figure.low) default }
{
    if Kind::Site.is_of(x) {
        figure.of(x)
    } else {
        default
    }
}

// The figures of words 0 and 1, and of `x`, word 2, where it is the site word. Head and cell are each read
// from several words, so that a `From` would take a tuple made for it.
pub fn head_of(w: u32, v: u32, x: u32) -> Head
    ensures { result ≡ head_of w v x }
{
    Head {
        cells: CELLS.of(w),
        strata: STRATA.of(w),
        horizon: HORIZON.of(w),
        char: CHAR.of(v),
        buffer: BUFFER.of(v),
        warming: WARMING.of(v),
        methane: METHANE.of(v),
        has_site_word: Kind::Site.is_of(x),
        guard: site_figure(x, GUARD, DEFAULT_GUARD),
        thickness: site_figure(x, THICKNESS, DEFAULT_THICKNESS),
    }
}

// The figures of a word of a table.
impl From<u32> for Row {
    ghost from_gives = { λ w r. r ≡ row_of w };

    fn from(w: u32) -> Row {
        Row {
            drainage: DRAINAGE.of(w),
            oxidation: OXIDATION.of(w),
            burning: BURNING.of(w),
        }
    }
}

// The figures of a cell's two words, not by a `From`, as above.
pub fn cell_of(w: u32, v: u32) -> Cell
    ensures { result ≡ cell_of w v }
{
    Cell {
        stratum: STRATUM.of(w),
        conversion: CONVERSION.of(w),
        entered: ENTERED.of(w),
        area: AREA.of(v),
        density: DENSITY.of(v),
    }
}

// The figures of a term's word.
impl From<u32> for YearlyTerm {
    ghost from_gives = { λ w t. t ≡ yearly_term_of w };

    fn from(w: u32) -> YearlyTerm {
        YearlyTerm {
            term: TERM.of(w),
            year: YEAR.of(w),
            tonnes: TONNES.signed_of(w),
        }
    }
}
