// What every crate of the ledger is made of: a 32-bit word with its kind and its bits, and the
// refusal of a call with its reason and its place.
#![tactic(auto)]

ghost use Rattle.std.specs.Prelude.{◌≡◌, true, false, ℕ, ◌^◌, ◌<◌, ◌≤◌};
ghost use Rattle.words.specs.Bits.{bits, signed_bits, is_kind, within, word_of, BitRange};
ghost use Rattle.words.specs.Kinds.{kind_of};
ghost use Rattle.words.specs.Refusals.{number_of};
ghost use Rattle.words.specs.Answers.{outcome, accepted, need};

use std::fmt;

// Why a call is refused, by the numbers of the table of refusals, in its order; 14 is proved not to arise.
#[derive(Clone, Copy, Debug, PartialEq, Eq)]
pub enum Reason {
    // Listing: too few words for a head; place 0.
    TooFewWords = 1,
    // Word 0 or 1 is invalid; its index.
    HeadWord = 2,
    // Too short for its head; its length.
    ListingShort = 3,
    // A later word that is invalid; its index.
    LaterWord = 4,
    // Term not above the one before; the later index.
    TermNotAbove = 5,
    // Buffers: book too short; its length.
    BookShort = 6,
    // Lines too short (close); its length.
    LinesShort = 7,
    // Book: a word that is invalid; its index.
    BookWord = 8,
    // Call: close at the horizon; place 0.
    HorizonReached = 9,
    // No such cell (replan, withdraw, statement); place 0.
    NoSuchCell = 10,
    // Cell withdrawn (replan, withdraw); place 0.
    CellWithdrawn = 11,
    // Cell converted already (replan); place 0.
    CellConverted = 12,
    // New year not ahead (replan); place 0.
    YearNotAhead = 13,
    // Forecast: output too short; its length.
    OutputShort = 15,
    // Reading: not finite; 0 or 1, of a dip its index.
    NotFinite = 16,
    // Out of range; 0, 1 or 2, of a dip its index.
    OutOfRange = 17,
    // Missing; place 0.
    ReadingMissing = 18,
    // Discount: invalid list lengths; place 0.
    ListLengths = 19,
    // A value too large; the list, 0–3.
    ValueTooLarge = 20,
    // Logged blocks: invalid years, strata or length of a table; place 0.
    LoggedSizes = 21,
    // A value too large; the list, 0–2.
    LoggedValueTooLarge = 22,
    // Dips: lists of one recording that differ in length; place 0.
    DipsLengths = 23,
    // Day not above the one before; the later index.
    DayNotAbove = 24,
}

// Why a call is refused, and where.
#[derive(Clone, Copy, Debug, PartialEq, Eq)]
pub struct Refusal {
    pub reason: Reason,
    pub place: usize,
}

// What a word holds, by its bits 31 to 28.
#[derive(Clone, Copy, Debug, PartialEq, Eq)]
pub enum Kind {
    // Of a listing.
    Size = 1,
    Figure = 2,
    Table = 3,
    Depth = 4,
    Area = 5,
    Term = 6,
    Site = 7,
    // Of a book.
    Year = 8,
    Issued = 9,
    Plan = 10,
    Oxidised = 11,
    Burned = 12,
    // Of a closing's lines.
    OxidisedLine = 13,
    BurnedLine = 14,
    KgLine = 15,
}

// Bits `high` to `low` of a word.
#[derive(Clone, Copy, Debug, PartialEq, Eq)]
pub struct Field {
    pub high: u32,
    pub low: u32,
    ghost range: { BitRange high low },
}

// The bits of every word: its kind, and what it holds.
pub const KIND: Field = Field { high: 31, low: 28 };

pub const PAYLOAD: Field = Field { high: 27, low: 0 };

impl Reason {
    // Its number in the table. By a method, here and below: `u32::from(reason)` would not say which number.
    pub fn number(self) -> u32
        ensures { result ≡ number_of self }
    {
        self as u32
    }
}

impl fmt::Display for Refusal {
    fn fmt<W: fmt::Write>(&self, f: &mut fmt::Formatter<W>) -> fmt::Result {
        write!(f, "refused {} {}", self.reason.number(), self.place)
    }
}

// The refusal as the answer of a call, whatever its value would be.
pub fn refuse<T>(reason: Reason, place: usize) -> Result<T, Refusal>
    ensures { result ≡ Err (record { reason = reason; place = place }) }
{
    Err(Refusal { reason, place })
}

impl Field {
    // These bits of `w`, as a number.
    pub fn of(self, w: u32) -> u32
        ensures { result ≡ bits w self.high self.low }
    {
        (w >> self.low) & ((1u32 << (self.high + 1 - self.low)) - 1)
    }

    // These bits of `w`, as a two's complement number.
    pub fn signed_of(self, w: u32) -> i32
        ensures { result ≡ signed_bits w self.high self.low }
    {
        let x = self.of(w);
        let half = 1u32 << (self.high - self.low);
        (x ^ half) as i32 - half as i32
    }

    // Whether these bits of `w` are a number from `least` to `most`: by `&`, with no branch between the two.
    pub fn is_within(self, w: u32, least: u32, most: u32) -> bool
        ensures { result ≡ within least most (bits w self.high self.low) }
    {
        let x = self.of(w);
        (least <= x) & (x <= most)
    }
}

impl Kind {
    // Its number, in bits 31 to 28.
    pub fn number(self) -> u32
        ensures { result ≡ kind_of self }
    {
        self as u32
    }

    // Whether `w` is of this kind.
    pub fn is_of(self, w: u32) -> bool
        ensures { result ≡ is_kind (kind_of self) w }
    {
        is_kind(w, self.number())
    }

    // The word of this kind whose bits 27 to 0 are `payload`.
    pub fn word(self, payload: u32) -> u32
        requires { payload < 2 ^ 28 }
        ensures { result ≡ word_of (kind_of self) payload }
    {
        word(self.number(), payload)
    }
}

// Whether `w` is of a kind by its number, of those too that no rule names.
pub fn is_kind(w: u32, kind: u32) -> bool
    ensures { result ≡ is_kind kind w }
{
    KIND.of(w) == kind
}

// The word of a kind by its number, as above, whose bits 27 to 0 are `payload`.
pub fn word(kind: u32, payload: u32) -> u32
    requires { (kind < 16) × (payload < 2 ^ 28) }
    ensures { result ≡ word_of kind payload }
{
    (kind << 28) | payload
}

// The refusal unless a test holds. The tests of a call are calls of this, one after the other by `?`.
#[tactic(auto, using(crate::proofs::Answers::need_next, crate::proofs::Answers::need_failed))]
pub fn need(holds: bool, reason: Reason, place: usize) -> Result<(), Refusal>
    ensures { outcome result ≡ need holds (number_of reason) place (accepted 0) }
{
    if holds {
        return Ok(());
    }
    refuse(reason, place)
}

// The first place that is invalid, from `from` up to, but without, `to`; where all are valid, `to`. A place
// and not an `Option`, here and in every search, as in the definition: whoever refuses asks whether the place
// is before the end. Places are those of a whole listing or book, so that no slice is cut.
pub fn first_invalid<F: Fn(usize) -> bool>(from: usize, to: usize, is_valid: F) -> usize
    requires ordered { from ≤ to }
    requires callable { (k : ℕ) → from ≤ k → k < to → F.pre is_valid k }
    ensures low { from ≤ result }
    ensures high { result ≤ to }
    ensures before { (k : ℕ) → from ≤ k → k < result → F.post is_valid k true }
    ensures invalid { result < to → F.post is_valid result false }
{
    for at in from..to {
        if !is_valid(at) {
            return at;
        }
    }
    to
}
