// A depth in whole millimetres from a reading in metres, by the exact value of its binary32.
#![tactic(auto)]

ghost use Rattle.std.specs.Prelude.{◌≡◌, true, false, pos, ◌+ℤ◌};
ghost use Rattle.words.specs.Answers.{amount};
ghost use Rattle.reading.specs.Metres.{is_finite, numerator, in_range, in_core, in_level, mm, lowest_mm, Ends};
ghost use Rattle.reading.specs.Depth.{core, levels, depth};
ghost use Rattle.reading.specs.declared.Reading.TheVariants.{Missing};

use words::{Field, Reason, Refusal, need, refuse};

#[derive(Clone, Copy, Debug, PartialEq)]
pub enum Reading {
    Core(f32),
    Levels(f32, f32),
    Missing,
}

// The ends of the ranges, in metres.
const MOST_CORE: f32 = 20.0;

const LOWEST_LEVEL: f32 = -100.0;

const HIGHEST_LEVEL: f32 = 3000.0;

const LOWEST_MM: u32 = 100_000; // the lowest level's millimetres, below zero

const MOST_DEPTH: u32 = 20_000; // the greatest depth between two levels, in mm

const PAIR: usize = 2; // the place of a depth between two levels

// The bits of a binary32's pattern, below that of its sign.
const EXPONENT: Field = Field { high: 30, low: 23 };

const MANTISSA: Field = Field { high: 22, low: 0 };

// The depth that a reading gives, or why it gives none.
pub fn depth(reading: Reading) -> Result<u32, Refusal>
    ensures { amount result ≡ depth reading }
{
    match reading {
        Reading::Core(x) => core(x),
        Reading::Levels(surface, base) => levels(surface, base),
        Reading::Missing => missing(),
    }
}

// The answer to a reading that is missing.
pub fn missing() -> Result<u32, Refusal>
    ensures { amount result ≡ depth Missing }
{
    refuse(Reason::ReadingMissing, 0)
}

// The depth of a core. It is a level as well: its millimetres too are those above the lowest
// level, less the lowest level's. What lies in a range is finite, so the range is tested first.
#[tactic(auto, using(crate::proofs::Lowest::depths), unfolding(crate::specs::Depth::core))]
pub fn core(x: f32) -> Result<u32, Refusal>
    ensures { amount result ≡ core x }
{
    if in_core(x) {
        return Ok(mm_above_lowest(x) - LOWEST_MM);
    }
    need(is_finite(x), Reason::NotFinite, 0)?;
    refuse(Reason::OutOfRange, 0)
}

// The depth between a pair of levels.
pub fn levels(surface: f32, base: f32) -> Result<u32, Refusal>
    ensures { amount result ≡ levels surface base }
{
    if !in_level(surface) || !in_level(base) {
        return refuse_pair(surface, base);
    }
    let s = mm_above_lowest(surface);
    let b = mm_above_lowest(base);
    let in_depth = (b <= s) & (s.saturating_sub(b) <= MOST_DEPTH);
    need(in_depth, Reason::OutOfRange, PAIR)?;
    Ok(s - b)
}

// The answer to a pair of which one at least is not a level. A number that is not finite is refused
// before a level that is out of range, whichever it is.
#[tactic(auto, using(crate::proofs::Lowest::depths), unfolding(crate::specs::Depth::levels))]
fn refuse_pair(surface: f32, base: f32) -> Result<u32, Refusal>
    requires { in_level surface ≡ true → in_level base ≡ false }
    ensures { amount result ≡ levels surface base }
{
    need(is_finite(surface), Reason::NotFinite, 0)?;
    need(is_finite(base), Reason::NotFinite, 1)?;
    need(in_level(surface), Reason::OutOfRange, 0)?;
    refuse(Reason::OutOfRange, 1)
}

// Neither a NaN nor an infinity.
fn is_finite(x: f32) -> bool
    ensures { result ≡ is_finite x }
{
    x.is_finite()
}

// Whether x lies in low to high, whole numbers of metres, ends included; -0 is 0, and no NaN lies
// there. A range's `contains` would say no more.
#[tactic(auto, using(crate::proofs::Order::range_is))]
fn in_range(x: f32, low: f32, high: f32) -> bool
    requires { Ends low high }
    ensures { result ≡ in_range (numerator low) (numerator high) x }
{
    low <= x && x <= high
}

fn in_core(x: f32) -> bool
    ensures { result ≡ in_core x }
{
    in_range(x, 0.0, MOST_CORE)
}

fn in_level(x: f32) -> bool
    ensures { result ≡ in_level x }
{
    in_range(x, LOWEST_LEVEL, HIGHEST_LEVEL)
}

// The millimetres of a level, rounded down, above those of the lowest: so no number is below zero
// here, and a difference of levels is that of these. A level without its sign is exactly
// mantissa / 2 ^ places.
fn mm_above_lowest(x: f32) -> u32
    requires { in_level x ≡ true }
    ensures { pos result ≡ mm x +ℤ pos lowest_mm }
{
    let pattern = x.to_bits();
    let exponent = EXPONENT.of(pattern);
    // below a millimetre by far, subnormals too: a shift by 64 or more is not defined
    if exponent < 87 {
        return if x < 0.0 { LOWEST_MM - 1 } else { LOWEST_MM };
    }
    let mantissa = MANTISSA.of(pattern) + 0x80_0000;
    let places = 150 - exponent;
    let n = 1000 * u64::from(mantissa);
    if x < 0.0 {
        return LOWEST_MM - 1 - (((n - 1) >> places) as u32);
    }
    LOWEST_MM + ((n >> places) as u32)
}
