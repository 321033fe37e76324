// Hand dips held against a logger's: two recordings of a well, day by day.
#![tactic(auto)]

ghost use Rattle.std.specs.Prelude.{◌≡◌, true, ◌-◌, ◌*◌, ◌<◌, ◌≤◌, cond, None, Some, ltb, length, get_or};
ghost use Rattle.std.specs.Option.{option_or};
ghost use Rattle.words.specs.Answers.{outcome, answer_with};
ghost use Rattle.reading.specs.Metres.{most_core};
ghost use Rattle.reading.specs.Depth.{core};
ghost use Rattle.words.specs.Search.{first_invalid};
ghost use Rattle.dips.specs.Dips.{recorded, same_length, above_before, dip, reading_checked, dip_checked, all_readings_checked, dips_checked};
ghost use Rattle.dips.specs.Dips.{mm_of, differ, no_figures, figures_of, dips};
ghost use Rattle.dips.specs.Pairing.{Accepted};

use words::{Reason, Refusal, first_invalid, need};

// A recording of a well: the day number of each dip, its depth and its tolerance in metres.
#[derive(Clone, Copy, Debug, PartialEq)]
pub struct Recording<'a> {
    pub days: &'a [u32],
    pub depths: &'a [f32],
    pub tolerances: &'a [f32],
}

// A dip's depth and its tolerance, in metres.
#[derive(Clone, Copy, Debug, PartialEq)]
pub struct Dip {
    pub depth: f32,
    pub tolerance: f32,
}

// What two recordings held against each other answer: the number of days in both, in the first alone and in
// the second alone, and the first day on which they differ by more than both tolerances together.
#[derive(Clone, Copy, Debug, PartialEq, Eq)]
pub struct DipsFigures {
    pub paired: usize,
    pub only_first: usize,
    pub only_second: usize,
    pub first_differing: Option<u32>,
}

// Numbers 16 and 17 of one reading, as `core` gives them, but at the place of its dip.
fn check_reading(metres: f32, place: usize) -> Result<(), Refusal>
    ensures { outcome result ≡ reading_checked place metres }
{
    match reading::core(metres) {
        Ok(_) => Ok(()),
        Err(why) => words::refuse(why.reason, place),
    }
}

// The depth of a dip before its tolerance.
fn check_dip(dip: Dip, place: usize) -> Result<(), Refusal>
    ensures { outcome result ≡ dip_checked place dip }
{
    check_reading(dip.depth, place)?;
    check_reading(dip.tolerance, place)
}

// The millimetres of a reading that is a core depth; of a refused one 0, which is not asked for.
fn mm_of(metres: f32) -> u32
    ensures value { result ≡ mm_of metres }
    ensures bound { result ≤ 1000 * most_core }
{
    reading::core(metres).unwrap_or(0)
}

// Whether two dips of one day differ by more than their tolerances together.
fn differ(first: Dip, second: Dip) -> bool
    ensures { result ≡ differ first second }
{
    let between = mm_of(first.depth).abs_diff(mm_of(second.depth));
    mm_of(first.tolerance) + mm_of(second.tolerance) < between
}

// The pairing step: the day found before, or this one if its two dips differ.
fn first_found(found: Option<u32>, day: u32, first: Dip, second: Dip) -> Option<u32>
    ensures { result ≡ option_or found (cond (differ first second) (Some day) None) }
{
    if found.is_none() && differ(first, second) {
        return Some(day);
    }
    found
}

impl Recording<'_> {
    // The dip at a place.
    fn dip(&self, at: usize) -> Dip
        requires { (at < length self.now.depths.now) × (at < length self.now.tolerances.now) }
        ensures { result ≡ dip (recorded self.now) at }
    {
        Dip {
            depth: self.depths[at],
            tolerance: self.tolerances[at],
        }
    }

    // Whether the three lists have one length.
    fn same_length(&self) -> bool
        ensures { result ≡ same_length (recorded self.now) }
    {
        let days = self.days.len();
        (days == self.depths.len()) & (days == self.tolerances.len())
    }

    // The place of the first day that is not above the one before; where there is none, the length, or 1 where
    // there is no day. With one day or none there is nothing to search.
    #[tactic(auto, using(words::proofs::Steps::passed_none, words::proofs::Steps::passed_all))]
    fn first_day_not_above(&self) -> usize
        ensures { result ≡ first_invalid (above_before (recorded self.now)) 1 (length self.now.days.now) }
    {
        let days = self.days;
        if days.len() <= 1 {
            return 1;
        }
        first_invalid(
            1,
            days.len(),
            |at: usize| -> bool
                requires { (1 ≤ at) × (at < length days.now) }
                ensures { result ≡ ltb (get_or days.entry.now (at - 1) 0) (get_or days.entry.now at 0) }
            { days[at - 1] < days[at] },
        )
    }

    // Numbers 16 and 17, of one dip after the other.
    fn check_readings(&self) -> Result<(), Refusal>
        requires { same_length (recorded self.now) ≡ true }
        ensures { outcome result ≡ all_readings_checked (recorded self.now) }
    {
        for at in 0..self.days.len() {
            check_dip(self.dip(at), at)?;
        }
        Ok(())
    }
}

// Numbers 23, 24, 16 and 17, of the first recording and then of the second.
fn check(first: &Recording<'_>, second: &Recording<'_>) -> Result<(), Refusal>
    ensures { outcome result ≡ dips_checked (recorded first.now) (recorded second.now) }
{
    need(first.same_length(), Reason::DipsLengths, 0)?;
    need(second.same_length(), Reason::DipsLengths, 0)?;
    let place = first.first_day_not_above();
    need(first.days.len() <= place, Reason::DayNotAbove, place)?;
    let place = second.first_day_not_above();
    need(second.days.len() <= place, Reason::DayNotAbove, place)?;
    first.check_readings()?;
    second.check_readings()
}

// Walks both recordings once, together: of two days that differ the lower one is in one recording alone.
fn pair(first: &Recording<'_>, second: &Recording<'_>) -> DipsFigures
    requires { Accepted (recorded first.now) × Accepted (recorded second.now) }
    ensures { result ≡ figures_of (recorded first.now) (recorded second.now) }
{
    let mut i = 0;
    let mut j = 0;
    let mut paired = 0;
    let mut first_differing = None;
    while i < first.days.len() && j < second.days.len() {
        let a = first.days[i];
        let b = second.days[j];
        if a < b {
            i += 1;
        } else if b < a {
            j += 1;
        } else {
            first_differing = first_found(first_differing, a, first.dip(i), second.dip(j));
            paired += 1;
            i += 1;
            j += 1;
        }
    }
    DipsFigures {
        paired,
        only_first: first.days.len() - paired,
        only_second: second.days.len() - paired,
        first_differing,
    }
}

// The dips of two recordings of a well held against each other day by day, or why they are refused.
pub fn dips(first: &Recording<'_>, second: &Recording<'_>) -> Result<DipsFigures, Refusal>
    ensures { answer_with no_figures result ≡ dips (recorded first.now) (recorded second.now) }
{
    check(first, second)?;
    Ok(pair(first, second))
}
