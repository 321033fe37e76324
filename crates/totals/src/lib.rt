// What the lines of a closing come to over all cells.
#![tactic(auto)]

ghost use Rattle.std.specs.Prelude.{◌≡◌, ◌^◌, ◌≤◌, length};
ghost use Rattle.totals.specs.Totals.{line_place, line_total};

use book::LINE_WORDS;
use words::PAYLOAD;

// The three lines of a cell, in their order.
#[derive(Clone, Copy, Debug, PartialEq, Eq)]
pub enum Line {
    Oxidised,
    Burned,
    Kg,
}

impl Line {
    // Its place among a cell's lines, by a method, as the number of a kind.
    pub fn place(self) -> usize
        ensures { result ≡ line_place self }
    {
        self as usize
    }
}

// The numbers of one line of each cell, added.
#[tactic(auto, using(crate::proofs::Lines::place_below))]
pub fn line_total(lines: &[u32], line: Line) -> u64
    requires { length lines.now ≤ 2 ^ 32 }
    ensures { result ≡ line_total lines.now (line_place line) }
{
    let place = line.place();
    let (cells, _) = lines.as_chunks::<LINE_WORDS>();
    let mut sum: u64 = 0;
    for cell in cells {
        sum += u64::from(PAYLOAD.of(cell[place]));
    }
    sum
}
