// The worked figures and refusals of document 01 and of the change requests, run through the calls. Each
// line says what was asked, and then the number, the place and the value of the answer;
// crates/worked/stdout has what was worked out.
#![tactic(auto)]

use book::LINE_WORDS;
use logging::LoggedFigures;
use reading::Reading;
use terms::TermSums;
use words::{PAYLOAD, Refusal};

// Number 0 is printed where the call is accepted, as C is answered.
fn line(rt: &impl Print, name: &str, number: u32, place: usize, value: u64) {
    let _ = println!(rt; "{name}: {number} {place} {value}");
}

// An answer: where the call is accepted, with the number that `value_of` takes from its value.
fn print_answer<T, F: FnOnce(T) -> u64 + Drop>(
    rt: &impl Print,
    name: &str,
    answer: Result<T, Refusal>,
    value_of: F,
)
    requires { F.IsAlwaysCallable value_of }
{
    match answer {
        Ok(value) => line(rt, name, 0, 0, value_of(value)),
        Err(why) => line(rt, name, why.reason.number(), why.place, 0),
    }
}

// The answer of a call that has no value.
fn print_outcome(rt: &impl Print, name: &str, answer: Result<(), Refusal>) {
    print_answer(rt, name, answer, |()| 0);
}

// The answer of a call whose value is an amount.
fn print_amount(rt: &impl Print, name: &str, answer: Result<u32, Refusal>) {
    print_answer(rt, name, answer, u64::from);
}

// The average of a test of logged blocks, and 1 where the left side is at least the right.
fn print_logged(rt: &impl Print, name: &str, answer: Result<LoggedFigures, Refusal>) {
    print_answer(rt, name, answer, |a| u64::from(a.average));
    print_answer(rt, "holds", answer, |a| u64::from(a.holds));
}

fn print_check(rt: &impl Print, name: &str, listing: &[u32]) {
    print_answer(rt, name, listing::check(listing), |_| 0);
}

// The three lines of cell `i`, each on a line of its own: mm oxidised, mm burned, kg.
fn print_lines(rt: &impl Print, name: &str, lines: &[u32], i: usize) {
    let (cells, _) = lines.as_chunks::<LINE_WORDS>();
    if let Some(cell) = cells.get(i) {
        for &word in cell {
            line(rt, name, 0, 0, u64::from(PAYLOAD.of(word)));
        }
    }
}

fn print_reading(rt: &impl Print, name: &str, reading: Reading) {
    print_amount(rt, name, reading::depth(reading));
}

// The terms of the years 1 to `year` of a listing.
fn term_sums(listing: &[u32], year: u32) -> Result<TermSums, Refusal> {
    let accepted = listing::check(listing)?;
    Ok(terms::terms_to_date(&accepted, year))
}

fn print_terms(rt: &impl Print, name: &str, agrees: bool) {
    let verdict = if agrees { "right" } else { "wrong" };
    let _ = println!(rt; "{name}: {verdict}");
}

// The worked listing, with a word of it changed for each refusal.
fn listings(rt: &impl Print) {
    let mut l = [
        0x1001_0102u32,
        0x2014_190c,
        0x3460_b554,
        0x3460_b400,
        0x4001_07d0,
        0x5271_01f4,
    ];
    print_check(rt, "worked listing", &l);
    print_check(rt, "no word", &l[..0]);
    print_check(rt, "one word", &l[..1]);
    print_check(rt, "five words", &l[..5]);
    l[5] = 0x5271_11f4;
    print_check(rt, "area 10,001", &l);
    l[3] = 0x4460_b400;
    print_check(rt, "table word of kind 4", &l);
    l[1] = 0x2065_190c;
    print_check(rt, "buffer 101 percent", &l);
    l[0] = 0x13e9_0102;
    print_check(rt, "1,001 cells", &l);
}

// The worked listing with terms: -100 t of term 5 and 100 t of term 8 in year 2, and what is invalid.
fn terms(rt: &impl Print) {
    let mut l = [
        0x1001_0102u32,
        0x2014_190c,
        0x3460_b554,
        0x3460_b400,
        0x4001_07d0,
        0x5271_01f4,
        0x6505_ff9c,
        0x6804_0064,
        0x6205_ff9c,
    ];
    print_check(rt, "6505FF9C appended", &l[..7]);
    print_terms(
        rt,
        "terms 1 to 5 of year 1",
        term_sums(&l[..8], 1).is_ok_and(|sums| sums.buffered == 0),
    );
    print_terms(
        rt,
        "terms 1 to 5 of years 1 to 2",
        term_sums(&l[..8], 2).is_ok_and(|sums| sums.buffered == -100),
    );
    print_terms(
        rt,
        "terms 1 to 8 of years 1 to 2",
        term_sums(&l[..8], 2).is_ok_and(|sums| sums.all == 0),
    );
    print_check(rt, "term 2", &l);
    l[7] = 0x6505_ff9c;
    print_check(rt, "a term twice", &l[..8]);
    print_check(rt, "a term twice, then term 2", &l);
}

fn readings(rt: &impl Print) {
    print_reading(rt, "core 0.7", Reading::Core(0.7));
    print_reading(rt, "core -0", Reading::Core(-0.0));
    print_reading(rt, "core 20", Reading::Core(20.0));
    print_reading(rt, "core above 20", Reading::Core(20.000002));
    print_reading(rt, "core not a number", Reading::Core(f32::NAN));
    print_reading(rt, "levels 12.5 and 10.25", Reading::Levels(12.5, 10.25));
    print_reading(rt, "levels -0.7 and -1.5", Reading::Levels(-0.7, -1.5));
    print_reading(
        rt,
        "levels 3001 and not a number",
        Reading::Levels(3001.0, f32::NAN),
    );
    print_reading(rt, "levels 3001 and 0", Reading::Levels(3001.0, 0.0));
    print_reading(rt, "levels 10 and 10.5", Reading::Levels(10.0, 10.5));
    print_reading(rt, "no reading", Reading::Missing);
}

fn discounts(rt: &impl Print) {
    let none = [0u32];
    let one = [1u32];
    let width = [150u32];
    let more = [3000u32];
    let less = [2000u32];
    print_amount(
        rt,
        "Q 22,500, D 1000",
        discount::discount(&width, &none, &more, &less),
    );
    print_amount(
        rt,
        "Q 22,501, D 1000",
        discount::discount(&width, &one, &less, &more),
    );
    let first = [120u32, 0];
    let second = [0u32, 160];
    let halves = [1500u32, 1500];
    let thirds = [1000u32, 1000];
    print_amount(
        rt,
        "Q 40,000, D 1000",
        discount::discount(&first, &second, &halves, &thirds),
    );
    print_amount(
        rt,
        "no distance",
        discount::discount(&width, &one, &more, &more),
    );
    print_amount(
        rt,
        "unequal lists",
        discount::discount(&width, &second, &more, &less),
    );
    let large = [20_001u32];
    print_amount(
        rt,
        "20,001 in list 2",
        discount::discount(&width, &one, &large, &large),
    );
}

// What is refused of a book that was not opened, and of buffers that are too short. The calls take a
// listing, a book and lines as slices, and so does each function here.
fn unopened(rt: &impl Print, l: &[u32], b: &mut [u32], x: &mut [u32]) {
    print_outcome(rt, "close of a book of zeros", ledger::close(l, b, x));
    print_outcome(rt, "no book", ledger::open(l, &mut []));
    print_outcome(rt, "open", ledger::open(l, b));
    print_outcome(rt, "no lines", ledger::close(l, b, &mut []));
    print_amount(rt, "issue in year 0", ledger::issue(l, b));
}

// A closing and an issue.
fn year(rt: &impl Print, l: &[u32], b: &mut [u32], x: &mut [u32], i: usize) {
    print_outcome(rt, "close", ledger::close(l, b, &mut x[..]));
    print_lines(rt, "its lines", &x[..], i);
    print_amount(rt, "issue", ledger::issue(l, b));
}

// The mm left of cell `i`.
fn print_left(rt: &impl Print, name: &str, l: &[u32], b: &[u32], i: usize) {
    print_answer(
        rt,
        name,
        ledger::statement(l, b, i),
        |figures| u64::from(figures.remaining),
    );
}

// What is refused once the horizon is reached and the cell is converted.
fn at_the_horizon(rt: &impl Print, l: &[u32], b: &mut [u32], x: &mut [u32]) {
    print_outcome(rt, "close at the horizon", ledger::close(l, b, x));
    print_outcome(rt, "replan of a converted cell", ledger::replan(l, b, 0, 0));
    print_left(rt, "left", l, &b[..], 0);
    print_left(rt, "no such cell", l, &b[..], 1);
}

// A withdrawal, and what is refused after it.
fn withdrawn(rt: &impl Print, l: &[u32], b: &mut [u32]) {
    print_outcome(rt, "withdraw", ledger::withdraw(l, b, 0));
    print_outcome(rt, "withdraw again", ledger::withdraw(l, b, 0));
}

// The listing with 6505FF9C appended: a term of -100 t in year 2.
fn appended(rt: &impl Print, l: &[u32], b: &mut [u32], x: &mut [u32]) {
    print_outcome(rt, "open with 6505FF9C appended", ledger::open(l, b));
    year(rt, l, b, x, 0);
    year(rt, l, b, x, 0);
}

// The worked listing: open, and two years, each with its issue. The program keeps to fixed memory.
fn worked(rt: &impl Print) {
    let l = [
        0x1001_0102u32,
        0x2014_190c,
        0x3460_b554,
        0x3460_b400,
        0x4001_07d0,
        0x5271_01f4,
        0x6505_ff9c,
    ];
    let mut b = [0u32; 6];
    let mut x = [0u32; 3];
    unopened(rt, &l[..6], &mut b, &mut x);
    year(rt, &l[..6], &mut b, &mut x, 0);
    year(rt, &l[..6], &mut b, &mut x, 0);
    at_the_horizon(rt, &l[..6], &mut b, &mut x);
    withdrawn(rt, &l[..6], &mut b);
    appended(rt, &l, &mut b, &mut x);
}

// A year of the second cell, with the first withdrawn.
fn second_cell_year(rt: &impl Print, l: &[u32], b: &mut [u32], x: &mut [u32]) {
    print_outcome(rt, "open two cells", ledger::open(l, b));
    print_outcome(rt, "withdraw the first", ledger::withdraw(l, b, 0));
    year(rt, l, b, x, 1);
}

// Two cells of two strata, of which one is not drained. The drained one is first and is
// withdrawn: the other loses nothing. Then they change places.
fn neighbours(rt: &impl Print) {
    let mut l = [
        0x1002_0202u32,
        0x2014_190c,
        0x3460_b554,
        0x3460_b400,
        0x3000_b554,
        0x3000_b400,
        0x4001_07d0,
        0x5271_01f4,
        0x4101_07d0,
        0x5271_01f4,
    ];
    let mut b = [0u32; 9];
    let mut x = [0u32; 6];
    second_cell_year(rt, &l, &mut b, &mut x);
    l[6] = 0x4101_07d0;
    l[8] = 0x4001_07d0;
    second_cell_year(rt, &l, &mut b, &mut x);
}

// A listing of one cell: open, so many years with their issues, and the mm left.
fn years(rt: &impl Print, name: &str, count: u32, l: &[u32]) {
    let mut b = [0u32; 6];
    let mut x = [0u32; 3];
    print_outcome(rt, name, ledger::open(l, &mut b));
    for _ in 0..count {
        year(rt, l, &mut b, &mut x, 0);
    }
    print_left(rt, "left", l, &b[..], 0);
}

// The worked listing with a site word as word 2, guard 500 and least thickness 300: two years, and two with
// char percentage 2 besides. Then what is refused of the site word.
fn site(rt: &impl Print) {
    let mut l = [
        0x1001_0102u32,
        0x2014_190c,
        0x707d_012c,
        0x3460_b554,
        0x3460_b400,
        0x4001_07d0,
        0x5271_01f4,
    ];
    years(rt, "open with a site word", 2, &l);
    l[1] = 0x2114_190c;
    years(rt, "open with a site word and char percentage 2", 2, &l);
    l[1] = 0x2014_190c;
    l[2] = 0x707d_07d1;
    print_check(rt, "least thickness 2,001", &l);
    l[2] = 0x71f4_412c;
    l[3] = 0x0460_b554;
    print_check(rt, "guard 2,001 before a row of kind 0", &l);
}

// The worked listing with a word of kind 7 for its first row, and then for its word 1.
fn misplaced_site(rt: &impl Print) {
    let mut l = [
        0x1001_0102u32,
        0x2014_190c,
        0x7460_b554,
        0x3460_b400,
        0x4001_07d0,
        0x5271_01f4,
    ];
    print_check(rt, "first row of kind 7", &l);
    l[1] = 0x7014_190c;
    l[2] = 0x3460_b554;
    print_check(rt, "word 1 of kind 7", &l);
}

// The worked listing with char percentage 20, 1 and 31 in word 1: two years of each. Then 31 with a buffer
// of 101 percent.
fn char_left(rt: &impl Print) {
    let mut l = [
        0x1001_0102u32,
        0x2a14_190c,
        0x3460_b554,
        0x3460_b400,
        0x4001_07d0,
        0x5271_01f4,
    ];
    years(rt, "open with char percentage 20", 2, &l);
    l[1] = 0x2094_190c;
    years(rt, "open with char percentage 1", 2, &l);
    l[1] = 0x2f94_190c;
    years(rt, "open with char percentage 31", 2, &l);
    l[1] = 0x2fe5_190c;
    print_check(rt, "char percentage 31, buffer 101 percent", &l);
}

// Three years of one row, 45 cm from the benchmark: the fire of year 1 leaves the guard, and then none burns.
fn benchmark(rt: &impl Print) {
    let l = [
        0x1001_0103u32,
        0x2014_190c,
        0x32d0_b554,
        0x32d0_b554,
        0x32d0_b554,
        0x4001_07d0,
        0x5271_01f4,
    ];
    years(rt, "open with three rows of 45 cm", 3, &l);
}

// What is refused by a conversion: an old book that is too short, a new one that is, then the words of the old one.
fn refused_old_books(rt: &impl Print, l: &[u32], b: &mut [u32]) {
    let mut old = [
        0x8000_0002u32,
        0x8000_0229,
        0xa000_0103,
        0xb000_002d,
        0xc000_012c,
    ];
    let mut short = [0u32; 5];
    print_outcome(
        rt,
        "old book of 4 words",
        ledger::convert(l, &old[..4], &mut short),
    );
    print_outcome(
        rt,
        "new book of 5 words",
        ledger::convert(l, &old, &mut short),
    );
    print_outcome(rt, "tonnes of kind 8", ledger::convert(l, &old, b));
    old[1] = 0x9fff_ffff;
    print_outcome(rt, "plan year 3", ledger::convert(l, &old, b));
}

// Old books, with one word of tonnes issued, are converted: one after the worked listing's first year, then
// its second year is closed; and one at the horizon that is withdrawn and brings the most tonnes.
fn old_books(rt: &impl Print) {
    let l = [
        0x1001_0102u32,
        0x2014_190c,
        0x3460_b554,
        0x3460_b400,
        0x4001_07d0,
        0x5271_01f4,
    ];
    let mut old = [
        0x8000_0001u32,
        0x9000_0229,
        0xa000_0001,
        0xb000_002d,
        0xc000_012c,
    ];
    let mut b = [0u32; 6];
    let mut x = [0u32; 3];
    print_outcome(rt, "convert", ledger::convert(&l, &old, &mut b));
    year(rt, &l, &mut b, &mut x, 0);
    refused_old_books(rt, &l, &mut b);
    old[0] = 0x8000_0002;
    old[1] = 0x9fff_ffff;
    old[2] = 0xa000_0102;
    print_outcome(
        rt,
        "convert at the horizon",
        ledger::convert(&l, &old, &mut b),
    );
    print_amount(rt, "issue", ledger::issue(&l, &mut b));
    print_outcome(rt, "withdraw again", ledger::withdraw(&l, &mut b, 0));
    print_left(rt, "left", &l, &b[..], 0);
}

// Two years of one stratum, with none taken off.
fn one_stratum(rt: &impl Print, name: &str, densities: &[u32], areas: &[u32]) {
    print_logged(rt, name, logging::logged(2, 1, densities, areas, &[10_000]));
}

// Two years of two strata: 100 at half in year 1 of the first, and 40 in year 2 of the second.
fn two_strata(rt: &impl Print, name: &str, areas: &[u32]) {
    let densities = [0, 0, 100, 0, 0, 40];
    print_logged(
        rt,
        name,
        logging::logged(2, 2, &densities, areas, &[5_000, 10_000]),
    );
}

// A year of one stratum with one density, area and discount.
fn one_year(rt: &impl Print, name: &str, density: u32, area: u32, discount: u32) {
    print_logged(
        rt,
        name,
        logging::logged(1, 1, &[density, density], &[area], &[discount]),
    );
}

fn blocks(rt: &impl Print) {
    print_logged(
        rt,
        "T 2 and discount 8,000",
        logging::logged(2, 1, &[100, 50, 30], &[10, 10], &[8_000]),
    );
    let densities = [1_200, 800, 1_100, 700, 600, 900, 500, 1_000];
    let areas = [10, 20, 15, 20, 15, 25];
    let discounts = [9_000, 10_000];
    print_logged(
        rt,
        "T 3 and two strata",
        logging::logged(3, 2, &densities, &areas, &discounts),
    );
    print_logged(
        rt,
        "all densities 0",
        logging::logged(3, 2, &[0; 8], &areas, &discounts),
    );
    one_stratum(rt, "average 1.5", &[1, 1, 1], &[10, 10]);
    one_stratum(rt, "equal densities", &[0, 100, 100], &[10, 10]);
    one_stratum(rt, "more area in year 2", &[0, 50, 150], &[10, 30]);
    two_strata(rt, "areas where there is carbon", &[1, 0, 0, 1]);
    two_strata(rt, "areas where there is none", &[0, 1, 1, 0]);
}

// T and the number of strata at the ends of their ranges, with lists of zeros as long as they ask.
fn block_sizes(rt: &impl Print) {
    let zeros = [0u32; 808];
    print_logged(rt, "T 0", logging::logged(0, 1, &zeros[..1], &[], &[0]));
    print_logged(
        rt,
        "T 100 and 8 strata",
        logging::logged(100, 8, &zeros, &zeros[..800], &zeros[..8]),
    );
    print_logged(
        rt,
        "T 101",
        logging::logged(101, 1, &zeros[..102], &zeros[..101], &[0]),
    );
    print_logged(rt, "no stratum", logging::logged(1, 0, &[], &[], &[]));
    print_logged(
        rt,
        "9 strata",
        logging::logged(1, 9, &zeros[..18], &zeros[..9], &zeros[..9]),
    );
}

// T 2 and one stratum, with each list in turn one value too short and too long.
fn block_lengths(rt: &impl Print) {
    let lengths = [
        (2, 2, 1),
        (4, 2, 1),
        (3, 1, 1),
        (3, 3, 1),
        (3, 2, 0),
        (3, 2, 2),
    ];
    let zeros = [0u32; 4];
    for &(densities, areas, discounts) in &lengths {
        print_logged(
            rt,
            "a wrong length",
            logging::logged(
                2,
                1,
                &zeros[..densities],
                &zeros[..areas],
                &zeros[..discounts],
            ),
        );
    }
}

fn block_values(rt: &impl Print) {
    print_logged(
        rt,
        "one density, and 10,001 throughout",
        logging::logged(1, 1, &[10_001], &[10_001], &[10_001]),
    );
    one_year(rt, "two halves make 1", 1, 1, 5_000);
    one_year(rt, "10,000 throughout", 10_000, 10_000, 10_000);
    one_year(rt, "10,001 throughout", 10_001, 10_001, 10_001);
    one_year(rt, "10,001 from list 1", 10_000, 10_001, 10_001);
    one_year(rt, "10,001 in list 2", 10_000, 10_000, 10_001);
}

fn main(rt: HostRuntime) {
    worked(&rt);
    neighbours(&rt);
    listings(&rt);
    terms(&rt);
    readings(&rt);
    discounts(&rt);
    site(&rt);
    misplaced_site(&rt);
    char_left(&rt);
    benchmark(&rt);
    old_books(&rt);
    blocks(&rt);
    block_sizes(&rt);
    block_lengths(&rt);
    block_values(&rt);
}
