// The balance of a listing and its book: peat tonnes, N and S to date, what is withheld, and what
// an issue pays.
#![tactic(auto)]

ghost use Rattle.std.specs.Prelude.{◌≡◌, ◌≤◌, ◌<◌, ◌^◌, pos, nat_abs, ◌+ℤ◌};
ghost use Rattle.words.specs.Bits.{at_least_0};
ghost use Rattle.words.specs.Sums.{sum_below};
ghost use Rattle.fields.specs.Words.{most_buffer};
ghost use Rattle.listing.specs.Layout.{cells};
ghost use Rattle.terms.specs.Terms.{most_term_sum_below};
ghost use Rattle.book.specs.Current.{kg_to_date};
ghost use Rattle.balance.specs.Balance.{peat_tonnes, most_peat, withheld, balance_of, most_balance, most_tonnes, due, tonnes_due};

use book::OpenBook;
use listing::Listing;

// The kg to date of all cells, added: a loop of its own, since one sum for this and for others would take a
// closure, whose contract is longer than the loop.
fn kg_to_date(book: &OpenBook<'_>) -> u64
    ensures { result ≡ sum_below (kg_to_date book.now.listing.words.now book.now.words.now) (cells book.now.listing.words.now) }
{
    let mut kg: u64 = 0;
    for i in 0..book.listing.figures.cells as usize {
        kg += u64::from(book.kg_to_date(i));
    }
    kg
}

// Peat tonnes to date: term 2.
fn peat_tonnes(book: &OpenBook<'_>) -> u64
    ensures { result ≡ peat_tonnes book.now.listing.words.now (kg_to_date book.now.listing.words.now book.now.words.now) }
{
    kg_to_date(book) / 1000
}

// A number, or 0 where it is below 0.
fn at_least_0(z: i64) -> u64
    ensures { result ≡ at_least_0 z }
{
    z.max(0) as u64
}

// Peat and the other terms to date, added. A cast, here and below: no `From` makes an i64 of a u64, and a
// `TryFrom` would answer a failure that cannot be.
fn with_peat(peat: u64, terms: i64) -> i64
    requires { (peat ≤ most_peat) × (nat_abs terms ≤ most_term_sum_below) }
    ensures { result ≡ pos peat +ℤ terms }
{
    peat as i64 + terms
}

// What is withheld of `s` tonnes: `p` percent, rounded up.
fn withheld(p: u32, s: i64) -> u64
    requires { (p ≤ most_buffer) × (nat_abs s ≤ most_tonnes) }
    ensures { result ≡ withheld p s }
{
    (u64::from(p) * at_least_0(s) + 99) / 100
}

// The balance, which may be below zero.
fn balance_of(listing: &Listing<'_>, year: u32, peat: u64) -> i64
    requires { peat ≤ most_peat }
    ensures { result ≡ balance_of listing.now.words.now year peat }
{
    let p = listing.figures.buffer;
    let t = terms::terms_to_date(listing, year);
    let n = with_peat(peat, t.all);
    let s = with_peat(peat, t.buffered);
    n - withheld(p, s) as i64
}

// What an issue pays out of a balance: the tonnes that were not issued before.
fn due(balance: i64, issued: u64) -> u32
    requires { (nat_abs balance ≤ most_tonnes) × (at_least_0 balance ≤ most_balance) × (issued < 2 ^ 56) }
    ensures { result ≡ due balance issued }
{
    at_least_0(balance - issued as i64) as u32
}

// What an issue on this book pays.
pub fn tonnes_due(book: &OpenBook<'_>) -> u32
    ensures { result ≡ tonnes_due book.now.listing.words.now book.now.words.now }
{
    let peat = peat_tonnes(book);
    let balance = balance_of(&book.listing, book.year(), peat);
    due(balance, book.issued())
}
