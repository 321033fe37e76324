// What an open writes: a head of year 0, and for each cell its plan year of the listing.
#![tactic(auto)]

ghost use Rattle.std.specs.Prelude.{◌≡◌};
ghost use Rattle.words.specs.Blocks.{filled};
ghost use Rattle.listing.specs.Layout.{cells};
ghost use Rattle.book.specs.Current.{current, held_at, Fitted};
ghost use Rattle.opening.specs.Opening.{open_entry, open_book};

use book::BOOK;
use listing::Listing;

// Writes the cells, with the plan years of the listing. A walk as that of `closing::close_cells`.
fn open_cells(listing: &Listing<'_>, book: &mut [u32])
    requires { Fitted listing.now.words.now book.old }
    ensures { book.new ≡ filled current.entry book.old current.head (held_at (open_entry listing.now.words.now)) (cells listing.now.words.now) }
{
    for i in 0..listing.figures.cells as usize {
        let a = book::entry_at(BOOK, i);
        let e = a + BOOK.entry;
        let c = listing.cell(i);
        book::put_entry(&mut book[a..e], year::opened(c.conversion));
    }
}

// Writes a new book: its cells, then its head.
#[tactic(auto, unfolding(book::specs::Held::new_book))]
pub fn open_book(listing: &Listing<'_>, book: &mut [u32])
    requires { Fitted listing.now.words.now book.old }
    ensures { book.new ≡ open_book listing.now.words.now book.old }
{
    open_cells(listing, book);
    book::put_year(book, 0);
    book::put_issued(BOOK, book, 0);
}
