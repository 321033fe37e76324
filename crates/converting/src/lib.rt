// The conversion of a book to another shape: the tests decide, and only then is anything written.
#![tactic(auto)]

ghost use Rattle.std.specs.Prelude.{◌≡◌, IfOk};
ghost use Rattle.words.specs.Answers.{outcome};
ghost use Rattle.words.specs.Blocks.{filled};
ghost use Rattle.listing.specs.Layout.{cells};
ghost use Rattle.book.specs.Layout.{Shaped, entry};
ghost use Rattle.book.specs.Held.{held_at};
ghost use Rattle.converting.specs.Converting.{convert_answer, converted_book};
ghost use Rattle.converting.specs.Convertible.{Convertible};

use book::Shape;
use listing::Listing;
use words::Refusal;

// Numbers 1 to 6 for the old book, then 6 for the new one, of which the length alone counts here, then 8
// for the old one. This writes nothing.
pub fn may_convert<'a>(
    from: Shape,
    to: Shape,
    listing: &'a [u32],
    old: &[u32],
    new: &[u32],
) -> Result<Listing<'a>, Refusal>
    requires { Shaped from × Shaped to }
    ensures value { outcome result ≡ convert_answer from to listing.now old.now new.now }
    ensures same_words { IfOk result (λ l. l.words.now ≡ listing.now) }
{
    let accepted = book::fits(from, listing, old)?;
    book::check_capacity(to, &accepted, new)?;
    book::check_book(from, &accepted, old)?;
    Ok(accepted)
}

// Writes the cells, each with its entry in the old book. A walk as that of `opening::open_cells`.
fn convert_cells(from: Shape, to: Shape, listing: &Listing<'_>, old: &[u32], new: &mut [u32])
    requires { Convertible from to listing.now.words.now old.now new.old }
    ensures { new.new ≡ filled to.entry new.old to.head (held_at to (entry from old.now)) (cells listing.now.words.now) }
{
    for i in 0..listing.figures.cells as usize {
        let a = book::entry_at(to, i);
        let e = a + to.entry;
        let kept = book::entry(from, old, i);
        book::put_entry(&mut new[a..e], kept);
    }
}

// Writes the new book: its cells, then its head.
#[tactic(auto, unfolding(book::specs::Held::new_book))]
pub fn convert_book(from: Shape, to: Shape, listing: &Listing<'_>, old: &[u32], new: &mut [u32])
    requires { Convertible from to listing.now.words.now old.now new.old }
    ensures { new.new ≡ converted_book from to listing.now.words.now old.now new.old }
{
    convert_cells(from, to, listing, old, new);
    book::put_year(new, book::year(old));
    let issued = book::issued(from, old);
    book::put_issued(to, new, issued);
}
