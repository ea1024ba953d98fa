//! The calls that change the catalogue's links, and put cards in doubt. They are functions of catalogue and quote book together, since
//! neither owns the other.
ghost use Rattle.cards.specs.Calls.{Offered, Changed, Withdrawn};
ghost use Rattle.catalogue.specs.Keeping.{SameLinks};
ghost use Rattle.book.specs.Stores.{network_of, book_of, SamePlaces};

use book::{QuoteBook, check_sites, spread};
use catalogue::{Catalogue, Link, Links};
use doubt::News;
use measure::Measure;
use report::Refusal;

// Offers a link for an empty place, and answers how many cards went from standing to doubtful.
#[tactic(auto, using(crate::proofs::Outcomes::endings))]
pub fn offer<M: Measure>(
    catalogue: &mut Catalogue<'_, M>,
    book: &mut QuoteBook<'_, M>,
    place: usize,
    link: Link<M>,
) -> Result<usize, Refusal>
    ensures outcome { Offered M.Measure.kind (network_of catalogue.old) (book_of book.old) place link
        result (network_of catalogue.new) (book_of book.new) }
    ensures links { SameLinks catalogue.old catalogue.new }
    ensures places { SamePlaces book.old book.new }
{
    check_sites(&*catalogue, &*book)?;
    catalogue.store(place, link)?;
    Ok(spread(book, News::Offered { value: link.value }))
}

// Gives the link at the place another value, and answers how many cards went from standing to doubtful.
#[tactic(auto, using(crate::proofs::Outcomes::endings))]
pub fn change<M: Measure>(
    catalogue: &mut Catalogue<'_, M>,
    book: &mut QuoteBook<'_, M>,
    place: usize,
    value: M,
) -> Result<usize, Refusal>
    ensures outcome { Changed M.Measure.kind (network_of catalogue.old) (book_of book.old) place value
        result (network_of catalogue.new) (book_of book.new) }
    ensures links { SameLinks catalogue.old catalogue.new }
    ensures places { SamePlaces book.old book.new }
{
    check_sites(&*catalogue, &*book)?;
    let old = catalogue.replace(place, value)?;
    Ok(spread(
        book,
        News::Changed {
            place,
            old: old.value,
            new: value,
        },
    ))
}

// Takes the link at the place away, and answers how many cards went from standing to doubtful.
#[tactic(auto, using(crate::proofs::Outcomes::endings))]
pub fn withdraw<M: Measure>(
    catalogue: &mut Catalogue<'_, M>,
    book: &mut QuoteBook<'_, M>,
    place: usize,
) -> Result<usize, Refusal>
    ensures outcome { Withdrawn M.Measure.kind (network_of catalogue.old) (book_of book.old) place
        result (network_of catalogue.new) (book_of book.new) }
    ensures links { SameLinks catalogue.old catalogue.new }
    ensures places { SamePlaces book.old book.new }
{
    check_sites(&*catalogue, &*book)?;
    catalogue.remove(place)?;
    Ok(spread(book, News::Withdrawn { place }))
}
