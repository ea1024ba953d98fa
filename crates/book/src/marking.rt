//! News of the catalogue's links goes from card to card.
ghost use Rattle.std.specs.Prelude.{◌≡◌, ◌<◌, length, slice_set};
ghost use Rattle.catalogue.specs.Places.{at};
ghost use Rattle.cards.specs.Doubts.{lapsed, fell, strikes};
ghost use Rattle.doubt.specs.News.{rule_of};
ghost use Rattle.book.specs.Stores.{book_of, SamePlaces};
ghost use Rattle.book.specs.Answers.{Spread};

use crate::{QuoteBook, write_place};
use cards::MarkEvent;
use doubt::{Cards, News, after_news, falls, is_struck};
use measure::Measure;

// Marks the card at the place where the news strikes it, and answers whether it went from standing to doubtful.
fn mark_card<M: Measure>(book: &mut QuoteBook<'_, M>, place: usize, news: News<M>) -> bool
    requires { place < length book.old.cards.now }
    ensures cards { book.new.cards.now ≡ slice_set book.old.cards.now place (lapsed (strikes (rule_of M.Measure.kind news) (book_of book.old) place) (at book.old.cards.now place)) }
    ensures fell { result ≡ fell (strikes (rule_of M.Measure.kind news) (book_of book.old) place) (at book.old.cards.now place) }
    ensures rows { book.new.rows.now ≡ book.old.rows.now }
    ensures sites { book.new.sites ≡ book.old.sites }
    ensures same { SamePlaces book.old book.new }
{
    let event = if is_struck(&*book, place, news) {
        MarkEvent::Struck
    } else {
        MarkEvent::Spared
    };
    let was = book.card(place);
    write_place(book.cards, place, after_news(was, event));
    falls(was, event)
}

// Marks every card that the news strikes, and answers how many went from standing to doubtful. The places are counted: the rule asks the
// whole quote book of each card, which no iterator over its cards can lend beside the card.
pub fn spread<M: Measure>(book: &mut QuoteBook<'_, M>, news: News<M>) -> usize
    ensures spread { Spread M.Measure.kind news (book_of book.old) result (book_of book.new) }
    ensures same { SamePlaces book.old book.new }
{
    let mut count = 0;
    for place in 0..book.cards.len() {
        count += usize::from(mark_card(book, place, news));
    }
    count
}
