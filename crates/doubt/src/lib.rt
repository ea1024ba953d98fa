//! When a card falls into doubt: the rule, over anything that answers a quote book's questions, and the marks as a machine.
#![tactic(auto)]

ghost use Rattle.std.specs.Prelude.{◌≡◌, take};
ghost use Rattle.catalogue.specs.Places.{at};
ghost use Rattle.cards.specs.Books.{Book, row_at, leg_count};
ghost use Rattle.cards.specs.Doubts.{uses, threatens, next, strikes};
ghost use Rattle.doubt.specs.News.{rule_of, struck_at, after, falls};

use cards::{Card, MarkEvent};
use catalogue::Route;
use measure::{Measure, ranks_before};
use report::Mark;

// What happened to the catalogue's links.
#[derive(Clone, Copy, PartialEq, Eq, Debug)]
pub enum News<M> {
    // A link of this value is new.
    Offered { value: M },
    // The link at the place had the old value, and has the new one.
    Changed { place: usize, old: M, new: M },
    // The link at the place is gone.
    Withdrawn { place: usize },
}

// What can be asked of anything that holds quote cards: the rule needs no more.
pub trait Cards<M, L> {
    // what the quote book holds
    ghost book: { Self → Book M L };

    // The card at the place: none at an empty place, and none past the last.
    fn card(&self, place: usize) -> Option<Card<M, L>>
        ensures { result ≡ at (book self.now).cards place };

    // Whether one of the first legs in the card's row is the link at the place.
    fn uses_link(&self, card: usize, legs: usize, link: usize) -> bool
        ensures { result ≡ uses (take legs (row_at (book self.now).width (book self.now).rows card)) link };
}

// The mark after what happened to its card.
pub fn next_mark(mark: Mark, event: MarkEvent) -> Mark
    ensures { result ≡ next mark event }
{
    match (mark, event) {
        (Mark::Standing, MarkEvent::Struck) => Mark::Doubtful,
        (Mark::Doubtful, MarkEvent::Answered) => Mark::Standing,
        (same, _) => same,
    }
}

// Whether a link of this value, new in the catalogue, can be part of a better walk than the answer.
fn is_threat<M: Measure>(limit: M::Limit, answer: Option<Route<M>>, value: M) -> bool
    ensures { result ≡ threatens M.Measure.kind limit answer value }
{
    value.within(limit) && answer.is_none_or(|route| ranks_before(value, route.value, limit))
}

// How many legs an answer has.
pub fn leg_count<M: Copy>(answer: Option<Route<M>>) -> usize
    ensures { result ≡ leg_count answer }
{
    answer.map_or(0, |route| route.legs)
}

// Whether the news strikes this card of the place: a rule for each sort of news, taken apart case by case.
fn strikes<M: Measure, B: Cards<M, M::Limit>>(
    book: &B,
    place: usize,
    card: Card<M, M::Limit>,
    news: News<M>,
) -> bool
    ensures { result ≡ strikes (rule_of M.Measure.kind news) (B.Cards.book book.now) place card }
{
    let limit = card.ask.limit;
    let answer = card.answer;
    let legs = leg_count(answer);
    match news {
        News::Offered { value } => is_threat(limit, answer, value),
        News::Changed {
            place: link,
            old,
            new,
        } => {
            !(old.dominates(new) && new.dominates(old))
                && (book.uses_link(place, legs, link)
                    || (!old.dominates(new) && is_threat(limit, answer, new)))
        }
        News::Withdrawn { place: link } => book.uses_link(place, legs, link),
    }
}

// Whether the news strikes the card at the place: an empty place is not struck.
pub fn is_struck<M: Measure, B: Cards<M, M::Limit>>(book: &B, place: usize, news: News<M>) -> bool
    ensures { result ≡ struck_at (rule_of M.Measure.kind news) (B.Cards.book book.now) place }
{
    book.card(place)
        .is_some_and(|card| strikes(book, place, card, news))
}

// A card place after what happened to its card.
pub fn after_news<M: Copy, L: Copy>(
    place: Option<Card<M, L>>,
    event: MarkEvent,
) -> Option<Card<M, L>>
    ensures { result ≡ after event place }
{
    place.map(|card| Card {
        mark: next_mark(card.mark, event),
        ..card
    })
}

// Whether the card at a place goes from standing to doubtful by it.
pub fn falls<M: Copy, L: Copy>(place: Option<Card<M, L>>, event: MarkEvent) -> bool
    ensures { result ≡ falls event place }
{
    place.is_some_and(|card| {
        card.mark == Mark::Standing && next_mark(card.mark, event) == Mark::Doubtful
    })
}
