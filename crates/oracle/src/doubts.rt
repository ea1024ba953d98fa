//! Which cards fall into doubt, by the rule written anew: nothing of the library's rule is used here.
use crate::figures::{Figures, is_no_worse, ranks_before};
use crate::model::PlainCard;
use report::Mark;

// What happened to the links.
#[derive(Clone, Copy)]
pub enum News {
    Offered {
        value: Figures,
    },
    Changed {
        place: usize,
        old: Figures,
        new: Figures,
    },
    Withdrawn {
        place: usize,
    },
}

// Whether one of the route's legs is the link at the place.
fn uses_link(card: &PlainCard, place: usize) -> bool {
    card.legs.iter().any(|leg| *leg as usize == place)
}

// Whether a walk with a new link of this value can be better than the answer.
fn can_better(card: &PlainCard, value: Figures) -> bool {
    let limit = card.ask.limit;
    is_no_worse(value, limit)
        && card
            .answer
            .is_none_or(|route| ranks_before(value, route.value, limit))
}

fn is_struck(card: &PlainCard, news: News) -> bool {
    match news {
        News::Offered { value } => can_better(card, value),
        News::Withdrawn { place } => uses_link(card, place),
        News::Changed { place, old, new } => {
            old != new
                && (uses_link(card, place) || (!is_no_worse(old, new) && can_better(card, new)))
        }
    }
}

// Takes the standing off the cards that the news strikes, and answers how many there are.
pub(crate) fn put_in_doubt(cards: &mut [Option<PlainCard>], news: News) -> usize {
    // marks and counts in one pass
    let mut count = 0usize;
    for card in cards.iter_mut().flatten() {
        if card.mark == Mark::Standing && is_struck(card, news) {
            card.mark = Mark::Doubtful;
            count = count.saturating_add(1);
        }
    }
    count
}
