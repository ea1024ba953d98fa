//! Walks along the model's links, all of them up to a length, and whether an answer is what the best of them is worth.
use crate::figures::{Figures, NO_LEGS, is_no_worse, joined, ranks_before, share_of};
use crate::model::{LEGS, Model, PlainAsk, PlainCard, PlainLink, PlainRoute};
use std::mem;

// What is kept of the values of walks, each of which it meets in turn.
pub trait Meets: Drop {
    fn meet(&mut self, value: Figures);
}

// The value that ranks first under the limit of those that were met.
#[derive(Drop)]
struct Best {
    limit: Figures,
    value: Option<Figures>,
}

impl Meets for Best {
    fn meet(&mut self, value: Figures) {
        match self.value {
            Some(best) if !ranks_before(value, best, self.limit) => {}
            _ => self.value = Some(value),
        }
    }
}

// The walks from a source to a target along the links within the limit, and what is kept of their values.
#[derive(Drop)]
struct Walks<'a, T: Meets> {
    links: &'a [Option<PlainLink>],
    limit: Figures,
    target: u16,
    kept: T,
}

impl<T: Meets> Walks<'_, T> {
    // Meets the values of the walks that go on from this one, which has come to the site, by at most so many legs more. Only the limit cuts
    // a walk short.
    fn go_on(&mut self, site: u16, value: Figures, more: usize) {
        if site == self.target {
            self.kept.meet(value);
        }
        if more == 0 {
            return;
        }
        for link in self.links.iter().flatten() {
            if link.start == site {
                let longer = joined(value, link.value);
                if is_no_worse(longer, self.limit) {
                    self.go_on(link.end, longer, more - 1);
                }
            }
        }
    }
}

// Notes the site, and answers whether it is new.
fn is_new(seen: &mut [bool], site: u16) -> bool {
    match seen.get_mut(site as usize) {
        Some(was) => !mem::replace(was, true),
        None => false,
    }
}

impl Model {
    // What is kept of the values of all walks from the source that is asked for to the target within the limit.
    //
    // Walks of up to as many legs as there are sites are gone through. One with more comes by some site twice; without the legs between it
    // is worth no more in any number, so that it ranks no later. By the same reason one leg less would do.
    pub(crate) fn meet_walks<T: Meets>(&self, ask: PlainAsk, target: u16, kept: T) -> T {
        let mut walks = Walks {
            links: &self.links,
            limit: ask.limit,
            target,
            kept,
        };
        walks.go_on(ask.source, NO_LEGS, self.sites);
        walks.kept
    }

    // Whether what is answered is what the walk of first rank is worth, or none where there is none.
    pub(crate) fn is_best(&self, ask: PlainAsk, answer: Option<PlainRoute>) -> bool {
        let limit = ask.limit;
        let none = Best { limit, value: None };
        let best = self.meet_walks(ask, ask.destination, none).value;
        let wanted = best.map(|value| (value, share_of(value, limit)));
        wanted == answer.map(|route| (route.value, route.share))
    }

    // Whether the card's legs are a walk for what is asked, worth this value, that comes by no site twice.
    pub(crate) fn is_route(&self, card: &PlainCard, value: Figures) -> bool {
        let mut seen = [false; LEGS];
        let mut site = card.ask.source;
        let mut worth = NO_LEGS;
        let _is_first = is_new(&mut seen, site);
        for leg in &card.legs {
            let Some(link) = self.link(*leg as usize) else {
                return false;
            };
            if link.start != site || !is_new(&mut seen, link.end) {
                return false;
            }
            site = link.end;
            worth = joined(worth, link.value);
        }
        site == card.ask.destination && worth == value && is_no_worse(worth, card.ask.limit)
    }
}
