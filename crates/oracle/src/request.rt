//! Calls in plain numbers, drawn at random: mostly such as can be carried out, now and then one for each refusal.
use crate::figures::{Figures, OVER};
use crate::model::{LEGS, Model, PlainAsk, PlainLink};
use crate::random::Random;
use report::Mark;

// A call, with the room that is lent for it. It is taken apart by each question of its own, case by case.
#[derive(Clone, Copy, Debug)]
pub enum Request {
    Offer {
        place: usize,
        link: PlainLink,
    },
    Change {
        place: usize,
        value: Figures,
    },
    Withdraw {
        place: usize,
    },
    // `room` labels are lent.
    Quote {
        card: usize,
        ask: PlainAsk,
        k: usize,
        room: usize,
    },
    Recheck {
        card: usize,
        k: usize,
        room: usize,
    },
    Discard {
        card: usize,
    },
    // `room` numbers are lent for the reply.
    Read {
        card: usize,
        start: usize,
        room: usize,
    },
}

// How the numbers of a catalogue's values and limits are drawn.
#[derive(Clone, Copy)]
pub struct Style {
    // What the small numbers are multiplied by.
    pub scale: u64,
    // Whether price and class count too, beside the delay: the kind's constant, handed on so that a draw needs no kind.
    pub has_all: bool,
}

// What a call is drawn from: random numbers, what the model holds, and how values are drawn.
#[derive(Drop)]
pub struct Draw<'a> {
    pub random: &'a mut Random,
    pub model: &'a Model,
    pub style: Style,
}

impl Draw<'_> {
    // A number of a value: often 0, and otherwise up to 6, so that many are equal; seldom one at an end of its range.
    fn value_number(&mut self) -> u64 {
        match self.random.below(300) {
            0 => OVER,
            1 => OVER - 1,
            2 => u32::MAX as u64,
            3..=80 => 0,
            _ => self.style.scale.saturating_mul(self.random.below(7) as u64),
        }
    }

    fn value(&mut self) -> Figures {
        let delay = self.value_number();
        if !self.style.has_all {
            return Figures {
                delay,
                price: 0,
                class: 0,
            };
        }
        Figures {
            delay,
            price: self.value_number(),
            class: self.value_number(),
        }
    }

    fn limit_number(&mut self) -> u64 {
        match self.random.below(150) {
            0 => OVER,
            1 => 0,
            2 => u32::MAX as u64,
            3..=6 => OVER - 1,
            _ => {
                let small = self.random.below(14).max(self.random.below(14)) as u64;
                self.style.scale.saturating_mul(small.max(1)).min(OVER - 1)
            }
        }
    }

    fn limit(&mut self) -> Figures {
        let delay = self.limit_number();
        if !self.style.has_all {
            return Figures {
                delay,
                price: 1,
                class: 1,
            };
        }
        if self.random.one_in(3) {
            return Figures {
                delay,
                price: delay,
                class: delay,
            };
        }
        Figures {
            delay,
            price: self.limit_number(),
            class: self.limit_number(),
        }
    }

    // A site, or seldom a number that is no site's.
    fn site(&mut self) -> u16 {
        match self.random.below(120) {
            0 => u16::try_from(self.model.sites).unwrap_or(u16::MAX),
            1 => u16::MAX,
            _ => self.random.site_below(self.model.sites),
        }
    }

    // A place below the end, or seldom one past it.
    fn place(&mut self, end: usize) -> usize {
        match self.random.below(80) {
            0 => end,
            1 => usize::MAX,
            _ => self.random.below(end),
        }
    }

    // A link place: of two that are drawn the second, where the first is not as wanted, filled or empty. A flag here and for cards: with a
    // closure on the place it did not prove, as what a call of it requires stays open.
    fn link_place(&mut self, is_filled: bool) -> usize {
        let first = self.place(self.model.links.len());
        let second = self.place(self.model.links.len());
        if self.model.link(first).is_some() == is_filled {
            first
        } else {
            second
        }
    }

    // A card place: of two that are drawn the second, where the first is not as wanted, which is empty or doubtful.
    fn card_place(&mut self, is_filled: bool) -> usize {
        let first = self.place(self.model.cards.len());
        let second = self.place(self.model.cards.len());
        let is_wanted = match self.model.card(first) {
            Err(_) => !is_filled,
            Ok(card) => is_filled && card.mark == Mark::Doubtful,
        };
        if is_wanted { first } else { second }
    }

    // A site to go to from the start: seldom the start itself.
    fn end_from(&mut self, start: u16) -> u16 {
        let end = self.site();
        if end != start || self.random.one_in(8) {
            return end;
        }
        if end == 0 { 1 } else { end - 1 }
    }

    fn link(&mut self) -> PlainLink {
        let start = self.site();
        PlainLink {
            start,
            end: self.end_from(start),
            value: self.value(),
        }
    }

    // Another value for the link at the place: often the same, or one that differs in the delay alone.
    fn other_value(&mut self, place: usize) -> Figures {
        let fresh = self.value();
        let Some(link) = self.model.link(place) else {
            return fresh;
        };
        match self.random.below(4) {
            0 => link.value,
            1 => Figures {
                delay: fresh.delay,
                ..link.value
            },
            _ => fresh,
        }
    }

    fn ask(&mut self) -> PlainAsk {
        let source = self.site();
        PlainAsk {
            source,
            destination: self.end_from(source),
            limit: self.limit(),
        }
    }

    // How many labels a site has: few, so that they are full at times, and seldom a number at an end of its range.
    fn labels_each(&mut self) -> usize {
        match self.random.below(120) {
            0 => 0,
            1 => 64,
            2 => 65,
            3..=60 => 1,
            61..=95 => 2,
            _ => 3,
        }
    }

    // How many labels are lent: mostly as many as there should be.
    fn label_room(&mut self, k: usize) -> usize {
        if self.random.one_in(40) {
            self.random.below(20)
        } else {
            self.model.sites.saturating_mul(k)
        }
    }

    fn quote(&mut self) -> Request {
        let k = self.labels_each();
        Request::Quote {
            card: self.card_place(false),
            ask: self.ask(),
            k,
            room: self.label_room(k),
        }
    }

    fn recheck(&mut self) -> Request {
        let k = self.labels_each();
        Request::Recheck {
            card: self.card_place(true),
            k,
            room: self.label_room(k),
        }
    }

    fn read(&mut self) -> Request {
        let start = self.random.below(LEGS + 2);
        Request::Read {
            card: self.place(self.model.cards.len()),
            start: if self.random.one_in(20) {
                usize::MAX
            } else {
                start
            },
            room: self.random.below(LEGS + 1),
        }
    }

    fn change(&mut self) -> Request {
        let place = self.link_place(true);
        Request::Change {
            place,
            value: self.other_value(place),
        }
    }

    fn offer(&mut self) -> Request {
        Request::Offer {
            place: self.link_place(false),
            link: self.link(),
        }
    }

    // The next call: an offer more often while there are few links.
    pub(crate) fn request(&mut self) -> Request {
        if self.model.is_sparse() && self.random.one_in(2) {
            return self.offer();
        }
        match self.random.below(100) {
            0..=19 => self.offer(),
            20..=34 => self.change(),
            35..=41 => Request::Withdraw {
                place: self.link_place(true),
            },
            42..=66 => self.quote(),
            67..=81 => self.recheck(),
            82..=95 => Request::Discard {
                card: self.place(self.model.cards.len()),
            },
            _ => self.read(),
        }
    }
}
