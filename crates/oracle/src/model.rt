//! What the catalogue and its quote book should hold, kept anew from the arguments of the calls and the rules alone: nothing of the
//! library's is used here but its words for a mark.
use crate::calls::PlainAnswer;
use crate::cause::Cause;
use crate::difference::ensure;
use crate::doubts::{News, put_in_doubt};
use crate::figures::{Figures, Share, is_admitted, is_limit};
use crate::request::Request;
use arrayvec::ArrayVec;
use report::Mark;
use std::{array, mem};

// The most link places and card places that are tried.
pub const PLACES: usize = 10;

pub const CARDS: usize = 3;

// Room for the legs of a route: more than there are sites.
pub const LEGS: usize = 8;

#[derive(Clone, Copy, PartialEq, Eq, Debug)]
pub struct PlainLink {
    pub start: u16,
    pub end: u16,
    pub value: Figures,
}

// What is asked for.
#[derive(Clone, Copy, PartialEq, Eq, Debug)]
pub struct PlainAsk {
    pub source: u16,
    pub destination: u16,
    pub limit: Figures,
}

#[derive(Clone, Copy, PartialEq, Eq, Debug)]
pub struct PlainRoute {
    pub legs: usize,
    pub value: Figures,
    pub share: Share,
}

// A card with its legs, which are the library's: which of several equal walks it answers is free.
#[derive(Drop)]
pub struct PlainCard {
    pub ask: PlainAsk,
    pub answer: Option<PlainRoute>,
    pub mark: Mark,
    pub legs: ArrayVec<u16, LEGS>,
}

// What routing is to find: the best route for what is asked, with k labels a site, for the card.
#[derive(Clone, Copy)]
pub struct Sought {
    pub card: usize,
    pub ask: PlainAsk,
    pub k: usize,
}

// What is foreseen of a call that is carried out: what it answers, or what routing is to find.
#[derive(Clone, Copy)]
pub enum Foreseen {
    Answer(PlainAnswer),
    Sought(Sought),
}

// What a call should answer, or why it should be refused.
pub type Forecast = Result<Foreseen, Cause>;

#[derive(Drop)]
pub struct Model {
    pub sites: usize,
    // A link or none for each link place.
    pub links: ArrayVec<Option<PlainLink>, PLACES>,
    pub cards: ArrayVec<Option<PlainCard>, CARDS>,
}

impl PlainCard {
    // What a reading of the card answers.
    pub(crate) fn shown(&self) -> PlainAnswer {
        PlainAnswer::Held {
            mark: self.mark,
            answer: self.answer,
        }
    }
}

// Whether there is such a site among so many.
fn is_site(sites: usize, site: u16) -> bool {
    (site as usize) < sites
}

impl Model {
    pub(crate) fn open(sites: usize, link_places: usize, card_places: usize) -> Model {
        let mut links = ArrayVec::from([None; PLACES]);
        links.truncate(link_places);
        let mut cards = ArrayVec::from(array::from_fn(|_| None));
        cards.truncate(card_places);
        Model {
            sites,
            links,
            cards,
        }
    }

    pub(crate) fn link(&self, place: usize) -> Option<PlainLink> {
        self.links.get(place).copied().flatten()
    }

    // The card, which is filled.
    pub(crate) fn card(&self, card: usize) -> Result<&PlainCard, Cause> {
        let held = self.cards.get(card).ok_or(Cause::NoSuchCard)?;
        held.as_ref().ok_or(Cause::CardEmpty)
    }

    // Whether most link places are empty.
    pub(crate) fn is_sparse(&self) -> bool {
        self.links.iter().flatten().count() <= self.links.len() / 2
    }

    // Files the card at its place.
    pub(crate) fn file(&mut self, place: usize, card: PlainCard) {
        if let Some(held) = self.cards.get_mut(place) {
            *held = Some(card);
        }
    }

    // Refuses a workspace of so many labels that is for another number of sites or walks, or a k outside 1 to 64.
    fn check_room(&self, room: usize, k: usize) -> Result<(), Cause> {
        let fits = (1..=64).contains(&k) && self.sites.saturating_mul(k) == room;
        ensure(fits, Cause::WorkspaceSize)
    }

    fn spread(&mut self, news: News) -> Forecast {
        let cards = put_in_doubt(&mut self.cards, news);
        Ok(Foreseen::Answer(PlainAnswer::Counted(cards)))
    }

    fn offer(&mut self, place: usize, link: PlainLink) -> Forecast {
        let held = self.links.get_mut(place).ok_or(Cause::NoSuchLink)?;
        ensure(is_site(self.sites, link.start), Cause::NoSuchSite)?;
        ensure(is_site(self.sites, link.end), Cause::NoSuchSite)?;
        ensure(link.start != link.end, Cause::EndsMeet)?;
        ensure(is_admitted(link.value), Cause::ValueNotAdmitted)?;
        ensure(held.is_none(), Cause::LinkTaken)?;
        *held = Some(link);
        self.spread(News::Offered { value: link.value })
    }

    fn change(&mut self, place: usize, value: Figures) -> Forecast {
        let held = self.links.get_mut(place).ok_or(Cause::NoSuchLink)?;
        ensure(is_admitted(value), Cause::ValueNotAdmitted)?;
        let link = held.as_mut().ok_or(Cause::LinkEmpty)?;
        let old = mem::replace(&mut link.value, value);
        self.spread(News::Changed {
            place,
            old,
            new: value,
        })
    }

    fn withdraw(&mut self, place: usize) -> Forecast {
        let held = self.links.get_mut(place).ok_or(Cause::NoSuchLink)?;
        held.take().ok_or(Cause::LinkEmpty)?;
        self.spread(News::Withdrawn { place })
    }

    fn quote(&self, card: usize, ask: PlainAsk, k: usize, room: usize) -> Forecast {
        let held = self.cards.get(card).ok_or(Cause::NoSuchCard)?;
        ensure(is_site(self.sites, ask.source), Cause::NoSuchSite)?;
        ensure(is_site(self.sites, ask.destination), Cause::NoSuchSite)?;
        ensure(is_limit(ask.limit), Cause::LimitNotAdmitted)?;
        ensure(held.is_none(), Cause::CardFilled)?;
        self.check_room(room, k)?;
        Ok(Foreseen::Sought(Sought { card, ask, k }))
    }

    fn recheck(&self, card: usize, k: usize, room: usize) -> Forecast {
        let held = self.card(card)?;
        self.check_room(room, k)?;
        let ask = held.ask;
        Ok(match held.mark {
            Mark::Standing => Foreseen::Answer(held.shown()),
            Mark::Doubtful => Foreseen::Sought(Sought { card, ask, k }),
        })
    }

    fn discard(&mut self, card: usize) -> Forecast {
        let held = self.cards.get_mut(card).ok_or(Cause::NoSuchCard)?;
        held.take().ok_or(Cause::CardEmpty)?;
        Ok(Foreseen::Answer(PlainAnswer::Counted(0)))
    }

    fn read(&self, card: usize, start: usize, room: usize) -> Forecast {
        let held = self.card(card)?;
        let end = start.saturating_add(held.legs.len());
        ensure(end <= room, Cause::ReplyTooShort)?;
        Ok(Foreseen::Answer(held.shown()))
    }

    // What the request should be answered, and what is then held; but what routing finds is not put on its card yet.
    pub(crate) fn foresee(&mut self, request: Request) -> Forecast {
        match request {
            Request::Offer { place, link } => self.offer(place, link),
            Request::Change { place, value } => self.change(place, value),
            Request::Withdraw { place } => self.withdraw(place),
            Request::Quote { card, ask, k, room } => self.quote(card, ask, k, room),
            Request::Recheck { card, k, room } => self.recheck(card, k, room),
            Request::Discard { card } => self.discard(card),
            Request::Read { card, start, room } => self.read(card, start, room),
        }
    }
}

// What the request should be answered with a quote book that is empty and for another number of sites.
pub(crate) fn foresee_elsewhere(request: Request, card_places: usize) -> Forecast {
    match request {
        Request::Discard { card } | Request::Read { card, .. } if card < card_places => {
            Err(Cause::CardEmpty)
        }
        Request::Discard { .. } | Request::Read { .. } => Err(Cause::NoSuchCard),
        _ => Err(Cause::SitesDiffer),
    }
}
