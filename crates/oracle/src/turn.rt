//! One call, by the library and by the model, and what of its answer can be compared at once.
use crate::calls::{PlainAnswer, PlainRefusal, PlainReply, carry_out, read_card};
use crate::cause::Cause;
use crate::difference::{Wrong, ensure};
use crate::kind::Kind;
use crate::lent::{BLANK, are_as_left, are_marked, has_only, mark_labels, room_for};
use crate::model::{Forecast, Foreseen, LEGS, Model, PlainCard, PlainRoute, Sought};
use crate::request::Request;
use crate::tally::{Tally, count};
use arrayvec::ArrayVec;
use catalogue::Catalogue;
use labels::Slot;
use measure::Measure;
use quotes::QuoteBook;
use report::{Mark, Returned};
use routing::Workspace;

// A request, what it should be answered, whether it goes by its own call or by the one for all, and whether to the quote book that is for
// another number of sites.
#[derive(Clone, Copy)]
pub struct Turn {
    pub request: Request,
    pub forecast: Forecast,
    // These two are drawn: there are two ways to make the same call, and two books to make it to.
    pub by_its_own: bool,
    pub is_elsewhere: bool,
}

// A catalogue, its quote book and another for one site more, what is lent to their calls, the model of what they hold, and what was tried.
#[derive(Drop)]
pub struct Trial<'a, M: Measure> {
    pub catalogue: Catalogue<'a, M>,
    pub book: QuoteBook<'a, M>,
    pub other: QuoteBook<'a, M>,
    pub labels: &'a mut [Slot<M>],
    pub model: Model,
    pub tally: &'a mut Tally,
}

// The second of the two, or the first: a function, since the borrow checker does not follow the choice inside another one.
fn pick<'x, T>(first: &'x mut T, second: &'x mut T, is_second: bool) -> &'x mut T {
    if is_second { second } else { first }
}

// The site whose labels are said to be full.
fn full_site(returned: Returned) -> Option<u16> {
    match returned {
        Returned::One(site) => u16::try_from(site).ok(),
        _ => None,
    }
}

impl<M: Kind> Trial<'_, M> {
    // Compares what was said of a full site: there are more walks to it than its labels hold, none dominating another.
    fn check_full(
        &mut self,
        sought: Sought,
        returned: Returned,
        reply: PlainReply,
    ) -> Result<(), Wrong> {
        let site = full_site(returned).ok_or(Wrong::NotFull(reply))?;
        let is_full = self.model.is_crowded(sought, site);
        ensure(is_full, Wrong::NotFull(reply))?;
        count(&mut self.tally.full);
        Ok(())
    }

    // Files on the model's card what routing answered for it, with the legs in the card's row, as a reading gives them.
    fn file(&mut self, sought: Sought, answer: Option<PlainRoute>) {
        // an array, as a reply is lent
        let mut numbers = [BLANK; LEGS];
        let _reply = read_card(&self.book, sought.card, &mut numbers, 0);
        let mut legs = ArrayVec::from(numbers);
        legs.truncate(answer.map_or(0, |route| route.legs));
        let card = PlainCard {
            ask: sought.ask,
            answer,
            mark: Mark::Standing,
            legs,
        };
        self.model.file(sought.card, card);
    }

    // Compares what routing answered, a route or none, and files it.
    fn check_found(
        &mut self,
        sought: Sought,
        answer: Option<PlainRoute>,
        reply: PlainReply,
    ) -> Result<(), Wrong> {
        let is_best = self.model.is_best(sought.ask, answer);
        ensure(is_best, Wrong::NotBest(reply))?;
        self.file(sought, answer);
        match answer {
            Some(_) => count(&mut self.tally.routes),
            None => count(&mut self.tally.nones),
        }
        Ok(())
    }

    // Compares what was answered where routing was foreseen: a route, none, or that a site is full, which is left open.
    fn check_sought(&mut self, sought: Sought, reply: PlainReply) -> Result<(), Wrong> {
        match reply {
            Err(PlainRefusal { number, returned }) if number == Cause::LabelsFull.number() => {
                self.check_full(sought, returned, reply)
            }
            Ok(
                PlainAnswer::Held {
                    mark: Mark::Standing,
                    answer,
                },
            ) => self.check_found(sought, answer, reply),
            _ => Err(Wrong::Answer(reply)),
        }
    }

    // Compares the reply with what was foreseen.
    fn check_reply(&mut self, forecast: Forecast, reply: PlainReply) -> Result<(), Wrong> {
        let wanted = match forecast {
            Ok(Foreseen::Sought(sought)) => return self.check_sought(sought, reply),
            Ok(Foreseen::Answer(answer)) => Ok(answer),
            Err(cause) => Err(cause.alone()),
        };
        ensure(reply == wanted, Wrong::Answer(reply))
    }

    // Whether the reply's numbers are the legs of the card that was read, or blank after any other call.
    fn are_numbers_right(&self, turn: Turn, numbers: &[u16]) -> bool {
        match (turn.request, turn.forecast) {
            (Request::Read { card, start, .. }, Ok(_)) => self
                .model
                .card(card)
                .is_ok_and(|held| has_only(numbers, start, &held.legs, BLANK)),
            _ => has_only(numbers, 0, &[], BLANK),
        }
    }

    // Has the request carried out by the library, and compares what it answers and what comes back with what the model foresees.
    pub(crate) fn take(&mut self, turn: Turn) -> Result<(), Wrong> {
        let (label_room, number_room) = room_for(turn.request);
        let room = label_room.min(self.labels.len());
        let labels = &mut self.labels[0..room];
        ensure(are_marked(labels), Wrong::Workspace)?;
        let mut workspace = Workspace::new(labels);
        // an array, as a reply is lent
        let mut numbers = [BLANK; LEGS];
        let lent = &mut numbers[0..number_room.min(LEGS)];
        let book = pick(&mut self.book, &mut self.other, turn.is_elsewhere);
        let reply = carry_out(&mut self.catalogue, book, &mut workspace, lent, turn);
        self.tally.note_reply(reply);
        ensure(are_as_left(labels, turn.forecast), Wrong::Workspace)?;
        mark_labels(labels);
        ensure(self.are_numbers_right(turn, lent), Wrong::Numbers)?;
        self.check_reply(turn.forecast, reply)
    }
}
