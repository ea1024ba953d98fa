//! After a call: what the library holds is compared with the model, and what standing cards say with all walks.
use crate::calls::{PlainReply, read_card};
use crate::difference::{Wrong, ensure};
use crate::kind::Kind;
use crate::lent::{BLANK, has_only};
use crate::model::{LEGS, Model, PlainCard, PlainLink};
use crate::tally::count;
use crate::turn::Trial;
use catalogue::Links;
use report::Mark;

// Whether the standing card says what is so: its answer is the best, and its legs are a walk of that value and number of legs.
fn is_right(model: &Model, card: &PlainCard) -> bool {
    if !model.is_best(card.ask, card.answer) {
        return false;
    }
    match card.answer {
        None => true,
        Some(route) => route.legs == card.legs.len() && model.is_route(card, route.value),
    }
}

// Whether the reading is right: of a filled card its legs from number 1 on, and else a refusal and blanks.
fn is_shown(model: &Model, card: usize, reply: PlainReply, numbers: &[u16]) -> bool {
    match model.card(card) {
        Ok(held) => reply == Ok(held.shown()) && has_only(numbers, 1, &held.legs, BLANK),
        Err(cause) => reply == Err(cause.alone()) && has_only(numbers, 0, &[], BLANK),
    }
}

impl<M: Kind> Trial<'_, M> {
    // Reads the card, filled or not, and compares.
    fn audit_card(&mut self, card: usize) -> Result<(), Wrong> {
        // an array, as a reply is lent
        let mut numbers = [BLANK; LEGS];
        let reply = read_card(&self.book, card, &mut numbers, 1);
        let is_shown = is_shown(&self.model, card, reply, &numbers);
        ensure(is_shown, Wrong::Card(card))?;
        if let Ok(held) = self.model.card(card)
            && held.mark == Mark::Standing
        {
            count(&mut self.tally.standing);
            ensure(is_right(&self.model, held), Wrong::Standing(card))?;
        }
        Ok(())
    }

    // Compares every link place, and the one past the last.
    fn audit_links(&self) -> Result<(), Wrong> {
        for place in 0..=self.model.links.len() {
            let held = self.catalogue.link(place).map(PlainLink::from);
            ensure(held == self.model.link(place), Wrong::Link(place))?;
        }
        Ok(())
    }

    // Compares every link place and every card place, and the one past the last of each.
    pub(crate) fn audit(&mut self) -> Result<(), Wrong> {
        self.audit_links()?;
        for card in 0..=self.model.cards.len() {
            self.audit_card(card)?;
        }
        Ok(())
    }
}
