//! What serves the records of a feed: the trunk product's catalogue and quote book, with the memory that is lent to their calls.
ghost use Rattle.std.specs.Prelude.{◌≡◌, ◌<◌, length, take};
ghost use Rattle.service.specs.Serving.{Served, printed, Legible};
ghost use Rattle.service.specs.Services.{memory_in, lent_by, Performed, SameService};

use crate::{call_of, card_read, print};
use cards::{Call, Reply};
use catalogue::Catalogue;
use line::Reply as Printed;
use measure::pair::{Trunk, TrunkLimit};
use quotes::{QuoteBook, perform};
use records::Record;
use routing::Workspace;

// A catalogue and its quote book, and what is lent to each of their calls: a workspace of k labels a site, and numbers for a route's legs.
// Each loan has a lifetime of its own, and so has the memory that catalogue, quote book and workspace stand in: they need not come from one
// place.
#[derive(Drop)]
pub struct Service<'catalogue, 'links, 'book, 'cards, 'workspace, 'labels, 'reply> {
    pub catalogue: &'catalogue mut Catalogue<'links, Trunk>,
    pub book: &'book mut QuoteBook<'cards, Trunk>,
    pub workspace: &'workspace mut Workspace<'labels, Trunk>,
    pub k: usize,
    pub reply: &'reply mut [u16],
}

impl Service<'_, '_, '_, '_, '_, '_, '_> {
    // Carries out a call with all that can be lent to it.
    fn perform(&mut self, call: Call<Trunk, TrunkLimit>) -> Reply<Trunk>
        ensures outcome { Performed self.old call result self.new }
        ensures same { SameService self.old self.new }
    {
        perform(self.catalogue, self.book, self.workspace, self.reply, call)
    }

    // Carries out the record's call. What is answered of a card is what a reading of it gives, so that its legs stand in the reply.
    #[tactic(auto, using(crate::proofs::Reading::ends))]
    pub fn serve(&mut self, record: Record) -> Reply<Trunk>
        ensures served { Served (memory_in self.old) (lent_by self.old) «record» self.old.k
            result (memory_in self.new) (lent_by self.new) }
        ensures legible { Legible result self.new.reply.now }
        ensures same { SameService self.old self.new }
    {
        let answer = self.perform(call_of(record, self.k));
        match card_read(record, answer) {
            Some(card) => self.perform(Call::Read { card, start: 0 }),
            None => answer,
        }
    }

    // What is printed of a reply, and the legs of its route: the first numbers of those that are lent.
    pub(crate) fn printed(&self, reply: Reply<Trunk>) -> (Printed, &[u16])
        requires { Legible reply self.now.reply.now }
        ensures printed { result.0 ≡ (printed reply).0 }
        ensures legs { result.1.now ≡ take (printed reply).1 self.now.reply.now }
        ensures few { length result.1.now < 256 }
    {
        let (printed, count) = print(reply);
        (printed, &self.reply[..count])
    }
}
