//! The memory of a program, and what becomes of an input that is served over it.
ghost use Rattle.std.specs.Prelude.{IfOk};
ghost use Rattle.book.specs.Stores.{memory_of};
ghost use Rattle.routing.specs.Lent.{labels_of};
ghost use Rattle.service.specs.Services.{room_of};
ghost use Rattle.service.specs.Input.{LentFor, PrintsDay, PrintsInput};

use crate::{Service, read_input};
use cards::Card;
use catalogue::{Catalogue, Link};
use labels::Slot;
use measure::pair::{Trunk, TrunkLimit};
use quotes::QuoteBook;
use routing::Workspace;
use std::io;
use std::io::{Read, Write};

// How large a program is: its sites, link places and cards, how many walks routing can hold at a site, and how many bytes of input it reads.
#[derive(Clone, Copy)]
pub struct Sizes {
    pub sites: usize,
    pub places: usize,
    pub cards: usize,
    pub walks: usize,
    pub input: usize,
}

// What a program lends to the library: places for links and for cards, the cards' rows, labels, numbers for a route's legs, and room for
// the input.
#[derive(Drop)]
pub struct Storage<'m> {
    pub links: &'m mut [Option<Link<Trunk>>],
    pub cards: &'m mut [Option<Card<Trunk, TrunkLimit>>],
    pub rows: &'m mut [u16],
    pub labels: &'m mut [Slot<Trunk>],
    pub reply: &'m mut [u16],
    pub input: &'m mut [u8],
}

// Serves a feed on a catalogue and a quote book, with k labels a site, wherever these and what is lent to their calls come from.
fn serve_day<W: Write>(
    catalogue: &mut Catalogue<'_, Trunk>,
    book: &mut QuoteBook<'_, Trunk>,
    workspace: &mut Workspace<'_, Trunk>,
    k: usize,
    reply: &mut [u16],
    out: &mut W,
    feed: &[u8],
) -> io::Result<()>
    ensures { IfOk result (λ _. PrintsDay feed.now (room_of k (labels_of workspace.old) reply.old)
        (memory_of catalogue.old book.old) (W.Write.contents out.old) (W.Write.contents out.new)) }
{
    let mut service = Service {
        catalogue,
        book,
        workspace,
        k,
        reply,
    };
    service.serve_feed(out, feed)
}

impl Storage<'_> {
    // Opens a catalogue and a quote book, reads the input up to the end of the room for it, and writes a line for each record. No memory
    // is taken, and that opening does not refuse the sizes is proved beforehand.
    pub(crate) fn serve<R: Read, W: Write>(
        &mut self,
        sizes: Sizes,
        input: &mut R,
        out: &mut W,
    ) -> io::Result<()>
        requires { LentFor sizes self.old }
        ensures { IfOk result (λ _. PrintsInput sizes
            (R.Read.remaining input.old) (R.Read.remaining input.new) (W.Write.contents out.old) (W.Write.contents out.new)) }
    {
        // Each slice is taken into a variable first: a loan of one in its field would stand in the way of the others.
        let (links, cards, rows) = (&mut *self.links, &mut *self.cards, &mut *self.rows);
        let (labels, reply, buffer) = (&mut *self.labels, &mut *self.reply, &mut *self.input);
        rows.fill(0);
        let mut catalogue = Catalogue::open(links, sizes.sites);
        let mut book = QuoteBook::open(cards, rows, sizes.sites);
        let mut workspace = Workspace::new(labels);
        let got = read_input(input, buffer)?;
        let feed = &buffer[0..got];
        serve_day(
            &mut catalogue,
            &mut book,
            &mut workspace,
            sizes.walks,
            reply,
            out,
            feed,
        )
    }
}
