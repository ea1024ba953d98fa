//! One call after the other: whatever the calls were, what a standing card says is so.
ghost use Rattle.std.specs.Prelude.{◌≡◌};
ghost use Rattle.report.specs.Refusals.{InOrder};
ghost use Rattle.cards.specs.Runs.{lent, causes_of, Outcome, Continues};
ghost use Rattle.routing.specs.Lent.{labels_of, SameWorkspace};
ghost use Rattle.catalogue.specs.Keeping.{SameLinks};
ghost use Rattle.book.specs.Stores.{memory_of, SamePlaces};

use crate::changes::{change, offer, withdraw};
use book::{QuoteBook, discard, quote, read, recheck};
use cards::{Answer, Call, Reply};
use catalogue::{Catalogue, Route};
use measure::Measure;
use report::Mark;
use routing::Workspace;

// What a quote or a recheck that was carried out answers: the card stands.
fn standing<M: Copy>(answer: Option<Route<M>>) -> Answer<M>
    ensures { result ≡ Answer.Held Mark.Standing answer }
{
    Answer::Held {
        mark: Mark::Standing,
        answer,
    }
}

// Carries out the call, with an arm for each, and says its outcome; `perform` adds the law over whole runs.
fn carry_out<M: Measure>(
    catalogue: &mut Catalogue<'_, M>,
    book: &mut QuoteBook<'_, M>,
    workspace: &mut Workspace<'_, M>,
    reply: &mut [u16],
    call: Call<M, M::Limit>,
) -> Reply<M>
    ensures outcome { Outcome M.Measure.kind
        (memory_of catalogue.old book.old) (lent (labels_of workspace.old) reply.old) call result
        (memory_of catalogue.new book.new) (lent (labels_of workspace.new) reply.new) }
    ensures links { SameLinks catalogue.old catalogue.new }
    ensures places { SamePlaces book.old book.new }
    ensures workspace { SameWorkspace workspace.old workspace.new }
{
    match call {
        Call::Offer { place, link } => Ok(Answer::Counted(offer(catalogue, book, place, link)?)),
        Call::Change { place, value } => Ok(Answer::Counted(change(
            catalogue, book, place, value,
        )?)),
        Call::Withdraw { place } => Ok(Answer::Counted(withdraw(catalogue, book, place)?)),
        Call::Quote { card, ask, k } => Ok(standing(quote(
            &*catalogue,
            book,
            workspace,
            card,
            ask,
            k,
        )?)),
        Call::Recheck { card, k } => Ok(standing(recheck(&*catalogue, book, workspace, card, k)?)),
        Call::Discard { card } => {
            discard(book, card)?;
            Ok(Answer::Counted(0))
        }
        Call::Read { card, start } => {
            let (mark, answer) = read(&*book, card, reply, start)?;
            Ok(Answer::Held { mark, answer })
        }
    }
}

// Carries out one call. Whatever calls a catalogue and the quote book that was opened with it, in sizes that are not refused, have seen, in
// any order, any of them refused: a standing card with a route has the best one in the catalogue, a standing card with none has none, and where a site was said
// to be full, there were more walks to it than its labels hold. This call is one more of them.
pub fn perform<M: Measure>(
    catalogue: &mut Catalogue<'_, M>,
    book: &mut QuoteBook<'_, M>,
    workspace: &mut Workspace<'_, M>,
    reply: &mut [u16],
    call: Call<M, M::Limit>,
) -> Reply<M>
    ensures outcome { Outcome M.Measure.kind
        (memory_of catalogue.old book.old) (lent (labels_of workspace.old) reply.old) call result
        (memory_of catalogue.new book.new) (lent (labels_of workspace.new) reply.new) }
    ensures causes_in_order { InOrder (causes_of M.Measure.kind
        (memory_of catalogue.old book.old) (lent (labels_of workspace.old) reply.old) call) }
    ensures no_better_route { Continues M.Measure.kind
        (memory_of catalogue.old book.old) call result (memory_of catalogue.new book.new) }
    ensures links { SameLinks catalogue.old catalogue.new }
    ensures places { SamePlaces book.old book.new }
    ensures workspace { SameWorkspace workspace.old workspace.new }
{
    carry_out(catalogue, book, workspace, reply, call)
}
