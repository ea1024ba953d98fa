//! The calls on one card that need no catalogue.
ghost use Rattle.std.specs.Prelude.{◌≡◌, ◌+◌, ◌≤◌, length, nat_lt};
ghost use Rattle.std.proofs.Math.Seq.{paste};
ghost use Rattle.report.specs.Refusals.{topmost, unless, filled_or};
ghost use Rattle.report.specs.declared.Refusal.TheVariants.{CardEmpty};
ghost use Rattle.catalogue.specs.Places.{at};
ghost use Rattle.cards.specs.Calls.{discard_causes, Discarded, Shown};
ghost use Rattle.book.specs.Stores.{book_of, SamePlaces};

use crate::QuoteBook;
use cards::Card;
use catalogue::Route;
use doubt::leg_count;
use measure::Measure;
use report::{Mark, Refusal};

// The card at a place that must be filled.
pub(crate) fn filled<M: Measure>(
    book: &QuoteBook<'_, M>,
    card: usize,
) -> Result<Card<M, M::Limit>, Refusal>
    ensures { result ≡ unless (topmost (discard_causes (book_of book.now) card)) (filled_or CardEmpty (at book.now.cards.now card)) }
{
    book.cards
        .get(card)
        .ok_or(Refusal::NoSuchCard)?
        .ok_or(Refusal::CardEmpty)
}

// Empties the card's place, and zeros its row.
#[tactic(auto, using(crate::proofs::Endings::discards))]
pub fn discard<M: Measure>(book: &mut QuoteBook<'_, M>, card: usize) -> Result<(), Refusal>
    ensures outcome { Discarded (book_of book.old) card result (book_of book.new) }
    ensures places { SamePlaces book.old book.new }
{
    filled(&*book, card)?;
    book.empty(card);
    Ok(())
}

// Whether so many numbers have no room from the start place on.
fn is_short(room: usize, start: usize, count: usize) -> bool
    ensures { result ≡ nat_lt room (start + count) }
{
    room.checked_sub(start).is_none_or(|left| left < count)
}

// Copies the numbers into the lent reply from the caller's start place on.
fn copy_into(numbers: &[u16], reply: &mut [u16], start: usize)
    requires { start + length numbers.now ≤ length reply.old }
    ensures { reply.new ≡ paste reply.old start numbers.now (length numbers.now) }
{
    reply[start..start + numbers.len()].copy_from_slice(numbers);
}

// Answers the card's mark and answer, and copies its legs into the reply from the start place on.
#[tactic(auto, using(crate::proofs::Endings::reads))]
pub fn read<M: Measure>(
    book: &QuoteBook<'_, M>,
    card: usize,
    reply: &mut [u16],
    start: usize,
) -> Result<(Mark, Option<Route<M>>), Refusal>
    ensures { Shown (book_of book.now) card start reply.old result reply.new }
{
    let it = filled(book, card)?;
    let legs = leg_count(it.answer);
    if is_short(reply.len(), start, legs) {
        return Err(Refusal::ReplyTooShort);
    }
    copy_into(book.legs(card, legs), reply, start);
    Ok((it.mark, it.answer))
}
