//! The calls that look for a card's best route. The caller lends a workspace to each call, so that it and k are parameters beside what is asked.
ghost use Rattle.std.specs.Prelude.{◌≡◌, ◌+◌, ◌<◌, ◌≤◌, [], ◌∷◌, length, drop, None, Ok};
ghost use Rattle.report.specs.declared.Refusal.TheVariants.{CardEmpty};
ghost use Rattle.report.specs.Refusals.{topmost, unless, filled_or};
ghost use Rattle.catalogue.specs.Places.{at};
ghost use Rattle.routing.specs.Lent.{labels_of, SameWorkspace};
ghost use Rattle.routing.specs.Searching.{route_causes};
ghost use Rattle.labels.specs.Workspaces.{AllFree};
ghost use Rattle.cards.specs.Calls.{differ, quote_causes, recheck_causes, Quoted, Rechecked};
ghost use Rattle.book.specs.Stores.{network_of, book_of, SamePlaces};
ghost use Rattle.catalogue.specs.Keeping.{sites_of};
ghost use Rattle.book.specs.Answers.{network_with, RowAnswer, CardAnswer};

use crate::entries::filled;
use crate::{QuoteBook, write_place};
use cards::{Card, MarkEvent};
use catalogue::{Ask, Catalogue, Links, Route};
use doubt::next_mark;
use measure::Measure;
use report::{Mark, Refusal};
use routing::{Workspace, check_ask, find_route, is_ill_sized};

// Whether the quote book is for as many sites as the catalogue has.
pub fn check_sites<M: Measure>(
    catalogue: &Catalogue<'_, M>,
    book: &QuoteBook<'_, M>,
) -> Result<(), Refusal>
    ensures { result ≡ unless (topmost (differ (network_of catalogue.now) (book_of book.now) ∷ [])) (Ok tt) }
{
    if book.width() == catalogue.sites() {
        Ok(())
    } else {
        Err(Refusal::SitesDiffer)
    }
}

// Why a quote is refused before it begins, the number of sites aside, or that it is not.
fn check_quote<M: Measure>(
    catalogue: &Catalogue<'_, M>,
    book: &QuoteBook<'_, M>,
    room: usize,
    card: usize,
    ask: Ask<M::Limit>,
    k: usize,
) -> Result<(), Refusal>
    ensures { result ≡ unless (topmost (drop 1 (quote_causes M.Measure.kind (network_of catalogue.now) (book_of book.now) room card ask k))) (Ok tt) }
{
    let place = *book.cards.get(card).ok_or(Refusal::NoSuchCard)?;
    check_ask::<M>(catalogue.sites(), ask)?;
    if place.is_some() {
        return Err(Refusal::CardFilled);
    }
    if is_ill_sized(catalogue.sites(), room, k) {
        return Err(Refusal::WorkspaceSize);
    }
    Ok(())
}

// Why a recheck is refused before it begins, the number of sites aside, or the card.
fn check_recheck<M: Measure>(
    catalogue: &Catalogue<'_, M>,
    book: &QuoteBook<'_, M>,
    room: usize,
    card: usize,
    k: usize,
) -> Result<Card<M, M::Limit>, Refusal>
    ensures { result ≡ unless
        (topmost (drop 1 (recheck_causes (network_of catalogue.now) (book_of book.now) room card k)))
        (filled_or CardEmpty (at book.now.cards.now card)) }
{
    let it = filled(book, card)?;
    if is_ill_sized(catalogue.sites(), room, k) {
        return Err(Refusal::WorkspaceSize);
    }
    Ok(it)
}

// Looks for the best route, and writes its legs to the row that begins at the start place: rows lie in one slice, by number.
fn find_in_row<M: Measure, N: Links<M>>(
    network: &N,
    workspace: &mut Workspace<'_, M>,
    k: usize,
    ask: Ask<M::Limit>,
    rows: &mut [u16],
    start: usize,
    width: usize,
) -> Result<Option<Route<M>>, Refusal>
    requires inside { start + width ≤ length rows.old }
    requires unrefused { topmost (route_causes M.Measure.kind
        (N.Links.span network.now) (length (labels_of workspace.old)) k ask width) ≡ None }
    ensures same { SameWorkspace workspace.old workspace.new }
    ensures labels { AllFree M.Measure.kind (labels_of workspace.new) }
    ensures answer { RowAnswer M.Measure.kind (network_with (N.Links.span network.now) (N.Links.links network.now)) k ask rows.old start width result rows.new }
{
    let row = &mut rows[start..start + width];
    find_route(network, workspace, k, ask, row)
}

// Looks for the card's best route, and files the card with this mark.
fn answer_card<M: Measure>(
    catalogue: &Catalogue<'_, M>,
    book: &mut QuoteBook<'_, M>,
    workspace: &mut Workspace<'_, M>,
    card: usize,
    ask: Ask<M::Limit>,
    k: usize,
    mark: Mark,
) -> Result<Option<Route<M>>, Refusal>
    requires inside { card < length book.old.cards.now }
    requires unrefused { topmost (route_causes M.Measure.kind
        (sites_of catalogue.now) (length (labels_of workspace.old)) k ask (book_of book.old).width) ≡ None }
    ensures same { SameWorkspace workspace.old workspace.new }
    ensures labels { AllFree M.Measure.kind (labels_of workspace.new) }
    ensures answer { CardAnswer M.Measure.kind (network_of catalogue.now) k ask mark (book_of book.old) card result (book_of book.new) }
    ensures places { SamePlaces book.old book.new }
{
    let width = book.width();
    let start = book.row_start(card);
    let answer = find_in_row(catalogue, workspace, k, ask, book.rows, start, width)?;
    write_place(book.cards, card, Some(Card { ask, answer, mark }));
    Ok(answer)
}

// Finds the best route for what is asked, with k labels a site, and files it at an empty card place.
#[tactic(auto, using(crate::proofs::Endings::quotes))]
pub fn quote<M: Measure>(
    catalogue: &Catalogue<'_, M>,
    book: &mut QuoteBook<'_, M>,
    workspace: &mut Workspace<'_, M>,
    card: usize,
    ask: Ask<M::Limit>,
    k: usize,
) -> Result<Option<Route<M>>, Refusal>
    ensures outcome { Quoted M.Measure.kind (network_of catalogue.now)
        (book_of book.old) (labels_of workspace.old) card ask k result (book_of book.new) (labels_of workspace.new) }
    ensures places { SamePlaces book.old book.new }
    ensures same { SameWorkspace workspace.old workspace.new }
{
    check_sites(catalogue, &*book)?;
    check_quote(catalogue, &*book, workspace.room(), card, ask, k)?;
    answer_card(catalogue, book, workspace, card, ask, k, Mark::Standing)
}

// Finds the best route of a doubtful card anew; what a standing card has is answered as it is.
#[tactic(auto, using(crate::proofs::Endings::rechecks_end))]
pub fn recheck<M: Measure>(
    catalogue: &Catalogue<'_, M>,
    book: &mut QuoteBook<'_, M>,
    workspace: &mut Workspace<'_, M>,
    card: usize,
    k: usize,
) -> Result<Option<Route<M>>, Refusal>
    ensures outcome { Rechecked M.Measure.kind (network_of catalogue.now)
        (book_of book.old) (labels_of workspace.old) card k result (book_of book.new) (labels_of workspace.new) }
    ensures places { SamePlaces book.old book.new }
    ensures same { SameWorkspace workspace.old workspace.new }
{
    check_sites(catalogue, &*book)?;
    let Card { ask, answer, mark } = check_recheck(catalogue, &*book, workspace.room(), card, k)?;
    match mark {
        Mark::Standing => Ok(answer),
        Mark::Doubtful => answer_card(
            catalogue,
            book,
            workspace,
            card,
            ask,
            k,
            next_mark(mark, MarkEvent::Answered),
        ),
    }
}
