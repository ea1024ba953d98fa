//! Exact routing: the walk of first rank between two sites within a limit, over anything that answers a catalogue's questions.
#![tactic(auto)]

ghost use Rattle.std.specs.Prelude.{◌≡◌, ◌*◌, ◌≤◌, length, Ok};
ghost use Rattle.labels.specs.Outgoing.{Listed};
ghost use Rattle.labels.specs.Tournament.{Unused};
ghost use Rattle.report.specs.Refusals.{topmost, unless, InOrder};
ghost use Rattle.labels.specs.Labels.{blank_slot, table, slot};
ghost use Rattle.routing.specs.Finds.{Admits};
ghost use Rattle.routing.specs.Lent.{labels_of, SameWorkspace};
ghost use Rattle.labels.specs.Workspaces.{ill_sized, AllFree};
ghost use Rattle.routing.specs.Searching.{ask_causes, route_causes, Answered, Searched};

use catalogue::{Ask, Links, Route};
use exploration::Exploration;
use labels::{Label, Slot, State};
use measure::{Measure, Ratio};
use outgoing::list_links;
use report::Refusal;
use tournament::Tournament;

mod exploration;
mod lent;
mod outgoing;
mod places;
mod scan;
mod tournament;

pub use lent::Workspace;

// A free place, to make a workspace of. No `Default`: the crate of labels has no code, and a value is empty by its kind.
pub fn free_slot<M: Measure>() -> Slot<M>
    ensures { result ≡ blank_slot M.Measure.kind }
{
    Slot {
        label: Label {
            state: State::Free,
            value: M::empty(),
            previous: 0,
            link: 0,
        },
        share: Ratio { top: 0, bottom: 1 },
        winner: 0,
        best: 0,
        used: 0,
        first: 0,
        next: 0,
    }
}

// Whether a workspace of so many labels is not k labels a site, or k is not from 1 to 64. A question, which each call asks among causes of
// its own.
pub fn is_ill_sized(sites: usize, room: usize, k: usize) -> bool
    ensures { result ≡ ill_sized sites room k }
{
    !(1..=64).contains(&k) || sites.checked_mul(k) != Some(room)
}

// Whether what is asked has both its ends among so many sites, and an admitted limit.
pub fn check_ask<M: Measure>(sites: usize, ask: Ask<M::Limit>) -> Result<(), Refusal>
    ensures { result ≡ unless (topmost (ask_causes M.Measure.kind sites ask)) (Ok tt) }
{
    if ask.source as usize >= sites || ask.destination as usize >= sites {
        return Err(Refusal::NoSuchSite);
    }
    if !M::limit_admitted(ask.limit) {
        return Err(Refusal::LimitNotAdmitted);
    }
    Ok(())
}

// Why the call is refused before it begins, or that it is not.
fn check<M: Measure>(
    sites: usize,
    room: usize,
    k: usize,
    ask: Ask<M::Limit>,
    row: usize,
) -> Result<(), Refusal>
    ensures { result ≡ unless (topmost (route_causes M.Measure.kind sites room k ask row)) (Ok tt) }
{
    check_ask::<M>(sites, ask)?;
    if is_ill_sized(sites, room, k) {
        return Err(Refusal::WorkspaceSize);
    }
    if row < sites {
        return Err(Refusal::ReplyTooShort);
    }
    Ok(())
}

// Explores the network from free places on, and writes the legs of the route that it finds.
fn first_route<M: Measure, N: Links<M>>(
    exploration: &Exploration<'_, M, N>,
    slots: &mut [Slot<M>],
    row: &mut [u16],
) -> Result<Option<Route<M>>, Refusal>
    requires size { length slots.old ≡ exploration.now.tournament.sites * exploration.now.tournament.k }
    requires free { AllFree M.Measure.kind slots.old }
    requires listed { length (N.Links.links exploration.now.network.now) ≤ length slots.old → Listed (N.Links.links exploration.now.network.now) (slot M.Measure.kind slots.old) exploration.now.tournament.sites 0 }
    requires fits { exploration.now.tournament.sites ≤ length row.old }
    ensures unused { Unused (table M.Measure.kind slots.new) (slot M.Measure.kind slots.new) exploration.now.tournament.k exploration.now.tournament.sites }
    ensures answered { Answered M.Measure.kind (N.Links.links exploration.now.network.now) exploration.now.tournament.k (record { source = exploration.now.source; destination = exploration.now.destination; limit = exploration.now.tournament.limit }) row.old row.new result }
{
    let Some(p) = exploration.explore(slots)? else {
        row.fill(0);
        return Ok(None);
    };
    let legs = exploration.write_legs(slots, p, row);
    let value = slots[p].label.value;
    let ratio = value.ratio(exploration.tournament.limit);
    Ok(Some(Route { legs, value, ratio }))
}

// Routes through the network, and leaves every place free.
fn find<M: Measure, N: Links<M>>(
    network: &N,
    slots: &mut [Slot<M>],
    k: usize,
    ask: Ask<M::Limit>,
    row: &mut [u16],
) -> Result<Option<Route<M>>, Refusal>
    requires admits { Admits M.Measure.kind (N.Links.span network.now) (length slots.old) k ask (length row.old) }
    requires free { AllFree M.Measure.kind slots.old }
    ensures free { AllFree M.Measure.kind slots.new }
    ensures answered { Answered M.Measure.kind (N.Links.links network.now) k ask row.old row.new result }
{
    list_links(network, slots);
    let exploration = Exploration {
        network,
        tournament: Tournament {
            sites: network.sites(),
            k,
            limit: ask.limit,
        },
        source: ask.source as usize,
        destination: ask.destination as usize,
    };
    let answer = first_route(&exploration, slots, row);
    exploration.tournament.free_used(slots);
    answer
}

// Finds the walk of first rank from the source to the destination within the limit, with k labels a site, and writes its legs
// to the row. The workspace is lent for this call alone.
#[tactic(auto, using(crate::proofs::Refusing::ends))]
pub fn find_route<M: Measure, N: Links<M>>(
    network: &N,
    workspace: &mut Workspace<'_, M>,
    k: usize,
    ask: Ask<M::Limit>,
    row: &mut [u16],
) -> Result<Option<Route<M>>, Refusal>
    ensures searched { Searched M.Measure.kind (N.Links.span network.now) (N.Links.links network.now) k ask
        (labels_of workspace.old) (labels_of workspace.new) row.old row.new result }
    ensures causes_in_order { InOrder (route_causes M.Measure.kind
        (N.Links.span network.now) (length (labels_of workspace.old)) k ask (length row.old)) }
    ensures same { SameWorkspace workspace.old workspace.new }
{
    check::<M>(network.sites(), workspace.room(), k, ask, row.len())?;
    find(network, workspace.slots, k, ask, row)
}
