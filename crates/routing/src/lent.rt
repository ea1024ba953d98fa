//! The memory that is lent to routing.
ghost use Rattle.std.specs.Prelude.{◌≡◌, length, map};
ghost use Rattle.std.proofs.Props.{props};
ghost use Rattle.labels.specs.Labels.{freed};
ghost use Rattle.labels.specs.Workspaces.{AllFree};

use crate::scan::free_all;
use labels::Slot;
use measure::Measure;

// Places for labels that the caller lends: between two calls every one is free.
#[derive(Drop)]
pub struct Workspace<'a, M: Measure> {
    pub(crate) slots: &'a mut [Slot<M>],
    ghost free: { AllFree M.Measure.kind slots.now } by { Prim.hlevel props },
}

impl<'a, M: Measure> Workspace<'a, M> {
    ghost use Rattle.routing.specs.Lent.{labels_of, labels_lent};

    // Frees every place.
    pub fn new(slots: &'a mut [Slot<M>]) -> Workspace<'a, M>
        ensures labels { labels_of result ≡ map freed slots.old }
        ensures same { labels_lent result ≡ slots.entry.ghost_name }
    {
        free_all(slots);
        Workspace { slots }
    }
}

impl<M: Measure> Workspace<'_, M> {
    ghost use Rattle.routing.specs.Lent.{labels_of};

    // How many places there are.
    pub fn room(&self) -> usize
        ensures { result ≡ length (labels_of self.now) }
    {
        self.slots.len()
    }
}
