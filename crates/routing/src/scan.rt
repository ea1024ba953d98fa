//! What routing looks for among the labels of a site, and how it changes them.
ghost use Rattle.std.specs.Prelude.{◌≡◌, ◌<◌, map, position};
ghost use Rattle.std.specs.List.{list_any};
ghost use Rattle.labels.specs.Labels.{is_free, yields, cleared, freed, covers};

use labels::{Slot, State};
use measure::Measure;

// Whether one of these labels is held and dominates the value.
pub(crate) fn is_dominated<M: Measure>(slots: &[Slot<M>], value: M) -> bool
    ensures { result ≡ list_any (covers M.Measure.kind value) slots.now }
{
    slots.iter().any(|slot| slot.label.state != State::Free && slot.label.value.dominates(value))
}

// The first of these places that is free.
pub(crate) fn free_place<M: Measure>(slots: &[Slot<M>]) -> Option<usize>
    ensures { result ≡ position is_free slots.now }
{
    slots
        .iter()
        .position(|slot| slot.label.state == State::Free)
}

// Whether the label at this place is queued and the value dominates it.
fn yields<M: Measure>(slot: &Slot<M>, value: M) -> bool
    ensures { result ≡ yields M.Measure.kind value slot.now }
{
    slot.label.state == State::Queued && value.dominates(slot.label.value)
}

// Frees those of these labels that are queued and that the value dominates.
pub(crate) fn clear_dominated<M: Measure>(slots: &mut [Slot<M>], value: M)
    ensures { slots.new ≡ map (cleared M.Measure.kind value) slots.old }
{
    for slot in slots.iter_mut() {
        if yields(slot, value) {
            slot.label.state = State::Free;
        }
    }
}

// Frees every label.
pub(crate) fn free_all<M: Measure>(slots: &mut [Slot<M>])
    ensures { slots.new ≡ map freed slots.old }
{
    for slot in slots.iter_mut() {
        slot.label.state = State::Free;
    }
}
