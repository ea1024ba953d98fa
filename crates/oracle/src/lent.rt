//! What is lent for a call, the workspace and the reply, and how it should come back.
use crate::kind::Kind;
use crate::model::{Forecast, Foreseen, LEGS};
use crate::request::Request;
use labels::{Label, Slot, State};
use measure::Ratio;

// What stands in a reply before it is lent: no link's place.
pub const BLANK: u16 = 9999;

// What a label's numbers are before it is lent.
const MARKED: u16 = 77;

// How many labels, and how many numbers of the reply, are lent for the request.
pub(crate) fn room_for(request: Request) -> (usize, usize) {
    match request {
        Request::Quote { room, .. } | Request::Recheck { room, .. } => (room, LEGS),
        Request::Read { room, .. } => (0, room),
        _ => (0, LEGS),
    }
}

// A label as nothing leaves it, so that any use is seen.
pub(crate) fn marked_slot<M: Kind>() -> Slot<M> {
    Slot {
        label: Label {
            state: State::Settled,
            value: M::empty(),
            previous: MARKED,
            link: MARKED,
        },
        share: Ratio { top: 77, bottom: 0 },
        winner: MARKED,
        best: MARKED,
        used: MARKED,
        first: MARKED,
        next: MARKED,
    }
}

// Marks the labels that were lent to a call, for the next one.
pub(crate) fn mark_labels<M: Kind>(labels: &mut [Slot<M>]) {
    // By `fill` it did not prove: that a value of any kind can always be cloned stays open.
    for slot in labels.iter_mut() {
        *slot = marked_slot();
    }
}

// Whether the label has the numbers that it was marked with.
fn has_marks<M: Kind>(slot: &Slot<M>) -> bool {
    slot.label.previous == MARKED && slot.label.link == MARKED
}

// Whether each label is as it was marked.
pub(crate) fn are_marked<M: Kind>(labels: &[Slot<M>]) -> bool {
    labels.iter().all(|slot| slot.label.state == State::Settled && has_marks(slot))
}

// Whether each label of a workspace is free, and, where nothing was to be looked for, otherwise as it was lent.
pub(crate) fn are_as_left<M: Kind>(labels: &[Slot<M>], forecast: Forecast) -> bool {
    let is_used = matches!(forecast, Ok(Foreseen::Sought(_)));
    labels.iter().all(|slot| slot.label.state == State::Free && (is_used || has_marks(slot)))
}

// Whether these stand from the start place on, and blanks everywhere else.
pub(crate) fn has_only<T: Copy + PartialEq>(
    places: &[T],
    start: usize,
    these: &[T],
    blank: T,
) -> bool {
    places.iter().enumerate().all(|(i, held)| {
        let wanted = i.checked_sub(start).and_then(|i| these.get(i));
        *held == wanted.copied().unwrap_or(blank)
    })
}
