//! Where the library and the model disagree.
use crate::calls::PlainReply;
use crate::request::Request;

#[derive(Clone, Copy, Debug, Drop)]
pub enum Difference {
    // A size was refused that should not be, or the other way round.
    Size,
    // A request was carried out otherwise than it should be.
    Call { request: Request, wrong: Wrong },
    // After all calls on a catalogue a label is not as it was marked, which no workspace held that was lent.
    Labels,
    // A feed's bytes read, or a record was written, otherwise than foreseen.
    Reading,
    Writing,
}

// What is wrong with a call.
#[derive(Clone, Copy, Debug, Drop)]
pub enum Wrong {
    // It was answered otherwise than foreseen.
    Answer(PlainReply),
    // A site was said to be full that has no more walks than labels.
    NotFull(PlainReply),
    // What was found is not the best, or there is something better than none.
    NotBest(PlainReply),
    // The workspace, or the numbers of the reply, are not as they should be.
    Workspace,
    Numbers,
    // Afterwards another link stands at the place.
    Link(usize),
    // Afterwards a reading of the card shows something else.
    Card(usize),
    // Afterwards the standing card is wrong.
    Standing(usize),
}

// Nothing, if what should hold does, and the error if not.
pub(crate) fn ensure<E: Drop>(holds: bool, error: E) -> Result<(), E> {
    if holds { Ok(()) } else { Err(error) }
}
