//! What was tried and compared, in numbers.
ghost use Rattle.std.specs.Prelude.{◌≡◌, ◌+◌, ◌<◌, ◌^◌};

use crate::calls::{PlainAnswer, PlainReply};
use std::fmt;

// One more than the greatest number of a refusal.
const REFUSALS: usize = 20;

#[derive(Clone, Copy, Default)]
pub struct Tally {
    pub catalogues: u64,
    pub calls: u64,
    // Standing cards that were compared, each after each call.
    pub standing: u64,
    // Routes and nones that were found, and sites whose labels were full.
    pub routes: u64,
    pub nones: u64,
    pub full: u64,
    // Cards that fell into doubt.
    pub doubted: u64,
    pub records: u64,
    // How often each refusal came, by its number in print: an array, as large as there are numbers.
    refusals: [u64; REFUSALS],
}

// Counts one more, as long as there is room.
pub(crate) fn count(counter: &mut u64)
    ensures { counter.old + 1 < 2 ^ 64 → counter.new ≡ counter.old + 1 }
{
    *counter = counter.saturating_add(1);
}

impl Tally {
    pub(crate) fn note_refusal(&mut self, number: u8) {
        if let Some(counter) = self.refusals.get_mut(number as usize) {
            count(counter);
        }
    }

    pub(crate) fn note_reply(&mut self, reply: PlainReply) {
        count(&mut self.calls);
        match reply {
            Ok(PlainAnswer::Counted(cards)) => {
                self.doubted = self.doubted.saturating_add(cards as u64);
            }
            Ok(PlainAnswer::Held { .. }) => {}
            Err(refusal) => self.note_refusal(refusal.number),
        }
    }

    // The first number of a refusal that never came.
    pub(crate) fn unreached(&self) -> Option<usize> {
        let mut counters = self.refusals.iter().enumerate().skip(1);
        let (number, _) = counters.find(|(_, counter)| **counter == 0)?;
        Some(number)
    }
}

impl fmt::Display for Tally {
    fn fmt<W: fmt::Write>(&self, f: &mut fmt::Formatter<W>) -> fmt::Result {
        write!(
            f,
            "catalogues {}, calls {}, standing cards compared {}, routes {}, none {}, full {}, doubted {}, records {}",
            self.catalogues,
            self.calls,
            self.standing,
            self.routes,
            self.nones,
            self.full,
            self.doubted,
            self.records
        )
    }
}
