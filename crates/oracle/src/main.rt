//! Answers by plain enumeration of walks what the library should answer, and compares, over long runs of all seven calls on small
//! catalogues that are drawn at random, the same in every run.
//!
//! It shares no arithmetic and no rule with the library, on purpose: numbers, shares, news, refusals and cards are written anew here.
#![tactic(auto)]

mod audit;
mod calls;
mod cause;
mod crowd;
mod difference;
mod doubts;
mod feeds;
mod figures;
mod kind;
mod lent;
mod model;
mod random;
mod request;
mod run;
mod sizes;
mod tally;
mod turn;
mod walks;

use anyhow::bail;
use difference::Difference;
use lent::marked_slot;
use measure::pair::Trunk;
use measure::scalar::Sum;
use model::{CARDS, PLACES};
use random::Random;
use run::{Memory, OTHER_CARDS, try_kind};
use tally::Tally;

// Labels for the most sites that are tried and for more walks at each than is allowed.
const WORKSPACE: usize = 325;

// Tries catalogues that are weighed by delay alone. The arrays that are lent stand here and below, once for each kind: in a function for any
// kind, by themselves or in a struct, they did not prove.
fn try_sums(random: &mut Random, tally: &mut Tally) -> Result<(), Difference> {
    let mut memory = Memory {
        links: &mut [None; PLACES],
        cards: &mut [None; CARDS],
        other_cards: &mut [None; OTHER_CARDS],
        labels: &mut [marked_slot::<Sum>(); WORKSPACE],
    };
    try_kind(&mut memory, random, tally)
}

// Tries catalogues of the trunk kind.
fn try_trunk(random: &mut Random, tally: &mut Tally) -> Result<(), Difference> {
    let mut memory = Memory {
        links: &mut [None; PLACES],
        cards: &mut [None; CARDS],
        other_cards: &mut [None; OTHER_CARDS],
        labels: &mut [marked_slot::<Trunk>(); WORKSPACE],
    };
    try_kind(&mut memory, random, tally)
}

fn try_all(random: &mut Random, tally: &mut Tally) -> Result<(), Difference> {
    try_sums(random, tally)?;
    try_trunk(random, tally)
}

fn main(rt: HostRuntime) -> anyhow::Result<()> {
    let mut random = Random::from_seed(20260101);
    let mut tally = Tally::default();
    if let Err(difference) = try_all(&mut random, &mut tally) {
        eprintln!(rt; "{tally}: {difference:?}")?;
        bail!("the library and the model disagree");
    }
    if let Some(number) = tally.unreached() {
        bail!("no call was refused with {number}");
    }
    println!(rt; "{tally}, refusals 1-19 all reached")?;
    Ok(())
}
