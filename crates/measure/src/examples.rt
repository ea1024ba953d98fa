//! Worked examples of the kinds, proved of the definitions and of the calls alike.
ghost use Rattle.std.specs.Prelude.{◌≡◌, true};
ghost use Rattle.measure.specs.Examples.{WorkedExamples, sums as sums_of, tens as tens_of};

use crate::pair::Pair;
use crate::scalar::{Sum, Worst};
use crate::{Measure, Ratio, ranks_before};

fn sums(a: u32, b: u32) -> Pair<Sum, Sum>
    ensures { result ≡ sums_of a b }
{
    Pair::new(Sum::new(a), Sum::new(b))
}

fn tens() -> Pair<u32, u32>
    ensures { result ≡ tens_of }
{
    Pair::new(10, 10)
}

// What the calls answer on the examples of ratios, limits and rank.
fn ratios_agree() -> bool
    ensures { result ≡ true }
{
    sums(7, 4).ratio(tens()) == Ratio { top: 7, bottom: 10 }
        && sums(5, 6).ratio(tens()) == Ratio { top: 6, bottom: 10 }
        && sums(4, 2).ratio(Pair::new(8, 4)) == Ratio { top: 4, bottom: 8 }
}

// What the calls answer on the examples of limits, dominance and rank.
fn orders_agree() -> bool
    ensures { result ≡ true }
{
    sums(10, 10).within(tens())
        && !sums(11, 0).within(tens())
        && !sums(2, 6).dominates(sums(5, 1))
        && !sums(5, 1).dominates(sums(2, 6))
        && sums(3, 3).dominates(sums(3, 3))
        && sums(3, 3).dominates(sums(3, 4))
        && ranks_before(sums(4, 7), sums(5, 7), tens())
}

// What the calls answer on the examples of joining.
fn joins_agree() -> bool
    ensures { result ≡ true }
{
    let last = Sum::new(2147483646).join(Sum::new(1));
    let over = Sum::new(2147483647).join(Sum::new(1));
    let worst = Worst::new(2).join(Worst::new(5));
    last.number() == 2147483647
        && last.admitted()
        && over.number() == 2147483648
        && !over.admitted()
        && worst.number() == 5
}

// Eight worked examples on sums, the worst of several, pairs, ratios and ranks hold of the definitions, and the calls answer so.
pub fn worked_examples_hold() -> bool
    ensures statement { WorkedExamples }
    ensures calls { result ≡ true }
{
    ratios_agree() && orders_agree() && joins_agree()
}
