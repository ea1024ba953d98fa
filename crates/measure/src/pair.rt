//! Two kinds side by side, and the products' kinds.
ghost use Rattle.std.specs.Prelude.{◌≡◌};
ghost use Rattle.measure.specs.Pairs.{pair, pair_kind};
ghost use Rattle.measure.specs.Products.{trunk, trunk_limit};
ghost use Rattle.measure.specs.Paired.{pair_laws};

use crate::scalar::{Sum, Worst};
use crate::{Measure, Ratio};

// Two values side by side, or two limits.
#[derive(Clone, Copy, PartialEq, Eq, Debug)]
pub struct Pair<A, B> {
    pub first: A,
    pub second: B,
}

impl<A, B> Pair<A, B> {
    pub(crate) fn new(first: A, second: B) -> Self
        ensures { result ≡ pair first second }
    {
        Pair { first, second }
    }
}

impl<A: Measure, B: Measure> Measure for Pair<A, B> {
    type Limit = Pair<A::Limit, B::Limit>;

    ghost kind = { pair_kind A.Measure.kind B.Measure.kind };

    ghost lawful = { pair_laws A.Measure.lawful B.Measure.lawful };

    fn admitted(self) -> bool {
        self.first.admitted() && self.second.admitted()
    }

    fn limit_admitted(limit: Pair<A::Limit, B::Limit>) -> bool {
        A::limit_admitted(limit.first) && B::limit_admitted(limit.second)
    }

    fn empty() -> Self {
        Pair::new(A::empty(), B::empty())
    }

    fn join(self, next: Self) -> Self {
        Pair::new(self.first.join(next.first), self.second.join(next.second))
    }

    fn dominates(self, other: Self) -> bool {
        self.first.dominates(other.first) && self.second.dominates(other.second)
    }

    fn before(self, other: Self) -> bool {
        self.first.before(other.first)
            || (!other.first.before(self.first) && self.second.before(other.second))
    }

    fn within(self, limit: Pair<A::Limit, B::Limit>) -> bool {
        self.first.within(limit.first) && self.second.within(limit.second)
    }

    fn ratio(self, limit: Pair<A::Limit, B::Limit>) -> Ratio {
        let first = self.first.ratio(limit.first);
        let second = self.second.ratio(limit.second);
        if first.is_less(second) { second } else { first }
    }
}

// The trunk catalogue's kind: delay in microseconds, price in cents a month, protection class.
pub type Trunk = Pair<Pair<Sum, Sum>, Worst>;

pub type TrunkLimit = Pair<Pair<u32, u32>, u32>;

// The loop catalogue's kind: delay alone.
pub type Loop = Sum;

// A function, as `trunk_limits` is: a `From` would need a type that names the three numbers, and the one of a record is of a crate above.
pub fn trunk_value(delay: u32, price: u32, class: u32) -> Trunk
    ensures { result ≡ trunk delay price class }
{
    Pair::new(
        Pair::new(Sum::new(delay), Sum::new(price)),
        Worst::new(class),
    )
}

pub fn trunk_limits(delay: u32, price: u32, class: u32) -> TrunkLimit
    ensures { result ≡ trunk_limit delay price class }
{
    Pair::new(Pair::new(delay, price), class)
}
