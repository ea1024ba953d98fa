//! The two kinds whose values are single numbers: sums, and the worst of several.
ghost use Rattle.std.specs.Prelude.{◌≡◌, ℕ, ◌+◌, min, max};
ghost use Rattle.measure.specs.Scalars.{Joins, scalar, number_of, scalar_kind};
ghost use Rattle.measure.specs.Numbers.{adding_joins, greater_joins, scalar_laws};

use crate::{Measure, Ratio};
use std::marker::PhantomData;

// The number of the value named over, which stands for every number from it on and which no limit allows.
const OVER: u32 = 2147483648;

// A composition rule: how the numbers of two stretches of a walk become the number of both. `lawful` is owed by every rule.
pub trait Composition: Copy {
    ghost joined: { ℕ → ℕ → ℕ };

    // The two numbers joined, or the greatest u32 where they give more.
    fn join(a: u32, b: u32) -> u32
        ensures { result ≡ min (joined a b) u32.MAX };

    ghost lawful: { Joins joined };
}

// The numbers add up, as delay and price do.
#[derive(Clone, Copy, PartialEq, Eq, Debug)]
pub struct Additive;

impl Composition for Additive {
    ghost joined = { ◌+◌ };

    ghost lawful = { adding_joins };

    fn join(a: u32, b: u32) -> u32 {
        a.saturating_add(b)
    }
}

// The greater number is that of both, as with protection classes.
#[derive(Clone, Copy, PartialEq, Eq, Debug)]
pub struct Bottleneck;

impl Composition for Bottleneck {
    ghost joined = { max };

    ghost lawful = { greater_joins };

    fn join(a: u32, b: u32) -> u32 {
        a.max(b)
    }
}

// A number, joined by the rule `C`.
#[derive(Clone, Copy, PartialEq, Eq, Debug)]
pub struct Scalar<C> {
    number: u32,
    joined_by: PhantomData<C>,
}

// A number that adds up along a walk.
pub type Sum = Scalar<Additive>;

// A number of which a walk has its worst link's.
pub type Worst = Scalar<Bottleneck>;

impl<C> Scalar<C> {
    // From 2,147,483,648 on, the value over.
    pub fn new(number: u32) -> Self
        ensures { result ≡ scalar number }
    {
        Scalar {
            number: number.min(OVER),
            joined_by: PhantomData,
        }
    }

    // 2,147,483,648 for over.
    pub fn number(self) -> u32
        ensures { result ≡ number_of self }
    {
        let Scalar { number, .. } = self;
        number
    }
}

impl<C: Composition> Measure for Scalar<C> {
    type Limit = u32;

    ghost kind = { scalar_kind C.joined };

    ghost lawful = { scalar_laws C.lawful };

    fn admitted(self) -> bool {
        self.number < OVER
    }

    fn limit_admitted(limit: u32) -> bool {
        (1..OVER).contains(&limit)
    }

    fn empty() -> Self {
        Scalar::new(0)
    }

    fn join(self, next: Self) -> Self {
        Scalar::new(C::join(self.number, next.number))
    }

    fn dominates(self, other: Self) -> bool {
        self.number <= other.number
    }

    fn before(self, other: Self) -> bool {
        self.number < other.number
    }

    fn within(self, limit: u32) -> bool {
        self.admitted() && self.number <= limit
    }

    fn ratio(self, limit: u32) -> Ratio {
        Ratio {
            top: self.number,
            bottom: limit,
        }
    }
}
