//! The two measure kinds that are tried, and their values and limits as plain numbers.
ghost use Rattle.std.specs.Prelude.{◌≡◌, ◌<◌, ◌^◌};

use crate::figures::Figures;
use measure::Measure;
use measure::pair::{Trunk, trunk_limits, trunk_value};
use measure::scalar::Sum;

// A measure kind whose values and limits are made of plain numbers.
pub trait Kind: Measure {
    // Whether price and class count too, beside the delay. A constant is enough: the two kinds differ in nothing else that is drawn.
    const HAS_ALL: bool;

    fn value_of(figures: Figures) -> Self;

    fn limit_of(figures: Figures) -> Self::Limit;

    fn figures(self) -> Figures;
}

// The number in 32 bits: those that are tried fit.
fn short(number: u64) -> u32
    ensures { number < 2 ^ 32 → result ≡ number }
{
    u32::try_from(number).unwrap_or(u32::MAX)
}

impl Kind for Trunk {
    const HAS_ALL: bool = true;

    fn value_of(figures: Figures) -> Trunk {
        trunk_value(
            short(figures.delay),
            short(figures.price),
            short(figures.class),
        )
    }

    fn limit_of(figures: Figures) -> <Trunk as Measure>::Limit {
        trunk_limits(
            short(figures.delay),
            short(figures.price),
            short(figures.class),
        )
    }

    fn figures(self) -> Figures {
        Figures {
            delay: self.first.first.number() as u64,
            price: self.first.second.number() as u64,
            class: self.second.number() as u64,
        }
    }
}

impl Kind for Sum {
    const HAS_ALL: bool = false;

    fn value_of(figures: Figures) -> Sum {
        Sum::new(short(figures.delay))
    }

    fn limit_of(figures: Figures) -> u32 {
        short(figures.delay)
    }

    fn figures(self) -> Figures {
        Figures {
            delay: self.number() as u64,
            price: 0,
            class: 0,
        }
    }
}
