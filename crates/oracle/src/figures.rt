//! Values, limits and ratios as plain numbers, with an arithmetic of their own: nothing of the library's is used here.
ghost use Rattle.std.specs.Prelude.{◌≡◌, ◌+◌, ◌<◌, ◌≤◌, ◌↔◌, IsTrue};

// The number that stands for every number from it on; no link may have it, and no limit allows it.
pub const OVER: u64 = 2147483648;

// The numbers of a value or a limit. A kind that is weighed by delay alone has zeros beside it in its values, and ones in its limits.
// Values come in the order of their delays, then of their prices, then of their classes.
#[derive(Clone, Copy, PartialEq, Eq, PartialOrd, Ord, Debug, Default)]
pub struct Figures {
    pub delay: u64,
    pub price: u64,
    pub class: u64,
}

// The share `top / bottom` of a limit.
#[derive(Clone, Copy, PartialEq, Eq, Debug)]
pub struct Share {
    pub top: u64,
    pub bottom: u64,
}

// What a walk with no legs is worth.
pub const NO_LEGS: Figures = Figures {
    delay: 0,
    price: 0,
    class: 0,
};

// The sum of two numbers, or over.
fn summed(a: u64, b: u64) -> u64
    ensures sum { a + b ≤ OVER → result ≡ a + b }
    ensures over { OVER ≤ a + b → result ≡ OVER }
{
    a.saturating_add(b).min(OVER)
}

// What a walk is worth with a link of the second value more: delays and prices add up, and the worse class counts.
pub(crate) fn joined(walk: Figures, link: Figures) -> Figures {
    Figures {
        delay: summed(walk.delay, link.delay),
        price: summed(walk.price, link.price),
        class: walk.class.max(link.class),
    }
}

// Whether a link may have the value.
pub(crate) fn is_admitted(value: Figures) -> bool
    ensures { IsTrue result ↔ ((value.delay < OVER) × (value.price < OVER) × (value.class < OVER)) }
{
    value.delay < OVER && value.price < OVER && value.class < OVER
}

fn is_limit_number(number: u64) -> bool
    ensures { IsTrue result ↔ ((1 ≤ number) × (number < OVER)) }
{
    1 <= number && number < OVER
}

// Whether a route may be asked for under the limit.
pub(crate) fn is_limit(limit: Figures) -> bool {
    is_limit_number(limit.delay) && is_limit_number(limit.price) && is_limit_number(limit.class)
}

// Whether none of the first numbers is greater than the second ones.
pub(crate) fn is_no_worse(first: Figures, second: Figures) -> bool
    ensures { IsTrue result ↔ ((first.delay ≤ second.delay) × (first.price ≤ second.price) × (first.class ≤ second.class)) }
{
    first.delay <= second.delay && first.price <= second.price && first.class <= second.class
}

// Whether the first share is smaller: products of numbers of 32 bits fit. By hand, as a derived order would call 8/10 and 4/5 different.
fn is_smaller(first: Share, second: Share) -> bool {
    first.top.saturating_mul(second.bottom) < second.top.saturating_mul(first.bottom)
}

// The greater share: the first of two equal ones.
fn greater(first: Share, second: Share) -> Share {
    if is_smaller(first, second) {
        second
    } else {
        first
    }
}

// The largest share of the limit that the value uses up.
pub(crate) fn share_of(value: Figures, limit: Figures) -> Share {
    let delay = Share {
        top: value.delay,
        bottom: limit.delay,
    };
    let price = Share {
        top: value.price,
        bottom: limit.price,
    };
    let class = Share {
        top: value.class,
        bottom: limit.class,
    };
    greater(greater(delay, price), class)
}

// Whether the first value ranks before the second under the limit.
pub(crate) fn ranks_before(first: Figures, second: Figures, limit: Figures) -> bool {
    let one = share_of(first, limit);
    let two = share_of(second, limit);
    is_smaller(one, two) || (!is_smaller(two, one) && first < second)
}
