//! Measure kinds: what links and walks are weighed by, how two values are joined and compared, and how much of a limit one uses up.
#![tactic(auto)]

ghost use Rattle.std.specs.Prelude.{◌≡◌};
ghost use Rattle.measure.specs.Kind.{Kind};
ghost use Rattle.measure.specs.Laws.{Laws};
ghost use Rattle.measure.specs.Ranks.{ranks};

pub mod examples;
pub mod pair;
pub mod ratio;
pub mod scalar;

pub use ratio::Ratio;

// A measure kind. Its meaning is the eight functions of `kind`, and each call answers what they give;
// `lawful` is owed by every kind, for the admitted values, the empty one and all that are joined from these.
pub trait Measure: Copy {
    type Limit: Copy;

    ghost kind: { Kind Self Self.Limit };

    // Whether a link may have this value.
    fn admitted(self) -> bool
        ensures { result ≡ kind.admitted self };

    // Whether a route may be asked for under this limit.
    fn limit_admitted(limit: Self::Limit) -> bool
        ensures { result ≡ kind.limit_admitted limit };

    // The value of a walk with no links.
    fn empty() -> Self
        ensures { result ≡ kind.empty };

    // The value of one after the other.
    fn join(self, next: Self) -> Self
        ensures { result ≡ kind.join self next };

    // Whether this value is at least as good as the other in every respect.
    fn dominates(self, other: Self) -> bool
        ensures { result ≡ kind.dominates self other };

    // Whether this value comes before the other in the value order.
    // A call of the kind and no bound `Ord`, whose laws would be owed of every value, also of those that cannot come about.
    fn before(self, other: Self) -> bool
        ensures { result ≡ kind.before self other };

    fn within(self, limit: Self::Limit) -> bool
        ensures { result ≡ kind.within self limit };

    // The largest share of the limit that this value uses up.
    fn ratio(self, limit: Self::Limit) -> Ratio
        ensures { result ≡ kind.ratio self limit };

    ghost lawful: { Laws kind };
}

// Whether `a` ranks before `b` under the limit: by the smaller ratio, and at equal ratios by the value order.
pub fn ranks_before<M: Measure>(a: M, b: M, limit: M::Limit) -> bool
    ensures { result ≡ ranks M.Measure.kind limit a b }
{
    let x = a.ratio(limit);
    let y = b.ratio(limit);
    x.is_less(y) || (x.equals(y) && a.before(b))
}
