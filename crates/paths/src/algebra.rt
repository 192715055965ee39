// What an algebra of paths offers, and the two that planning uses.
ghost use Rattle.std.specs.Prelude.{◌≡◌, ℕ};
ghost use Rattle.paths.specs.Algebra.{Ops, Laws};
ghost use Rattle.paths.specs.Models.{reach_ops, reach_laws, delay_ops, delay_laws};

use crate::delay::Delay;
use crate::reach::Reach;

/// Values of paths: no path and staying, the choice of one of two paths, and one path followed by another.
pub trait Algebra: Copy {
    ghost ops: { Ops Self };

    ghost laws: { Laws ops };

    /// The value where there is no path.
    fn none() -> Self
        ensures { result ≡ ops.none };

    /// The value of staying where one is.
    fn stay() -> Self
        ensures { result ≡ ops.stay };

    /// The value of a single edge with this delay.
    fn edge(delay: u32) -> Self
        ensures { result ≡ ops.edge delay };

    /// The better of two values.
    fn choose(self, other: Self) -> Self
        ensures { result ≡ ops.choose self other };

    /// The value of a path that is followed by another.
    fn follow(self, other: Self) -> Self
        ensures { result ≡ ops.follow self other };
}

/// Whether there is a path of delay-free edges.
impl Algebra for Reach {
    ghost ops = { reach_ops };

    ghost laws = { reach_laws };

    fn none() -> Reach {
        Reach { yes: false }
    }

    fn stay() -> Reach {
        Reach { yes: true }
    }

    fn edge(delay: u32) -> Reach {
        Reach { yes: delay == 0 }
    }

    fn choose(self, other: Reach) -> Reach {
        Reach {
            yes: self.yes | other.yes,
        }
    }

    fn follow(self, other: Reach) -> Reach {
        Reach {
            yes: self.yes & other.yes,
        }
    }
}

/// The least total delay over all paths.
impl Algebra for Delay {
    ghost ops = { delay_ops };

    ghost laws = { delay_laws };

    fn none() -> Delay {
        Delay { value: u32::MAX }
    }

    fn stay() -> Delay {
        Delay { value: 0 }
    }

    fn edge(delay: u32) -> Delay {
        Delay { value: delay }
    }

    fn choose(self, other: Delay) -> Delay {
        Delay {
            value: self.value.min(other.value),
        }
    }

    fn follow(self, other: Delay) -> Delay {
        Delay {
            value: self.value.saturating_add(other.value),
        }
    }
}
