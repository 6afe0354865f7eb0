ghost use Rattle.std.specs.Prelude.{◌≡◌, ◌<◌, ◌≤◌, ◌&&◌, false, true};

use std::marker::Model;

/// How many workers a call has, 1 to 32: an exact number, or a maximum; with a maximum, the caller's thread does small work alone.
#[derive(Clone, Copy, Debug)]
pub struct Workers {
    count: usize,
    is_maximum: bool,
}

impl Model for Workers {
    ghost use Rattle.std.specs.Prelude.{ℕ, Bool, ◌≤◌};
    ghost use Rattle.std.specs.Coded.{coded×, coded_ℕ, coded_bool};

    // the number, and whether it is only a maximum
    ghost Value = { ℕ × Bool };

    ghost coded = { coded× coded_ℕ coded_bool };

    ghost view = { λ w. (w.count, w.is_maximum) };

    ghost invariant = { λ w. (1 ≤ w.count) × (w.count ≤ 32) };

    ghost inverse = { λ n. record { count = n.0; is_maximum = n.1 } };
}

impl Workers {
    /// Allows at most `count` workers, 1 to 32: the caller's thread does small work alone.
    pub fn most(count: usize) -> Self
        requires { (0 < count) × (count ≤ 32) }
        ensures { result ≡ (count, true) }
    {
        Workers {
            count,
            is_maximum: true,
        }
    }

    /// Asks for exactly `count` workers, 1 to 32.
    pub fn exactly(count: usize) -> Self
        requires { (0 < count) × (count ≤ 32) }
        ensures { result ≡ (count, false) }
    {
        Workers {
            count,
            is_maximum: false,
        }
    }

    /// Returns the number of workers, exact or a maximum.
    pub fn count(self) -> usize
        ensures count { result ≡ self.0 }
        ensures range { (0 < result) × (result ≤ 32) }
    {
        self.count
    }

    /// Whether the caller's thread does the work alone, given whether the work is small.
    pub fn is_alone(self, is_small: bool) -> bool
        ensures { result ≡ (self.1 && is_small) }
    {
        self.is_maximum && is_small
    }
}
