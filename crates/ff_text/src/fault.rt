// Why an input is refused.
ghost use Rattle.std.specs.Prelude.{◌≡◌};

use ff_alg::NoMemory;
use std::alloc::{AllocError, AllocFailed};

/// Why an input is refused: the first cause in the order of the variants, and of one variant the
/// one with the least `which`.
///
/// In `which`, 1 and 2 are the equations, and 3 to 6 are X, Y, U and V.
#[derive(Clone, Copy, PartialEq, Eq, Debug)]
pub enum TextFault {
    /// The bytes are no text of the mode; `at` is the length of their longest prefix with which
    /// some text begins.
    Syntax { at: usize },
    /// The number after `p` is not in the table of primes.
    NotPrime,
    /// An equation has no nonzero term with y.
    NoY { which: u8 },
    /// A denominator is 0.
    ZeroDenominator { which: u8 },
    /// A degree is above its limit.
    Degree { which: u8 },
    /// Out of memory.
    NoMemory,
}

impl From<AllocError> for TextFault {
    ghost use Rattle.ff_text.specs.declared.fault.TextFault.TheVariants.{NoMemory};

    ghost from_gives = { λ _ e. e ≡ NoMemory };

    fn from(_fault: AllocError) -> TextFault {
        TextFault::NoMemory
    }
}

impl<T: Drop> From<AllocFailed<T>> for TextFault {
    ghost use Rattle.ff_text.specs.declared.fault.TextFault.TheVariants.{NoMemory};

    ghost from_gives = { λ _ e. e ≡ NoMemory };

    fn from(_fault: AllocFailed<T>) -> TextFault {
        TextFault::NoMemory
    }
}

impl From<NoMemory> for TextFault {
    ghost use Rattle.ff_text.specs.declared.fault.TextFault.TheVariants as fault;

    ghost from_gives = { λ _ e. e ≡ fault.NoMemory };

    fn from(_fault: NoMemory) -> TextFault {
        TextFault::NoMemory
    }
}
