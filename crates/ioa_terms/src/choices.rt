//! Where an effect takes the values that it chooses, and why an effect is not performed.

ghost use Rattle.std.specs.Prelude.{◌≡◌};
ghost use Rattle.ioa_terms.specs.Choices.{is_used_up, made_values, source_of};

use ioa_operators::TermFault;
use ioa_values::Value;
use std::alloc::{AllocError, AllocFailed, Global};

/// Where an effect takes the values that it chooses.
pub enum Choices<'a> {
    /// They are given, one after another: those that are left.
    Given(&'a [Value]),
    /// Each is what its own term yields: those that were yielded so far.
    Yielded(Vec<Value>),
}

/// By hand, so that crates above do not prove again how the parts are let go (DECISIONS).
impl<'a> Drop for Choices<'a> {
    fn drop(self) {
        match self {
            Choices::Given(_) | Choices::Yielded(_) => {}
        }
    }
}

impl<'a> Choices<'a> {
    /// The values that were yielded; none if values are given.
    pub fn into_made(self, alloc: Global) -> Vec<Value>
        ensures { result.items ≡ made_values (source_of self.entry) }
    {
        match self {
            Choices::Given(_) => Vec::new(alloc),
            Choices::Yielded(made) => made,
        }
    }

    /// Whether all values that were given were taken.
    pub fn is_used_up(&self) -> bool
        ensures { result ≡ is_used_up (source_of self.now) }
    {
        match self {
            Choices::Given(left) => left.is_empty(),
            Choices::Yielded(_) => false,
        }
    }
}

/// Why an effect is not performed.
#[derive(Clone, Copy, Debug, PartialEq, Eq)]
pub enum EffectFault {
    /// `Undefined` (1): a part has no value.
    Undefined,
    /// `Range` (2): a number met lies outside 64 bits.
    Range,
    /// `Memory` (3): memory ran out.
    Memory,
    /// `NoChoice` (43): a value to choose is missing or not of its sort, or its condition is not true.
    NoChoice,
}

impl From<AllocError> for EffectFault {
    ghost use Rattle.std.specs.Prelude.{◌≡◌};
    ghost use Rattle.ioa_terms.specs.declared.choices.EffectFault.TheVariants.{Memory};

    ghost from_gives = { λ _ e. e ≡ Memory };

    fn from(_error: AllocError) -> Self {
        EffectFault::Memory
    }
}

impl<T: Drop> From<AllocFailed<T>> for EffectFault {
    ghost use Rattle.std.specs.Prelude.{◌≡◌};
    ghost use Rattle.ioa_terms.specs.declared.choices.EffectFault.TheVariants.{Memory};

    ghost from_gives = { λ _ e. e ≡ Memory };

    fn from(_error: AllocFailed<T>) -> Self {
        EffectFault::Memory
    }
}

impl From<TermFault> for EffectFault {
    ghost use Rattle.std.specs.Prelude.{◌≡◌};
    ghost use Rattle.ioa_terms.specs.Choices.{effect_fault};

    ghost from_gives = { λ t e. e ≡ effect_fault t };

    fn from(fault: TermFault) -> Self {
        match fault {
            TermFault::Undefined => EffectFault::Undefined,
            TermFault::Range => EffectFault::Range,
            TermFault::Memory => EffectFault::Memory,
        }
    }
}
