//! The verdict on an invariant.

ghost use Rattle.std.specs.Prelude.{◌≡◌};
ghost use Rattle.ioa_verdicts.specs.Verdicts.{is_open};

use std::fmt;

/// Whether an invariant holds in each state of a schedule, and if not, why not in the first state in which it does not
/// (profile). The number says after how many entries of the schedule: 0 is the start.
#[derive(Clone, Copy, Debug, PartialEq, Eq)]
pub enum Verdict {
    /// It is true in each state.
    Holds,
    /// It is not true after so many entries.
    Fails(usize),
    /// It has no value after so many entries.
    Undefined(usize),
    /// It meets a number outside 64 bits after so many entries.
    Range(usize),
}

impl Verdict {
    /// Whether the invariant holds as far as the verdict says.
    pub fn is_open(&self) -> bool
        ensures { result ≡ is_open self.now }
    {
        match self {
            Verdict::Holds => true,
            Verdict::Fails(_) | Verdict::Undefined(_) | Verdict::Range(_) => false,
        }
    }
}

impl fmt::Display for Verdict {
    ghost use Rattle.std.specs.Prelude.{Some};
    ghost use Rattle.ioa_verdicts.specs.Verdicts.{verdict_text};

    ghost output = { λ v. Some (verdict_text v) };

    fn fmt<W: fmt::Write>(&self, f: &mut fmt::Formatter<W>) -> fmt::Result {
        match self {
            Verdict::Holds => f.write_str("holds"),
            Verdict::Fails(passed) => write!(f, "fails at {passed}"),
            Verdict::Undefined(passed) => write!(f, "undefined at {passed}"),
            Verdict::Range(passed) => write!(f, "range at {passed}"),
        }
    }
}
