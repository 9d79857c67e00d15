//! What a call in a checked system is of.

ghost use Rattle.std.specs.Prelude.{◌≡◌};
ghost use Rattle.ioa_terms.specs.Meaning.{is_inbox_word};
ghost use Rattle.ioa_terms.specs.SameNames.{same_callee};

use ioa_operators::Function;
use ioa_values::Word;

/// What a call in a checked system is of (profile).
#[derive(Clone, Copy, Debug)]
pub enum Callee {
    /// A function.
    Function(Function),
    /// `inbox`, which reads the map of the inboxes at this slot.
    Inboxes(usize),
}

impl Callee {
    /// Whether two calls are of the same.
    fn is_same(&self, other: &Self) -> bool
        ensures { result ≡ same_callee self.now other.now }
    {
        match (self, other) {
            (Callee::Function(function), Callee::Function(other)) => function == other,
            (Callee::Inboxes(slot), Callee::Inboxes(other)) => slot == other,
            _ => false,
        }
    }
}

impl PartialEq for Callee {
    ghost use Rattle.ioa_terms.specs.SameNames.{same_callee, same_callee_partial};

    ghost eq = { same_callee };

    ghost laws = { same_callee_partial };

    fn eq(&self, other: &Self) -> bool {
        self.is_same(other)
    }
}

/// Whether a call of this name is of `inbox`.
pub fn is_inbox(name: &Word) -> bool
    ensures { result ≡ is_inbox_word name.now }
{
    match name.as_str() {
        "inbox" => true,
        _ => false,
    }
}
