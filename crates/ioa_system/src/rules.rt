//! The rules of an automaton, each found by its number.

ghost use Rattle.std.specs.Prelude.{◌≡◌, [], slice_get};
ghost use Rattle.std.specs.List.{IsDistinct};
ghost use Rattle.std.specs.Option.{option_copied};
ghost use Rattle.ioa_terms.specs.Bindings.{same_word};
ghost use Rattle.ioa_system.specs.Parts.{rule_names};

use crate::automaton::Rule;
use std::alloc::Global;
use std::marker::Model;

/// The entries of an automaton with their transitions (Lynch 8.1), in the order of the signature. The number of a rule
/// is its place there, counted from 0. The type guarantees that the rules differ in name, so that a name tells one rule
/// at most. A contract sees the list.
pub struct Rules {
    rules: Vec<Rule>,
}

/// By hand, so that crates above do not prove again how the parts are let go (DECISIONS).
impl Drop for Rules {
    fn drop(self) {
        let Rules { rules: _ } = self;
    }
}

impl Model for Rules {
    ghost use Rattle.std.specs.Prelude.{List};
    ghost use Rattle.std.specs.Coded.{coded_list};
    ghost use Rattle.ioa_system.specs.Parts.{PlainRule, rule_code};

    ghost Value = { List PlainRule };

    ghost coded = { coded_list rule_code };

    ghost view = { λ r. r.rules.items };

    ghost use Rattle.std.specs.List.{IsDistinct};
    ghost use Rattle.ioa_terms.specs.Bindings.{same_word};
    ghost use Rattle.ioa_system.specs.Parts.{rule_names};

    ghost invariant = { λ r. IsDistinct same_word (rule_names r.rules.items) };
}

impl Rules {
    /// No rules.
    pub fn none(alloc: Global) -> Self
        ensures { result ≡ [] }
    {
        Rules {
            rules: Vec::new(alloc),
        }
    }

    /// These rules, which differ in name.
    pub fn new(rules: Vec<Rule>) -> Self
        requires { IsDistinct same_word (rule_names rules.items) }
        ensures { result ≡ rules.items }
    {
        Rules { rules }
    }

    /// The rules, in the order of the signature.
    pub fn as_slice(&self) -> &[Rule]
        ensures value { result.now ≡ self.now }
        ensures differ { IsDistinct same_word (rule_names self.now) }
    {
        self.rules.as_slice()
    }

    /// The rule of a number, if there are so many. Costs a constant time.
    pub fn get(&self, number: usize) -> Option<&Rule>
        ensures rule { option_copied result ≡ slice_get self.now number }
        ensures differ { IsDistinct same_word (rule_names self.now) }
    {
        self.rules.get(number)
    }
}
