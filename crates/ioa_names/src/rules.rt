//! The rules of an automaton, each found by its name.

ghost use Rattle.std.specs.Prelude.{◌≡◌, [], map, slice_get};
ghost use Rattle.std.specs.List.{IsDistinct};
ghost use Rattle.std.specs.Option.{option_copied};
ghost use Rattle.ioa_terms.specs.Bindings.{same_word, slot_in};
ghost use Rattle.ioa_system.specs.Parts.{rule_names};
ghost use Rattle.ioa_names.specs.Indexes.{AreIndexed};

use crate::scope::Scope;
use ioa_system::{Rule, Rules};
use ioa_terms::{Name, Word};
use std::alloc::Global;
use std::marker::Model;

/// The rules of an automaton with an index of their names, by which the check finds what a firing is of. A contract
/// sees the list of rules.
pub struct RuleTable {
    rules: Rules,
    names: Scope,
}

/// By hand, so that crates above do not prove again how the parts are let go (DECISIONS).
impl Drop for RuleTable {
    fn drop(self) {
        let RuleTable { rules: _, names: _ } = self;
    }
}

impl Model for RuleTable {
    ghost use Rattle.std.specs.Prelude.{List};
    ghost use Rattle.std.specs.Coded.{coded_list};
    ghost use Rattle.ioa_system.specs.Parts.{PlainRule, rule_code, rule_names};

    ghost Value = { List PlainRule };

    ghost coded = { coded_list rule_code };

    ghost view = { λ t. t.rules };

    ghost use Rattle.ioa_names.specs.Indexes.{AreIndexed};

    ghost invariant = { λ t. AreIndexed t.names (rule_names t.rules) };
}

impl RuleTable {
    /// No rules.
    pub fn none(alloc: Global) -> Self
        ensures { result ≡ [] }
    {
        RuleTable {
            rules: Rules::none(alloc),
            names: Scope::new(alloc),
        }
    }

    /// These rules, whose names are these.
    pub fn new(rules: Vec<Rule>, names: Scope) -> Self
        requires { AreIndexed names (rule_names rules.items) }
        ensures { result ≡ rules.items }
    {
        RuleTable {
            rules: Rules::new(rules),
            names,
        }
    }

    /// The rules, in the order of the signature.
    pub fn as_slice(&self) -> &[Rule]
        ensures { result.now ≡ self.now }
    {
        self.rules.as_slice()
    }

    /// The rule of a number, if there are so many. Costs a constant time.
    pub fn get(&self, number: usize) -> Option<&Rule>
        ensures rule { option_copied result ≡ slice_get self.now number }
        ensures differ { IsDistinct same_word (rule_names self.now) }
    {
        self.rules.get(number)
    }

    /// The number of the rule of a name, if there is one. Costs what the look-up of a name costs.
    pub fn number_of(&self, name: &Word) -> Option<usize>
        ensures number { result ≡ slot_in (Name.Word name.now) (map Name.Word (rule_names self.now)) }
        ensures differ { IsDistinct same_word (rule_names self.now) }
    {
        self.names.slot_of_word(name)
    }

    /// The rules alone.
    pub fn into_rules(self) -> Rules
        ensures { result ≡ self }
    {
        let RuleTable { rules, names: _ } = self;
        rules
    }
}
