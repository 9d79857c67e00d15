//! The program of a node: its automaton, with what the node gives it.

ghost use Rattle.std.specs.Prelude.{◌≡◌, ◌↔◌, IsTrue, length, map};
ghost use Rattle.std.specs.Option.{option_copied, option_map};
ghost use Rattle.std.specs.Arc.{arc_value};
ghost use Rattle.ioa_system.specs.Parts.{parts};
ghost use Rattle.ioa_system.specs.SameParts.{same_program};
ghost use Rattle.ioa_system.specs.Systems.{program_numbered};

use crate::automaton::CheckedAutomaton;
use ioa_terms::Value;
use std::marker::Model;
use std::sync::Arc;

/// A node's program. Its type guarantees that each parameter of the automaton has a value, and each state
/// variable and each variable of the schedule block a first one.
pub struct Program {
    node: i64,
    automaton: Arc<CheckedAutomaton>,
    arguments: Vec<Value>,
    initial: Vec<Value>,
    block: Vec<Value>,
}

/// By hand, so that crates above do not prove again how the parts are let go (DECISIONS).
impl Drop for Program {
    fn drop(self) {
        let Program {
            node: _,
            automaton: _,
            arguments: _,
            initial: _,
            block: _,
        } = self;
    }
}

impl Model for Program {
    ghost use Rattle.ioa_system.specs.Parts.{Parts, parts_code};

    ghost Value = { Parts };

    ghost coded = { parts_code };

    ghost use Rattle.std.specs.Arc.{arc_value};
    ghost use Rattle.ioa_system.specs.Parts.{parts};

    ghost view = { λ p. parts p.node (arc_value p.automaton) p.arguments.items p.initial.items p.block.items };

    ghost use Rattle.ioa_system.specs.ResolvedPrograms.{IsValuedProgram};

    ghost invariant = { λ p. IsValuedProgram
        (parts p.node (arc_value p.automaton) p.arguments.items p.initial.items p.block.items) };
}

/// The program of the node that has a number, if there is one.
pub fn program_numbered(programs: &[Arc<Program>], number: i64) -> Option<&Arc<Program>>
    ensures { option_map arc_value (option_copied result) ≡ program_numbered number (map arc_value programs.now) }
{
    for program in programs {
        if program.node() == number {
            return Some(program);
        }
    }
    None
}

impl Program {
    /// The program of a node on which an automaton is placed: `arguments` are the values of the
    /// automaton's parameters, `initial` those of its state variables in the start state, and `block` the
    /// first ones of its schedule block's variables.
    pub fn new(
        node: i64,
        automaton: Arc<CheckedAutomaton>,
        arguments: Vec<Value>,
        initial: Vec<Value>,
        block: Vec<Value>,
    ) -> Self
        requires given { length arguments.items ≡ length (arc_value automaton).parameters }
        requires valued { length initial.items ≡ length (arc_value automaton).variables }
        requires block { length block.items ≡ length (arc_value automaton).schedule.variables }
        ensures { result ≡ parts node (arc_value automaton) arguments.items initial.items block.items }
    {
        Program {
            node,
            automaton,
            arguments,
            initial,
            block,
        }
    }

    /// The number of its node.
    pub fn node(&self) -> i64
        ensures { result ≡ self.now.node }
    {
        self.node
    }

    /// The automaton that is placed on the node.
    pub fn automaton(&self) -> &CheckedAutomaton
        ensures { result.now ≡ self.now.automaton }
    {
        &self.automaton
    }

    /// The values of the automaton's parameters.
    pub fn arguments(&self) -> &[Value]
        ensures value { result.now ≡ self.now.arguments }
        ensures given { length result.now ≡ length self.now.automaton.parameters }
    {
        self.arguments.as_slice()
    }

    /// The values of the state variables in the start state.
    pub fn initial(&self) -> &[Value]
        ensures value { result.now ≡ self.now.initial }
        ensures valued { length result.now ≡ length self.now.automaton.variables }
    {
        self.initial.as_slice()
    }

    /// The first values of the schedule block's variables.
    pub fn block(&self) -> &[Value]
        ensures value { result.now ≡ self.now.block }
        ensures valued { length result.now ≡ length self.now.automaton.schedule.variables }
    {
        self.block.as_slice()
    }

    /// Whether two programs are the same, whatever memory they are kept in. Costs time in proportion to the
    /// shorter one.
    #[tactic(auto, using(crate::specs::SameParts::same_program_is))]
    pub fn equals(&self, other: &Self) -> bool
        ensures value { result ≡ same_program self.now other.now }
        ensures equality { IsTrue result ↔ (self.now ≡ other.now) }
    {
        self.is_same(other)
    }

    /// Whether two programs are the same, part by part.
    fn is_same(&self, other: &Self) -> bool
        ensures { result ≡ same_program self.now other.now }
    {
        self.node == other.node
            && (self.arguments == other.arguments
                && (self.initial == other.initial
                    && (self.block == other.block && self.automaton.is_same(&other.automaton))))
    }
}
