//! Automata and programs, with the names that their states have.

ghost use Rattle.std.specs.Prelude.{◌≡◌, IfOk, map, slice_get};
ghost use Rattle.std.specs.Arc.{arc_value};
ghost use Rattle.std.specs.Option.{option_and_then, option_copied, option_map};
ghost use Rattle.ioa_source.specs.TextView.{variable_of};
ghost use Rattle.ioa_system.specs.Parts.{variable_named};
ghost use Rattle.ioa_system.specs.Systems.{program_numbered};
ghost use Rattle.ioa_names.specs.StateNames.{state_names};

use crate::scope::Scope;
use ioa_source::Variable;
use ioa_system::{CheckedAutomaton, Program};
use ioa_terms::{Callee, Shape, Word};
use std::alloc::{AllocError, Global};
use std::marker::Model;
use std::sync::Arc;

/// An automaton with an index of its names: those of the state variables, and behind them those of the parameters. The
/// check makes the index, and a run has no use for it. A contract sees the automaton.
pub struct NamedAutomaton {
    automaton: Arc<CheckedAutomaton>,
    names: Arc<Scope>,
}

/// By hand, so that crates above do not prove again how the parts are let go (DECISIONS).
impl Drop for NamedAutomaton {
    fn drop(self) {
        let NamedAutomaton {
            automaton: _,
            names: _,
        } = self;
    }
}

impl Model for NamedAutomaton {
    ghost use Rattle.std.specs.Prelude.{◌≡◌};
    ghost use Rattle.std.specs.Arc.{arc_value};
    ghost use Rattle.ioa_system.specs.Parts.{AutomatonParts, automaton_code};
    ghost use Rattle.ioa_names.specs.StateNames.{state_names};

    ghost Value = { AutomatonParts };

    ghost coded = { automaton_code };

    ghost view = { λ a. arc_value a.automaton };

    ghost invariant = { λ a. arc_value a.names ≡ state_names (arc_value a.automaton) };
}

impl NamedAutomaton {
    /// The automaton, whose names are these.
    pub fn new(alloc: Global, automaton: CheckedAutomaton, names: Scope) -> Result<Self, AllocError>
        requires { names ≡ state_names automaton }
        ensures { IfOk result (λ a. a ≡ automaton) }
    {
        let automaton = Arc::new(alloc, automaton)?;
        let names = Arc::new(alloc, names)?;
        Ok(NamedAutomaton { automaton, names })
    }

    /// The automaton.
    pub fn automaton(&self) -> &Arc<CheckedAutomaton>
        ensures { arc_value result.now ≡ self.now }
    {
        &self.automaton
    }

    /// The names.
    fn names(&self) -> &Arc<Scope>
        ensures { arc_value result.now ≡ state_names self.now }
    {
        &self.names
    }
}

/// The program of a node with the index of its automaton's names. A contract sees the program.
pub struct NamedProgram {
    program: Arc<Program>,
    names: Arc<Scope>,
}

/// By hand, so that crates above do not prove again how the parts are let go (DECISIONS).
impl Drop for NamedProgram {
    fn drop(self) {
        let NamedProgram {
            program: _,
            names: _,
        } = self;
    }
}

impl Model for NamedProgram {
    ghost use Rattle.std.specs.Prelude.{◌≡◌};
    ghost use Rattle.std.specs.Arc.{arc_value};
    ghost use Rattle.ioa_system.specs.Parts.{Parts, parts_code};
    ghost use Rattle.ioa_names.specs.StateNames.{state_names};

    ghost Value = { Parts };

    ghost coded = { parts_code };

    ghost view = { λ p. arc_value p.program };

    ghost invariant = { λ p. arc_value p.names ≡ state_names (arc_value p.program).automaton };
}

impl NamedProgram {
    /// The program of a node on which this automaton is placed.
    pub fn new(
        alloc: Global,
        program: Program,
        automaton: &NamedAutomaton,
    ) -> Result<Self, AllocError>
        requires { program.automaton ≡ automaton.now }
        ensures { IfOk result (λ p. p ≡ program) }
    {
        let program = Arc::new(alloc, program)?;
        let names = Arc::try_clone(automaton.names())?;
        Ok(NamedProgram { program, names })
    }

    /// The program.
    pub fn program(&self) -> &Program
        ensures { result.now ≡ self.now }
    {
        &self.program
    }

    /// The state variable of a name, if there is one. Costs what the look-up of a name costs.
    #[tactic(auto, using(crate::proofs::StateNames::named_variable))]
    pub fn variable_named(&self, name: &Word) -> Option<&Variable<usize, Callee, Shape>>
        ensures { option_map variable_of (option_copied result)
            ≡ variable_named name.now self.now.automaton.variables }
    {
        let slot = self.names.slot_of_word(name);
        variable_at(self.program.automaton().variables(), slot)
    }

    /// The program alone.
    pub fn into_program(self) -> Arc<Program>
        ensures { arc_value result ≡ self }
    {
        let NamedProgram { program, names: _ } = self;
        program
    }
}

/// The program of the node that has a number, if there is one.
pub fn named_program_numbered(programs: &[NamedProgram], number: i64) -> Option<&NamedProgram>
    ensures { option_copied result ≡ program_numbered number programs.now }
{
    for program in programs {
        if program.program().node() == number {
            return Some(program);
        }
    }
    None
}

/// The programs alone, in their order.
pub fn programs_alone(
    alloc: Global,
    named: Vec<NamedProgram>,
) -> Result<Vec<Arc<Program>>, AllocError>
    ensures { IfOk result (λ ps. map arc_value ps.items ≡ named.items) }
{
    let mut programs = Vec::with_capacity(alloc, named.len())?;
    for program in named {
        programs.push(program.into_program())?;
    }
    Ok(programs)
}

/// The variable at a slot, if there is one.
#[tactic(auto, using(crate::proofs::StateNames::got))]
fn variable_at(
    variables: &[Variable<usize, Callee, Shape>],
    slot: Option<usize>,
) -> Option<&Variable<usize, Callee, Shape>>
    ensures { option_map variable_of (option_copied result)
        ≡ option_and_then (slice_get (map variable_of variables.now)) slot }
{
    match slot {
        Some(slot) => variables.get(slot),
        None => None,
    }
}
