//! Blocks gone through statement by statement.

ghost use Rattle.std.specs.Prelude.{◌≡◌, IfOk, MatchOption, length};
ghost use Rattle.ioa_values.specs.Outcome.{Answers};
ghost use Rattle.ioa_terms.specs.PlainTerm.{no_statements};
ghost use Rattle.ioa_terms.specs.View.{statement_of};
ghost use Rattle.ioa_terms.specs.Views.{IsNamed, environment_of};
ghost use Rattle.ioa_schedules.specs.Controls.{state_of};
ghost use Rattle.ioa_schedules.specs.Steppings.{own_in, stepping_of, to_do_in};
ghost use Rattle.ioa_schedules.specs.Turns.{IsFirst};
ghost use Rattle.ioa_schedules.specs.TurnsByStep.{stepwise_first};
ghost use Rattle.ioa_schedules.specs.Views.{AreResolvedIn};

use crate::control::Control;
use crate::position::Position;
use crate::state::State;
use crate::step::take_first;
use ioa_terms::{Callee, Shape, Statement, TermFault, Value, View};
use std::alloc::{AllocError, Global};

/// A copy of a block, of which one statement is taken at a time. The block itself stays as it is. It is for whoever
/// wants to know at which statement a turn meets a fault.
#[derive(Drop)]
pub struct Stepping<'a> {
    pub(crate) state: State<'a>,
}

impl<'a> Control<'a> {
    /// A copy of the block as it is.
    pub fn stepping(&self, alloc: Global) -> Result<Stepping<'a>, AllocError>
        ensures { IfOk result (λ s. stepping_of s ≡ state_of self.now) }
    {
        let mut state = State {
            position: Position::start(alloc, &[]),
            variables: Vec::new(alloc),
        };
        state.copy_from(alloc, &self.state)?;
        Ok(Stepping { state })
    }
}

impl<'a> Stepping<'a> {
    /// The first statement that is to do, if there is one.
    pub fn first(&self) -> Option<&'a Statement<usize, Callee, Shape>>
        ensures { MatchOption result (to_do_in self.now ≡ no_statements)
            (λ s. IsFirst (statement_of s.now) (to_do_in self.now)) }
    {
        self.state.position.first()
    }

    /// The values of the block's own variables.
    pub fn own(&self) -> &[Value]
        ensures { result.now ≡ own_in self.now }
    {
        &self.state.variables
    }

    /// Takes the first statement (profile), as a turn does. `Undefined (1)` if there is none, if it is a `fire` or a
    /// choice, or if a term of it has no value, `Range (2)` if a number lies outside 64 bits, and `Memory (3)` if no
    /// memory is left. After a fault nothing is said of what is to do.
    #[tactic(auto, using(crate::proofs::Runs::on_rules))]
    pub fn take(&mut self, alloc: Global, view: &View) -> Result<(), TermFault>
        requires named { IsNamed view.now (own_in self.old) }
        requires resolved { AreResolvedIn view.now (length (own_in self.old)) (to_do_in self.old) }
        ensures after { Answers TermFault.Memory
            (λ _. (to_do_in self.new, environment_of view.now (own_in self.new))) result
            (stepwise_first (to_do_in self.old) (environment_of view.now (own_in self.old))) }
        ensures resolved { IfOk result
            (λ _. AreResolvedIn view.now (length (own_in self.new)) (to_do_in self.new)) }
        ensures kept { length (own_in self.new) ≡ length (own_in self.old) }
    {
        take_first(alloc, view, &mut self.state, 1)?;
        Ok(())
    }
}
