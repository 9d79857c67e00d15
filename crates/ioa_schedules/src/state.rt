//! What a block comes to as it runs.

ghost use Rattle.std.specs.Prelude.{◌≡◌, IfOk, IsTrue, OnOk};
ghost use Rattle.ioa_schedules.specs.Positions.{IsEndOf};
ghost use Rattle.ioa_schedules.specs.States.{bottom_in, plain_state, todo_in, values_in};
ghost use Rattle.ioa_schedules.specs.Turns as spec;

use crate::position::Position;
use crate::step::is_fire;
use ioa_copies::copy_values;
use ioa_terms::Value;
use std::alloc::{AllocError, Global};

/// What a block has still to do, and the values of its own variables.
#[derive(Drop)]
pub struct State<'a> {
    pub(crate) position: Position<'a>,
    pub(crate) variables: Vec<Value>,
}

impl<'a> State<'a> {
    /// Makes the state what another one is, whose values share their collections with this one's then. Takes no memory
    /// if the state has the room. If no memory is left, the state is some state.
    #[inline(always)]
    pub(crate) fn copy_from(&mut self, alloc: Global, other: &State<'a>) -> Result<(), AllocError>
        ensures todo { OnOk result (todo_in self.new ≡ todo_in other.now) }
        ensures values { OnOk result (values_in self.new ≡ values_in other.now) }
        ensures bottom { OnOk result (bottom_in self.new ≡ bottom_in other.now) }
    {
        self.position.copy_from(&other.position)?;
        copy_values(alloc, &other.variables, &mut self.variables)
    }

    /// Whether the block is again what it was in another state, as of [`Position::is_back_at`]. It costs what comparing
    /// the values of the block's own variables does.
    #[tactic(auto, using(crate::proofs::Ends::same_state))]
    pub(crate) fn is_back_at(&self, other: &State) -> bool
        ensures { IsTrue result → IsEndOf (bottom_in self.now) (bottom_in other.now) →
            plain_state self.now ≡ plain_state other.now }
    {
        self.position.is_back_at(&other.position) && are_same(&self.variables, &other.variables)
    }

    /// Whether a turn that begins here ends here.
    #[inline(always)]
    pub(crate) fn ends_turn(&self) -> bool
        ensures { result ≡ spec.ends_turn (todo_in self.now) }
    {
        match self.position.first() {
            None => true,
            Some(first) => is_fire(first),
        }
    }
}

/// Whether values are the same ones, in order.
#[tactic(auto, using(crate::proofs::Ends::same_values))]
fn are_same(values: &[Value], others: &[Value]) -> bool
    ensures { IsTrue result → values.now ≡ others.now }
{
    values == others
}
