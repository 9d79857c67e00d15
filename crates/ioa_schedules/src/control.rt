//! A block that runs.

ghost use Rattle.std.proofs.Props.{props};
ghost use Rattle.std.specs.Prelude.{◌≡◌, true};
ghost use Rattle.ioa_schedules.specs.Positions.{IsEndOf};
ghost use Rattle.ioa_schedules.specs.StatementSets.{AreStatements-set};
ghost use Rattle.ioa_schedules.specs.States.{bottom_in};

use crate::state::State;
use ioa_terms::Value;

/// A block that runs (profile): what it has still to do, and the values of its own variables. The statements are
/// the block's own, and none is copied. Beside them is room for a copy, to which the block is put back after a fault,
/// and room for the arguments of a `fire`.
#[derive(Drop)]
pub struct Control<'a> {
    pub(crate) state: State<'a>,
    pub(crate) copy: State<'a>,
    /// Whether the last turn took statements: then the copy is the block before it.
    pub(crate) is_moved: bool,
    pub(crate) arguments: Vec<Value>,
    ghost behind: { is_moved ≡ true → IsEndOf (bottom_in state) (bottom_in copy) } by { Prim.hlevel (props, AreStatements-set) },
}
