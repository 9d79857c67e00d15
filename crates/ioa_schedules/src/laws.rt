//! A law of turns: the contract of a function that does nothing.

ghost use Rattle.std.specs.Prelude.{◌≡◌, ◌+◌, ℕ, Some};
ghost use Rattle.ioa_operators.specs.declared.shape.Shape.{Shape};
ghost use Rattle.ioa_terms.specs.declared.callee.Callee.{Callee};
ghost use Rattle.ioa_terms.specs.Bindings.{Bindings, names_of};
ghost use Rattle.ioa_terms.specs.PlainTerm.{PlainStatements};
ghost use Rattle.ioa_schedules.specs.Turns.{TurnResult, idle, turn};

/// A turn binds no name and unbinds none. One that is idle after some statements, and goes on from what is left
/// with more, is one turn of all these statements: the limit cuts a block's run and changes nothing of it.
pub fn turn_law()
    ensures names { (todo : PlainStatements ℕ Callee Shape) (n : ℕ) (e : Bindings) (r : TurnResult)
        → turn todo n e ≡ Some r → names_of r.bindings ≡ names_of e }
    ensures limit { (todo : PlainStatements ℕ Callee Shape) (n m : ℕ) (e : Bindings) (r : TurnResult)
        → turn todo n e ≡ Some r → r.ending ≡ idle → turn todo (n + m) e ≡ turn r.todo m r.bindings }
{}
