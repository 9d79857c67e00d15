//! A law of operators: what a function ensures that does nothing.

ghost use Rattle.std.specs.Prelude.{◌≡◌, Bool, true, false, Some};
ghost use Rattle.ioa_values.specs.Data.{Data, truth};
ghost use Rattle.ioa_operators.specs.Operators.{binary_value, left_decision};
ghost use Rattle.ioa_operators.specs.declared.operator.BinaryOperator.{BinaryOperator};

/// If the left side decides alone, the operator has that value whatever truth value the right side has.
/// A truth value on the left decides alone if the right side makes no difference.
pub fn decision_law()
    ensures value { (op : BinaryOperator) (x d : Data) (b : Bool) →
        left_decision op x ≡ Some d → binary_value op x (truth b) ≡ Some d }
    ensures alone { (op : BinaryOperator) (a : Bool) (d : Data) →
        binary_value op (truth a) (truth true) ≡ Some d → binary_value op (truth a) (truth false) ≡ Some d →
        left_decision op (truth a) ≡ Some d }
{}
