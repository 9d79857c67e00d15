//! A law of the rules of sorts: what a function ensures that does nothing.

ghost use Rattle.std.specs.Prelude.{◌≡◌, ◌↔◌, ◌⊎◌, List, [], ◌∷◌, Some, None, Ok, Err};
ghost use Rattle.ioa_operators.specs.Shapes.{PlainShape, maps};
ghost use Rattle.ioa_operators.specs.declared.operator.BinaryOperator.{BinaryOperator};
ghost use Rattle.ioa_operators.specs.declared.operator.Function.{Function};
ghost use Rattle.ioa_operators.specs.declared.operator.UnaryOperator.{UnaryOperator};
ghost use Rattle.ioa_terms.specs.Sorted.{UnaryIs, BinaryIs, FunctionIs};
ghost use Rattle.ioa_refusals.specs.declared.refusal.Refusal.{Refusal};
ghost use Rattle.ioa_sort_rules.specs.declared.kinds.Arity.{Arity};
ghost use Rattle.ioa_sort_rules.specs.declared.kinds.Single.{Single};
ghost use Rattle.ioa_sort_rules.specs.declared.kinds.Pairing.{Pairing};
ghost use Rattle.ioa_sort_rules.specs.Kinds.{single_of, pairing_of, arity_of};
ghost use Rattle.ioa_sort_rules.specs.Rows.{sides, value_of_one, other_of_left, other_of_right};

/// The rows give exactly the shapes that the operators and functions take and give. If the left part tells, it tells
/// the right part's shape and the value's. If it does not, the right part does. The right part tells the left part's
/// shape and the value's, unless the left part is a map.
pub fn sort_rules_law()
    // operators
    ensures unary { (op : UnaryOperator) (x s : PlainShape) →
        (value_of_one (single_of op) x ≡ Ok s) ↔ UnaryIs op x s }
    ensures left { (op : BinaryOperator) (x y s : PlainShape) →
        other_of_left (pairing_of op) x ≡ Ok (Some (sides y s)) → BinaryIs op x y s }
    ensures right { (op : BinaryOperator) (x y s : PlainShape) →
        other_of_right (pairing_of op) y ≡ Ok (sides x s) → BinaryIs op x y s }
    ensures left_tells { (op : BinaryOperator) (x y s : PlainShape) → BinaryIs op x y s →
        (other_of_left (pairing_of op) x ≡ Ok (Some (sides y s))) ⊎ (other_of_left (pairing_of op) x ≡ Ok None) }
    ensures right_tells { (op : BinaryOperator) (x y s : PlainShape) → BinaryIs op x y s →
        (other_of_right (pairing_of op) y ≡ Ok (sides x s))
        ⊎ (other_of_right (pairing_of op) y ≡ Err Refusal.EmptyOfWhat) }
    // functions of one part and of two
    ensures of_one { (f : Function) (k : Single) (x s : PlainShape) → arity_of f ≡ Arity.One k →
        value_of_one k x ≡ Ok s → FunctionIs f (x ∷ []) s }
    ensures of_one_tells { (f : Function) (k : Single) (x s : PlainShape) → arity_of f ≡ Arity.One k →
        FunctionIs f (x ∷ []) s → value_of_one k x ≡ Ok s }
    ensures of_left { (f : Function) (k : Pairing) (x y s : PlainShape) → arity_of f ≡ Arity.Two k →
        other_of_left k x ≡ Ok (Some (sides y s)) → FunctionIs f (x ∷ y ∷ []) s }
    ensures of_right { (f : Function) (k : Pairing) (x y s : PlainShape) → arity_of f ≡ Arity.Two k →
        other_of_right k y ≡ Ok (sides x s) → FunctionIs f (x ∷ y ∷ []) s }
    ensures of_left_tells { (f : Function) (k : Pairing) (x y s : PlainShape) → arity_of f ≡ Arity.Two k →
        FunctionIs f (x ∷ y ∷ []) s → other_of_left k x ≡ Ok (Some (sides y s)) }
    ensures of_right_tells { (f : Function) (k : Pairing) (x y s : PlainShape) → arity_of f ≡ Arity.Two k →
        FunctionIs f (x ∷ y ∷ []) s →
        (other_of_right k y ≡ Ok (sides x s)) ⊎ (other_of_right k y ≡ Err Refusal.EmptyOfWhat) }
    // `update` alone has three parts
    ensures of_map { (f : Function) (k v : PlainShape) → arity_of f ≡ Arity.Update →
        FunctionIs f (maps k v ∷ k ∷ v ∷ []) (maps k v) }
    ensures of_map_alone { (f : Function) (m k v s : PlainShape) → arity_of f ≡ Arity.Update →
        FunctionIs f (m ∷ k ∷ v ∷ []) s → (m ≡ maps k v) × (s ≡ maps k v) }
{}
