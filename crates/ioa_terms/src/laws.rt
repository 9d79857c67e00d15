//! Laws of terms and statements: what functions ensure that do nothing.

ghost use Rattle.std.specs.Prelude.{◌≡◌, ℕ, List, [], ◌∷◌, ◌++◌, Some, Ok, true, not, ◌&&◌, ◌||◌, if◌then◌else◌};
ghost use Rattle.std.specs.Option.{is_some, option_and_then, option_map};
ghost use Rattle.ioa_values.specs.Data.{Data, items_of};
ghost use Rattle.ioa_operators.specs.Operators.{unary_value, binary_value, call_value};
ghost use Rattle.ioa_operators.specs.Shapes.{PlainShape, shapes_of, wide_shape, has_shape, have_shapes};
ghost use Rattle.ioa_operators.specs.Shapes.{display_value, field_value};
ghost use Rattle.ioa_values.specs.Canonical.{IsCanonical};
ghost use Rattle.ioa_terms.specs.declared.callee.Callee.{Callee};
ghost use Rattle.ioa_terms.specs.declared.name.Name.{Name};
ghost use Rattle.ioa_terms.specs.Bindings.{Bindings, names_of, same_name, lookup, put};
ghost use Rattle.ioa_terms.specs.Meaning.{value};
ghost use Rattle.ioa_terms.specs.PlainTerm.{PlainTerm, PlainStatement, assign, variable};
ghost use Rattle.ioa_terms.specs.Sorted.{NameShapes, HasShape, IsShaped, shape_in_terms, field_shape};
ghost use Rattle.ioa_terms.specs.Sorted.{UnaryIs, BinaryIs, FunctionIs, DisplayIs};
ghost use Rattle.ioa_terms.specs.Undefined.{is_missing_key, is_empty_end, is_low_divisor};
ghost use Rattle.ioa_terms.specs.Undefined.{has_negative, is_negative_tuple};
ghost use Rattle.ioa_terms.specs.Performance.{after, answer_by};
ghost use Rattle.ioa_terms.specs.Choices.{Left, left, given, yielded};
ghost use Rattle.ioa_values.specs.Outcome.{and_then};
ghost use Rattle.ioa_terms.specs.Ascending.{IsAscendingEnvironment, IsAscendingLeft};
ghost use Rattle.ioa_operators.specs.declared.operator.BinaryOperator.{BinaryOperator};
ghost use Rattle.ioa_operators.specs.declared.operator.Function.{Function};
ghost use Rattle.ioa_operators.specs.declared.operator.UnaryOperator.{UnaryOperator};
ghost use Rattle.ioa_operators.specs.declared.shape.DisplayForm.{DisplayForm};
ghost use Rattle.ioa_operators.specs.declared.shape.Shape.{Shape};

/// If each value of an environment has the shape of its name, the value of a term has the shape of the
/// term. A value that has a shape has it too with integers for naturals, as the shape of a name is in a
/// term. A value has a shape if and only if it has it with integers for naturals at any depth, and has no
/// negative number for a natural.
pub fn shapes_law()
    ensures kept { (names : NameShapes) (e : Bindings) → IsShaped names e →
        (t : PlainTerm ℕ Callee Shape) (s : PlainShape) → HasShape names t s →
        (v : Data) → value t e ≡ Some v → has_shape s v ≡ true }
    ensures shape_in_terms { (s : PlainShape) (v : Data) →
        has_shape s v ≡ true → has_shape (shape_in_terms s) v ≡ true }
    ensures signs { (s : PlainShape) (v : Data) →
        has_shape s v ≡ (has_shape (wide_shape s) v && not (has_negative s v)) }
{}

/// If every set and every map in the values of an environment ascends, at any depth, then every set and
/// every map in the value of a term does, and in each value of the environment that statements leave: only
/// ascending lists without doubles arise as sets and as maps.
pub fn ascending_law()
    ensures terms { (e : Bindings) → IsAscendingEnvironment e →
        (t : PlainTerm ℕ Callee Shape) (v : Data) → value t e ≡ Some v → IsCanonical v }
    ensures statements { (l : Left) → IsAscendingLeft l →
        (ss : List (PlainStatement ℕ Callee Shape)) (m : Left) → after ss l ≡ Ok m → IsAscendingLeft m }
{}

/// An assignment changes the value of its name, if it has one, and that of no other name.
pub fn put_law()
    ensures { (x y : Name) (v : Data) (e : Bindings) →
        lookup y (put x v e) ≡ (if same_name y x then option_map (λ w. v) (lookup x e) else lookup y e) }
{}

/// Statements apply in order: the later ones start from what the earlier ones leave. An assignment of a value that has
/// the variable's shape gives the variable this value. No statement binds a new name.
pub fn statements_law()
    ensures order { (earlier later : List (PlainStatement ℕ Callee Shape)) (l : Left) →
        after (earlier ++ later) l ≡ and_then (after earlier l) (after later) }
    ensures assignment { (x : List ℕ) (at : ℕ) (s : PlainShape) (t : PlainTerm ℕ Callee Shape) (l : Left)
        (v : Data) → value t l.bindings ≡ Some v → has_shape s v ≡ true →
        after (assign (variable x at s) t ∷ []) l ≡ Ok (left (put (Name.Word x) v l.bindings) l.source) }
    ensures names { (ss : List (PlainStatement ℕ Callee Shape)) (l m : Left) →
        after ss l ≡ Ok m → names_of m.bindings ≡ names_of l.bindings }
    ensures again { (ss : List (PlainStatement ℕ Callee Shape)) (e : Bindings) (r : Left) →
        answer_by ss (left e (yielded [])) ≡ Ok r → (vs : List Data) × (r.source ≡ yielded vs)
        × (answer_by ss (left e (given vs)) ≡ Ok (left r.bindings (given []))) }
{}

/// An operator, a function, a display or a field has a value of values with the shapes that it takes,
/// except in the listed cases.
pub fn defined_law()
    ensures unary { (op : UnaryOperator) (x s : PlainShape) → UnaryIs op x s →
        (v : Data) → has_shape x v ≡ true → is_some (unary_value op v) ≡ true }
    ensures binary { (op : BinaryOperator) (x y s : PlainShape) → BinaryIs op x y s →
        (v w : Data) → has_shape x v ≡ true → has_shape y w ≡ true →
        is_some (binary_value op v w) ≡ not (is_missing_key op v w) }
    ensures function { (f : Function) (xs : List PlainShape) (s : PlainShape) → FunctionIs f xs s →
        (vs : List Data) → have_shapes (shapes_of xs) (items_of vs) ≡ true →
        is_some (call_value f vs) ≡ not (is_empty_end f vs || is_low_divisor f vs) }
    ensures display { (form : DisplayForm) (s : PlainShape) (xs : List PlainShape) → DisplayIs form xs s →
        (vs : List Data) → have_shapes (shapes_of xs) (items_of vs) ≡ true →
        is_some (display_value form s vs) ≡ not (is_negative_tuple form s vs) }
    ensures field { (t s : PlainShape) (w : List ℕ) → field_shape w t ≡ Some s →
        (v : Data) → has_shape t v ≡ true → is_some (field_value t w v) ≡ true }
{}
