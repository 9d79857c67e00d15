//! What the reader of values is held against: functions that do nothing, whose contracts are the laws.

ghost use Rattle.std.specs.List.{IsDistinct};
ghost use Rattle.std.specs.Prelude.{◌≡◌, ℕ, List, Some, nat_eq, slice_get, true};
ghost use lib.Pointwise.{pointwise};
ghost use Rattle.ioa_operators.specs.Shapes.{PlainShape, has_shape, wide_shape};
ghost use Rattle.ioa_tokens.specs.declared.token.Token.{Token};
ghost use Rattle.ioa_values.specs.Canonical.{IsCanonical};
ghost use Rattle.ioa_values.specs.Data.{Data};
ghost use Rattle.ioa_value_reader.specs.Grammar.{SpellsValue, constant_named};
ghost use Rattle.ioa_value_reader.specs.Reading.{read_value};

/// What is read for a shape is spelled by the tokens that were taken, and has the shape, if integers are taken for
/// naturals. What is spelled and has the shape is read, whatever follows. In a value that is spelled every set and
/// every map, at any depth, ascends.
pub fn reading_law()
    ensures sound { (names : List (List ℕ)) (s : PlainShape) (v : Data) (xs ys : List Token) →
        read_value names s xs ≡ Some (v, ys) → SpellsValue names v xs ys × (has_shape (wide_shape s) v ≡ true) }
    ensures complete { (names : List (List ℕ)) (s : PlainShape) (v : Data) (xs ys : List Token) →
        SpellsValue names v xs ys → has_shape (wide_shape s) v ≡ true → read_value names s xs ≡ Some (v, ys) }
    ensures ascends { (names : List (List ℕ)) (v : Data) (xs ys : List Token) →
        SpellsValue names v xs ys → IsCanonical v }
{}

/// The constant of a name has that name. If no two constants have one name, each is the constant of its name.
pub fn constants_law()
    ensures named { (names : List (List ℕ)) (w : List ℕ) (k : ℕ) →
        constant_named names w ≡ Some k → slice_get names k ≡ Some w }
    ensures once { (names : List (List ℕ)) (w : List ℕ) (k : ℕ) → IsDistinct (pointwise nat_eq) names →
        slice_get names k ≡ Some w → constant_named names w ≡ Some k }
{}
