//! Laws of what is shown: what functions ensure that do nothing.

ghost use Rattle.std.specs.Prelude.{◌≡◌, ℕ, List, false};
ghost use Rattle.ioa_values.specs.Data.{Data};
ghost use Rattle.ioa_operators.specs.Shapes.{PlainShape};
ghost use Rattle.ioa_show.specs.Json.{has_tuple_type, json, shaped_json};

/// In the informal trace format a shape changes how a value is written only by its tuple types: by a shape in which
/// there is none, at any depth, a value is written as without a shape.
pub fn shape_law()
    ensures { (names : List (List ℕ)) (s : PlainShape) (d : Data) → has_tuple_type s ≡ false
        → shaped_json names s d ≡ json names d }
{}
