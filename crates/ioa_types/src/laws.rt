//! Laws of declared types: what functions ensure that do nothing.

ghost use Rattle.std.specs.Prelude.{◌≡◌, ◌<◌, ℕ, List, [], Ok};
ghost use Rattle.ioa_operators.specs.Shapes.{PlainShape, constants};
ghost use Rattle.ioa_operators.specs.ShapeHeight.{height};
ghost use Rattle.ioa_terms.specs.PlainSort.{PlainSort};
ghost use Rattle.ioa_source.specs.Sides.{SourceDeclared, SourceType};
ghost use Rattle.ioa_sort_rules.specs.DeclaredTypes.{IsDeclared};
ghost use Rattle.ioa_names.specs.NameTables.{AreDistinct, with_name};
ghost use Rattle.ioa_types.specs.TypeTables.{TypeTable, shape_of_sort, tuple_shape};
ghost use Rattle.ioa_types.specs.Meanings.{Means, tuple_types, IsTypeTable, AreTextTypes};
ghost use Rattle.ioa_types.specs.TextTypes.{PlainTextTypes, no_types, with_type};
ghost use Rattle.ioa_types.specs.TypeDeclarations.{DeclaresType};
ghost use Rattle.ioa_types.specs.declared.height.TheConstants.{SHAPE_LIMIT};

/// A sort has a shape exactly if it means one that is not too high. Of a table of types the tuple types in that shape
/// are the declared ones of their names. Types stay such a table if an enumeration or a tuple type is declared.
pub fn types_law()
    // sorts
    ensures means { (types : TypeTable) (s : PlainSort) (x : PlainShape) → IsTypeTable types →
        shape_of_sort types s ≡ Ok x → Means types s x × (height x < SHAPE_LIMIT) }
    ensures found { (types : TypeTable) (s : PlainSort) (x : PlainShape) →
        Means types s x → height x < SHAPE_LIMIT → shape_of_sort types s ≡ Ok x }
    ensures declared { (types : TypeTable) (s : PlainSort) (x : PlainShape) → IsTypeTable types →
        shape_of_sort types s ≡ Ok x → IsDeclared (tuple_types types) x }
    // types
    ensures none { IsTypeTable [] }
    ensures enumeration { (types more : TypeTable) (w : List ℕ) (from many : ℕ) → IsTypeTable types →
        with_name types w (constants w from many) ≡ Ok more → IsTypeTable more }
    ensures tuple { (types more : TypeTable) (w : List ℕ) (fields : List SourceDeclared) (s : PlainShape) →
        IsTypeTable types → tuple_shape types w fields ≡ Ok s → with_name types w s ≡ Ok more → IsTypeTable more }
{}

/// Types and constants of a text stay such if one more type is declared.
pub fn text_types_law()
    ensures none { AreTextTypes no_types }
    ensures more { (t more : PlainTextTypes) (d : SourceType) → AreTextTypes t → with_type t d ≡ Ok more →
        AreTextTypes more }
{}

/// The types and constants with those of a declaration are the ones that it declares. There are no others: if there are
/// such, they are found, so that a declaration is refused only if there are none.
pub fn declarations_law()
    ensures sound { (t u : PlainTextTypes) (d : SourceType) → AreTextTypes t → AreDistinct t.types →
        with_type t d ≡ Ok u → DeclaresType t d u }
    ensures found { (t u : PlainTextTypes) (d : SourceType) → DeclaresType t d u → with_type t d ≡ Ok u }
{}
