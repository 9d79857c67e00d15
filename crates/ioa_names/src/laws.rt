//! Laws of names: what functions ensure that do nothing.

ghost use Rattle.std.specs.Prelude.{◌≡◌, ◌++◌, Ok};
ghost use Rattle.ioa_terms.specs.Sorted.{NameShapes};
ghost use Rattle.ioa_names.specs.NameTables.{AreDistinct, new_or, with_names};

/// Names are put behind others, and between others and the constants, exactly if they all differ.
pub fn names_law()
    ensures behind { (names more all : NameShapes) → with_names names more ≡ Ok all → all ≡ names ++ more }
    ensures differ { (names more all : NameShapes) → AreDistinct names → with_names names more ≡ Ok all →
        AreDistinct all }
    ensures found { (names more : NameShapes) → AreDistinct (names ++ more) →
        with_names names more ≡ Ok (names ++ more) }
    ensures between { (outer constants names n : NameShapes) → new_or outer constants names ≡ Ok n →
        AreDistinct (outer ++ constants) → AreDistinct names →
        (n ≡ names) × AreDistinct (outer ++ (names ++ constants)) }
    ensures passed { (outer constants names : NameShapes) → AreDistinct (outer ++ (names ++ constants)) →
        new_or outer constants names ≡ Ok names }
{}
