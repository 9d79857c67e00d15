//! Laws of sets and maps: what functions ensure that do nothing. They tell what the lists mean: a set
//! by its members, and a map by the values at its keys.

ghost use Rattle.std.specs.Prelude.{◌≡◌, List, Some, None, not, ◌||◌, ◌&&◌, if◌then◌else◌};
ghost use Rattle.std.specs.Option.{is_some};
ghost use Rattle.ioa_values.specs.Data.{Data};
ghost use Rattle.ioa_values.specs.DataOrder.{same};
ghost use Rattle.ioa_values.specs.Collections.{IsAscending, is_member, with_member, without_member, set_of, union};
ghost use Rattle.ioa_values.specs.Collections.{keys_of, value_at, with_entry, without_key};

/// A set is known by its members: two ascending lists with the same members are one list. A set with
/// one more member has that and what it had, one without a member has the others, the set of a list
/// has the values of the list, and the union of two sets has the members of either.
pub fn sets_law()
    ensures told { (xs ys : List Data) → IsAscending xs → IsAscending ys →
        ((d : Data) → is_member d xs ≡ is_member d ys) → xs ≡ ys }
    ensures with_member { (d e : Data) (xs : List Data) →
        is_member d (with_member e xs) ≡ (same d e || is_member d xs) }
    ensures without_member { (d e : Data) (xs : List Data) → IsAscending xs →
        is_member d (without_member e xs) ≡ (not (same d e) && is_member d xs) }
    ensures set_of { (d : Data) (ds : List Data) → is_member d (set_of ds) ≡ is_member d ds }
    ensures union { (d : Data) (xs ys : List Data) → is_member d (union xs ys) ≡ (is_member d xs || is_member d ys) }
{}

/// A map is known by the values at its keys: two maps in ascending order of keys with the same values
/// are one list. It has values at its keys alone. A map with an entry has its value at its key, and
/// one without a key has none there; at every other key each has what it had.
pub fn maps_law()
    ensures told { (es fs : List (Data × Data)) → IsAscending (keys_of es) → IsAscending (keys_of fs) →
        ((k : Data) → value_at k es ≡ value_at k fs) → es ≡ fs }
    ensures keys { (k : Data) (es : List (Data × Data)) → IsAscending (keys_of es) →
        is_some (value_at k es) ≡ is_member k (keys_of es) }
    ensures with_entry { (k l v : Data) (es : List (Data × Data)) →
        value_at k (with_entry l v es) ≡ (if same k l then Some v else value_at k es) }
    ensures without_key { (k l : Data) (es : List (Data × Data)) → IsAscending (keys_of es) →
        value_at k (without_key l es) ≡ (if same k l then None else value_at k es) }
{}
