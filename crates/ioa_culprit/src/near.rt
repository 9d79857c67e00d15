//! Names that are near each other.

/// Whether two names are near each other, and each has two letters at least: one has a letter more, one letter is
/// another one, or two neighbours are exchanged.
pub(crate) fn is_near(name: &[u8], other: &[u8]) -> bool {
    if name.len() < 2 || other.len() < 2 {
        return false;
    }
    let front = same_front(name, other);
    is_step(
        name.get(front..).unwrap_or(&[]),
        other.get(front..).unwrap_or(&[]),
    )
}

/// How many letters two names have in common from the first on.
fn same_front(name: &[u8], other: &[u8]) -> usize {
    let most = name.len().min(other.len());
    for position in 0..most {
        if name[position] != other[position] {
            return position;
        }
    }
    most
}

/// Whether one step leads from one rest of a name to another that does not begin with the same letter.
fn is_step(name: &[u8], other: &[u8]) -> bool {
    has_more(name, other)
        || has_more(other, name)
        || has_another(name, other)
        || has_exchanged(name, other)
}

/// Whether the other rest has one letter more in front.
fn has_more(name: &[u8], other: &[u8]) -> bool {
    match other {
        [_, rest @ ..] => *rest == *name,
        [] => false,
    }
}

/// Whether the first letters alone differ.
fn has_another(name: &[u8], other: &[u8]) -> bool {
    match (name, other) {
        ([_, rest @ ..], [_, other @ ..]) => *rest == *other,
        _ => false,
    }
}

/// Whether the first two letters are exchanged.
fn has_exchanged(name: &[u8], other: &[u8]) -> bool {
    match (name, other) {
        ([a, b, rest @ ..], [c, d, other @ ..]) => *a == *d && *b == *c && *rest == *other,
        _ => false,
    }
}
