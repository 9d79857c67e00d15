//! The names that terms read.

ghost use Rattle.std.specs.Prelude.{◌≡◌, IfOk};
ghost use Rattle.ioa_terms.specs.Bindings.{same_name};

use ioa_values::Word;
use std::alloc::{AllocError, Global};
use std::hash::{Hash, Hasher};

/// A name that a term reads (profile). A look-up, an assignment and a slot are of such names. An invariant reads those
/// of the last two forms, all other terms read words.
pub enum Name {
    /// A parameter, a variable or a constant, by its word.
    Word(Word),
    /// `x@k`: a state variable of a node.
    Variable {
        /// The variable's word.
        name: Word,
        /// The node's number.
        node: i64,
    },
    /// `queue(i, j)`: what waits on a channel.
    Queue {
        /// The number of the node that sends.
        from: i64,
        /// The number of the node that receives.
        to: i64,
    },
}

/// By hand, so that crates above do not prove again how the parts are let go (DECISIONS).
impl Drop for Name {
    fn drop(self) {
        match self {
            Name::Word(_) | Name::Variable { name: _, node: _ } | Name::Queue { from: _, to: _ } =>
                {}
        }
    }
}

impl Name {
    /// An equal name with its own memory.
    pub fn try_copy(&self, alloc: Global) -> Result<Self, AllocError>
        ensures { IfOk result (λ n. n ≡ self.now) }
    {
        match self {
            Name::Word(word) => Ok(Name::Word(word.try_copy(alloc)?)),
            Name::Variable { name, node } => Ok(Name::Variable {
                name: name.try_copy(alloc)?,
                node: *node,
            }),
            Name::Queue { from, to } => Ok(Name::Queue {
                from: *from,
                to: *to,
            }),
        }
    }

    /// Whether two names are the same.
    fn is_same(&self, other: &Self) -> bool
        ensures { result ≡ same_name self.now other.now }
    {
        match (self, other) {
            (Name::Word(word), Name::Word(other)) => word == other,
            (
                Name::Variable { name, node },
                Name::Variable {
                    name: other,
                    node: other_node,
                },
            ) => name == other && node == other_node,
            (
                Name::Queue { from, to },
                Name::Queue {
                    from: other_from,
                    to: other_to,
                },
            ) => from == other_from && to == other_to,
            _ => false,
        }
    }
}

impl PartialEq for Name {
    ghost use Rattle.ioa_terms.specs.SameNames.{same_name_partial};
    ghost use Rattle.ioa_terms.specs.Bindings.{same_name};

    ghost eq = { same_name };

    ghost laws = { same_name_partial };

    fn eq(&self, other: &Self) -> bool {
        self.is_same(other)
    }
}

impl Eq for Name {
    ghost use Rattle.ioa_terms.specs.SameNames.{same_name_total};

    ghost laws = { same_name_total };
}

impl Hash for Name {
    ghost use Rattle.ioa_terms.specs.SameNames.{hashed_name, same_name_hashed};

    ghost hash_input = { hashed_name };

    ghost respects_eq = { same_name_hashed };

    fn hash<H: Hasher>(&self, state: &mut H) {
        match self {
            Name::Word(word) => word.hash(state),
            Name::Variable { name, node } => {
                name.hash(state);
                node.hash(state);
            }
            Name::Queue { from, to } => {
                from.hash(state);
                to.hash(state);
            }
        }
    }
}
