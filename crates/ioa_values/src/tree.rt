//! Trees of the items of a sequence. Trees are shared and never changed: an operation makes the few pairs
//! that are new and takes all else from the trees that it is given.

ghost use Rattle.std.specs.Prelude.{◌≡◌, ◌++◌, ◌∷◌, ◌<◌, [], IfOk, IfSome, Some, length, slice_get};
ghost use Rattle.std.specs.List.{remove};
ghost use Rattle.ioa_values.specs.Data.{items_of};
ghost use Rattle.ioa_values.specs.DataOrder.{items_cmp};
ghost use Rattle.ioa_values.specs.ItemKinds.{AreOfKind};
ghost use Rattle.ioa_values.specs.ItemLists.{AreItems, items_in, without_one};

use crate::item_kind::ItemKind;
use crate::value::Value;
use std::alloc::{AllocError, Global};
use std::cmp::Ordering;
use std::marker::Model;
use std::sync::Arc;

/// One or more items in a tree. A contract sees the list of the items.
///
/// A list of trees is a tree as well: a chain of pairs that are links. A chain in front of a sequence has
/// its first tree on the left of each link and the others on the right, a chain at the back the other way
/// round. The trees become larger from the end where items come and go, so a chain has few links.
#[cycle(value)]
#[derive(Debug, Drop)]
pub(crate) struct Tree {
    form: TreeForm,
}

/// What a tree is.
#[cycle(value)]
#[derive(Debug, Drop)]
enum TreeForm {
    /// One item.
    Item(Value),
    /// The items of one tree and, behind them, those of another; how many items the first one has, and how
    /// many both have; what is known of these; and whether the two are a list of trees, and not one tree.
    Pair {
        left: Arc<Tree>,
        right: Arc<Tree>,
        left_len: usize,
        len: usize,
        kind: ItemKind,
        is_link: bool,
    },
}

impl Model for Tree {
    ghost use Rattle.std.specs.Prelude.{List};
    ghost use Rattle.std.specs.Coded.{coded_list};
    ghost use Rattle.ioa_values.specs.Data.{Data};
    ghost use Rattle.ioa_values.specs.DataCode.{data_code};

    ghost Value = { List Data };

    ghost coded = { coded_list data_code };

    ghost use Rattle.ioa_values.specs.Trees.{tree_items, IsTree};

    ghost view = { λ t. tree_items t.form };

    ghost invariant = { λ t. IsTree t.form };

    ghost use Rattle.ioa_values.specs.Weight.{weights};

    ghost size = { weights };

    ghost use Rattle.ioa_values.specs.TreeWeights.{deep-le-weights};

    ghost size_decreases = { λ t h. deep-le-weights t.form h };
}

impl Tree {
    /// The tree of one item.
    pub(crate) fn of(alloc: Global, item: Value) -> Result<Arc<Tree>, AllocError>
        ensures { IfOk result (λ t. t.value ≡ item ∷ []) }
    {
        item.canonical_law();
        let form = TreeForm::Item(item);
        Ok(Arc::new(alloc, Tree { form })?)
    }

    /// The items of two trees, one behind the other: as one tree, or as a list of two.
    #[tactic(auto, using(crate::proofs::ItemKinds::of_common_kind))]
    pub(crate) fn pair(
        alloc: Global,
        left: Arc<Tree>,
        right: Arc<Tree>,
        is_link: bool,
    ) -> Result<Arc<Tree>, AllocError>
        ensures { IfOk result (λ t. t.value ≡ left.value ++ right.value) }
    {
        left.items_law();
        right.items_law();
        let left_len = left.len();
        let Some(len) = left_len.checked_add(right.len()) else {
            return Err(AllocError);
        };
        let kind = left.kind().join(right.kind());
        let form = TreeForm::Pair {
            left,
            right,
            left_len,
            len,
            kind,
            is_link,
        };
        Ok(Arc::new(alloc, Tree { form })?)
    }

    /// What every tree keeps of its items; does nothing.
    pub(crate) fn items_law(&self)
        ensures { AreItems self.now }
    {
        let _form = &self.form;
    }

    /// How many items it has.
    pub(crate) fn len(&self) -> usize
        ensures { result ≡ length self.now }
    {
        match &self.form {
            TreeForm::Item(_) => 1,
            TreeForm::Pair { len, .. } => *len,
        }
    }

    /// What is known of all its items.
    pub(crate) fn kind(&self) -> ItemKind
        ensures { AreOfKind result self.now }
    {
        match &self.form {
            TreeForm::Item(item) => ItemKind::of(item),
            TreeForm::Pair { kind, .. } => *kind,
        }
    }

    /// The item at a position.
    pub(crate) fn at(&self, position: usize) -> &Value
        requires { position < length self.now }
        ensures { slice_get self.now position ≡ Some result.now }
    {
        match &self.form {
            TreeForm::Item(item) => item,
            TreeForm::Pair {
                left,
                right,
                left_len,
                ..
            } => {
                if position < *left_len {
                    left.at(position)
                } else {
                    right.at(position - *left_len)
                }
            }
        }
    }

    /// The order of the items of two trees, if the trees have the same form, which shared ones have: the first
    /// two items that differ decide.
    #[cycle(comparing)]
    pub(crate) fn compare_alike(&self, other: &Self) -> Option<Ordering>
        ensures { IfSome result (λ o. o ≡ items_cmp (items_of self.now) (items_of other.now)) }
    {
        match (&self.form, &other.form) {
            (TreeForm::Item(item), TreeForm::Item(value)) => Some(item.compare(value)),
            (
                TreeForm::Pair { left, right, .. },
                TreeForm::Pair {
                    left: first,
                    right: second,
                    ..
                },
            ) if left.len() == first.len() => match left.compare_alike(first)? {
                Ordering::Equal => right.compare_alike(second),
                decided => Some(decided),
            },
            _ => None,
        }
    }

    /// The chain at the back of a sequence with one more tree at its end. If the last tree is not much larger
    /// than the new one, the two become one, which is put behind the others in its turn; a whole chain that is
    /// not much larger becomes one tree with it.
    pub(crate) fn push_last(
        alloc: Global,
        chain: &Arc<Tree>,
        last: Arc<Tree>,
    ) -> Result<Arc<Tree>, AllocError>
        ensures { IfOk result (λ t. t.value ≡ chain.now.value ++ last.value) }
    {
        let tree: &Tree = chain;
        if is_about(tree.len(), last.len()) {
            return Tree::pair(alloc, Arc::try_clone(chain)?, last, false);
        }
        match &tree.form {
            TreeForm::Pair {
                left,
                right,
                is_link: true,
                ..
            } if is_about(right.len(), last.len()) => {
                let last = Tree::pair(alloc, Arc::try_clone(right)?, last, false)?;
                Tree::push_last(alloc, left, last)
            }
            _ => Tree::pair(alloc, Arc::try_clone(chain)?, last, true),
        }
    }

    /// The chain in front of a sequence with one more tree before all others, in the same way.
    pub(crate) fn push_first(
        alloc: Global,
        chain: &Arc<Tree>,
        first: Arc<Tree>,
    ) -> Result<Arc<Tree>, AllocError>
        ensures { IfOk result (λ t. t.value ≡ first.value ++ chain.now.value) }
    {
        let tree: &Tree = chain;
        if is_about(tree.len(), first.len()) {
            return Tree::pair(alloc, first, Arc::try_clone(chain)?, false);
        }
        match &tree.form {
            TreeForm::Pair {
                left,
                right,
                is_link: true,
                ..
            } if is_about(left.len(), first.len()) => {
                let first = Tree::pair(alloc, first, Arc::try_clone(left)?, false)?;
                Tree::push_first(alloc, right, first)
            }
            _ => Tree::pair(alloc, first, Arc::try_clone(chain)?, true),
        }
    }

    /// A tree without its first item, and what comes behind it: the chain in front of a sequence, if
    /// anything is left.
    pub(crate) fn without_first(
        alloc: Global,
        tree: &Arc<Tree>,
        behind: Option<Arc<Tree>>,
    ) -> Result<Option<Arc<Tree>>, AllocError>
        ensures { IfOk result (λ t. items_in t ≡ without_one tree.now.value ++ items_in behind) }
    {
        let opened: &Tree = tree;
        match &opened.form {
            TreeForm::Item(_) => Ok(behind),
            TreeForm::Pair { left, right, .. } => {
                let right = Arc::try_clone(right)?;
                let behind = match behind {
                    None => right,
                    Some(behind) => Tree::pair(alloc, right, behind, true)?,
                };
                Tree::without_first(alloc, left, Some(behind))
            }
        }
    }

    /// A tree without the item at a position, if any others are left. A list of trees stays a list of trees.
    #[tactic(auto, using(crate::proofs::Removing::removing_rules))]
    pub(crate) fn without_item(
        alloc: Global,
        tree: &Arc<Tree>,
        position: usize,
    ) -> Result<Option<Arc<Tree>>, AllocError>
        requires { position < length tree.now.value }
        ensures { IfOk result (λ t. items_in t ≡ remove tree.now.value position) }
    {
        let opened: &Tree = tree;
        match &opened.form {
            TreeForm::Item(_) => Ok(None),
            TreeForm::Pair {
                left,
                right,
                left_len: count,
                is_link,
                ..
            } => {
                if position < *count {
                    match Tree::without_item(alloc, left, position)? {
                        None => Ok(Some(Arc::try_clone(right)?)),
                        Some(left) => {
                            let right = Arc::try_clone(right)?;
                            Ok(Some(Tree::balanced(alloc, left, right, *is_link)?))
                        }
                    }
                } else {
                    match Tree::without_item(alloc, right, position - *count)? {
                        None => Ok(Some(Arc::try_clone(left)?)),
                        Some(right) => {
                            let left = Arc::try_clone(left)?;
                            Ok(Some(Tree::balanced(alloc, left, right, *is_link)?))
                        }
                    }
                }
            }
        }
    }

    /// Two trees, one of which may have become too large beside the other: as one tree, in which parts of the larger
    /// one then go to the other side, or as a list of two.
    fn balanced(
        alloc: Global,
        left: Arc<Tree>,
        right: Arc<Tree>,
        is_link: bool,
    ) -> Result<Arc<Tree>, AllocError>
        ensures { IfOk result (λ t. t.value ≡ left.value ++ right.value) }
    {
        if is_link {
            Tree::pair(alloc, left, right, true)
        } else if is_too_large(left.len(), right.len()) {
            Tree::turned_right(alloc, &left, right)
        } else if is_too_large(right.len(), left.len()) {
            Tree::turned_left(alloc, left, &right)
        } else {
            Tree::pair(alloc, left, right, false)
        }
    }

    /// Two trees as one, of which the right one is the larger: its left part goes to the left, or if that is the
    /// larger part, the half of it that is next.
    fn turned_left(
        alloc: Global,
        left: Arc<Tree>,
        right: &Arc<Tree>,
    ) -> Result<Arc<Tree>, AllocError>
        ensures { IfOk result (λ t. t.value ≡ left.value ++ right.now.value) }
    {
        let opened: &Tree = right;
        match &opened.form {
            TreeForm::Item(_) => Tree::pair(alloc, left, Arc::try_clone(right)?, false),
            TreeForm::Pair {
                left: inner,
                right: outer,
                ..
            } => {
                let outer = Arc::try_clone(outer)?;
                let opened: &Tree = inner;
                match &opened.form {
                    TreeForm::Pair {
                        left: first,
                        right: second,
                        ..
                    } if is_inner_large(inner.len(), outer.len()) => {
                        let left = Tree::pair(alloc, left, Arc::try_clone(first)?, false)?;
                        let right = Tree::pair(alloc, Arc::try_clone(second)?, outer, false)?;
                        Tree::pair(alloc, left, right, false)
                    }
                    _ => {
                        let left = Tree::pair(alloc, left, Arc::try_clone(inner)?, false)?;
                        Tree::pair(alloc, left, outer, false)
                    }
                }
            }
        }
    }

    /// The same with the larger one on the left.
    fn turned_right(
        alloc: Global,
        left: &Arc<Tree>,
        right: Arc<Tree>,
    ) -> Result<Arc<Tree>, AllocError>
        ensures { IfOk result (λ t. t.value ≡ left.now.value ++ right.value) }
    {
        let opened: &Tree = left;
        match &opened.form {
            TreeForm::Item(_) => Tree::pair(alloc, Arc::try_clone(left)?, right, false),
            TreeForm::Pair {
                left: outer,
                right: inner,
                ..
            } => {
                let outer = Arc::try_clone(outer)?;
                let opened: &Tree = inner;
                match &opened.form {
                    TreeForm::Pair {
                        left: first,
                        right: second,
                        ..
                    } if is_inner_large(inner.len(), outer.len()) => {
                        let left = Tree::pair(alloc, outer, Arc::try_clone(first)?, false)?;
                        let right = Tree::pair(alloc, Arc::try_clone(second)?, right, false)?;
                        Tree::pair(alloc, left, right, false)
                    }
                    _ => {
                        let right = Tree::pair(alloc, Arc::try_clone(inner)?, right, false)?;
                        Tree::pair(alloc, outer, right, false)
                    }
                }
            }
        }
    }

    /// A chain as one tree.
    pub(crate) fn one_tree(alloc: Global, chain: &Arc<Tree>) -> Result<Arc<Tree>, AllocError>
        ensures { IfOk result (λ t. t.value ≡ chain.now.value) }
    {
        let tree: &Tree = chain;
        match &tree.form {
            TreeForm::Pair {
                left,
                right,
                is_link: true,
                ..
            } => Tree::pair(alloc, Arc::try_clone(left)?, Arc::try_clone(right)?, false),
            _ => Arc::try_clone(chain),
        }
    }
}

/// Whether a tree of `len` items becomes one tree with a new one, which has `new` items: if it has at most
/// about twice as many.
fn is_about(len: usize, new: usize) -> bool {
    len / 2 <= new
}

/// Whether a tree of `len` items is too large beside one of `other` items: if it has more than three times as many.
fn is_too_large(len: usize, other: usize) -> bool {
    len.div_ceil(3) > other
}

/// Whether the inner part of the larger tree has to be opened too: if it has at least about twice as many items as
/// the outer one.
fn is_inner_large(inner: usize, outer: usize) -> bool {
    inner / 2 >= outer
}
