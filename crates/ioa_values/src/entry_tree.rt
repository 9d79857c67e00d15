//! Trees of entries, of which finite sets and finite maps are made. Trees are shared and never changed: an operation
//! makes the few nodes that are new and takes all else from the tree that it is given.

ghost use Rattle.std.specs.Prelude.{◌≡◌, ◌+◌, ◌++◌, ◌^◌, ◌<◌, ◌≤◌, ◌∷◌, [], max, IfOk, Some, drop, length, slice_get};
ghost use Rattle.std.specs.Option.{option_copied};
ghost use Rattle.ioa_values.specs.Canonical.{AllEntriesCanonical, IsCanonicalEntry};
ghost use Rattle.ioa_values.specs.Collections.{IsAscending, keys_of, value_at, with_entry, without_key};
ghost use Rattle.ioa_values.specs.EntryTrees.{entries_in, height_in, around, DifferBy, IsHeightOver, IsGrown};
ghost use Rattle.ioa_values.specs.EntryTrees.{entries_with};

use crate::value::Value;
use std::alloc::{AllocError, Global};
use std::cmp::Ordering;
use std::marker::Model;
use std::sync::Arc;

/// One or more entries of keys and values in a tree. A contract sees the entries in order, and how many levels the tree
/// has. The two trees below a node differ by one level at most (an AVL tree), so the levels are at most about one and a
/// half times the logarithm of the entries.
#[cycle(value)]
#[derive(Debug, Drop)]
pub(crate) struct EntryTree {
    /// What comes in front of the node's entry.
    left: Option<Arc<EntryTree>>,
    /// The entry: a key and its value.
    entry: Arc<(Value, Value)>,
    /// What comes behind the entry.
    right: Option<Arc<EntryTree>>,
    /// How many entries there are.
    len: usize,
    /// How many levels there are.
    height: usize,
}

impl Model for EntryTree {
    ghost use base.Stored.{coded_ℕ, coded_list, coded×};
    ghost use Rattle.ioa_values.specs.Canonical.{AllEntriesCanonical};
    ghost use Rattle.ioa_values.specs.DataCode.{data_code};
    ghost use Rattle.ioa_values.specs.EntryTrees.{EntriesAndHeight, around, IsBalanced};

    ghost Value = { EntriesAndHeight };

    ghost coded = { coded× (coded_list (coded× data_code data_code)) coded_ℕ };

    ghost view = { λ t. (around t.left t.entry.value t.right, t.height) };

    ghost invariant = { λ t. IsBalanced t.left t.right t.len t.height
        × AllEntriesCanonical (around t.left t.entry.value t.right) };

    ghost use Rattle.ioa_values.specs.Weight.{pairs_weight};

    ghost size = { λ d. pairs_weight d.0 };

    ghost use Rattle.ioa_values.specs.EntryTreeWeights.{deep-le-tree};

    ghost size_decreases = { λ t h. deep-le-tree t.left t.entry t.right t.len t.height };
}

impl EntryTree {
    /// A tree of two trees whose levels differ by one at most, and an entry between them.
    #[inline(always)]
    fn new(
        alloc: Global,
        left: Option<Arc<EntryTree>>,
        entry: Arc<(Value, Value)>,
        right: Option<Arc<EntryTree>>,
    ) -> Result<Arc<EntryTree>, AllocError>
        requires { DifferBy 1 (height_in left) (height_in right) }
        ensures entries { IfOk result (λ t. t.value.0 ≡ around left entry.value right) }
        ensures height { IfOk result (λ t. t.value.1 ≡ max (height_in left) (height_in right) + 1) }
    {
        tree_law(&left);
        tree_law(&right);
        entry_law(&entry);
        let len = match count_of(&left).checked_add(count_of(&right)) {
            Some(len) if len < usize::MAX => len + 1,
            _ => return Err(AllocError),
        };
        let height = height_of(&left).max(height_of(&right)) + 1;
        let tree = EntryTree {
            left,
            entry,
            right,
            len,
            height,
        };
        Ok(Arc::new(alloc, tree)?)
    }

    /// The same, of parts that stay with others.
    fn shared(
        alloc: Global,
        left: &Option<Arc<EntryTree>>,
        entry: &Arc<(Value, Value)>,
        right: &Option<Arc<EntryTree>>,
    ) -> Result<Arc<EntryTree>, AllocError>
        requires { DifferBy 1 (height_in left.now) (height_in right.now) }
        ensures entries { IfOk result (λ t. t.value.0 ≡ around left.now entry.now.value right.now) }
        ensures height { IfOk result (λ t. t.value.1 ≡ max (height_in left.now) (height_in right.now) + 1) }
    {
        EntryTree::new(alloc, share(left)?, Arc::try_clone(entry)?, share(right)?)
    }

    /// A tree of two trees whose levels differ by two at most, and an entry between them: parts of the higher one go to
    /// the other side.
    #[inline(always)]
    fn balanced(
        alloc: Global,
        left: Option<Arc<EntryTree>>,
        entry: Arc<(Value, Value)>,
        right: Option<Arc<EntryTree>>,
    ) -> Result<Arc<EntryTree>, AllocError>
        requires { DifferBy 2 (height_in left) (height_in right) }
        ensures entries { IfOk result (λ t. t.value.0 ≡ around left entry.value right) }
        ensures height { IfOk result (λ t. IsHeightOver (height_in left) (height_in right) t.value.1) }
    {
        if height_of(&left).saturating_sub(height_of(&right)) > 1 {
            EntryTree::turned_right(alloc, &left, &entry, &right)
        } else if height_of(&right).saturating_sub(height_of(&left)) > 1 {
            EntryTree::turned_left(alloc, &left, &entry, &right)
        } else {
            EntryTree::new(alloc, left, entry, right)
        }
    }

    /// The same of a left tree that is new.
    #[inline(always)]
    fn with_left(
        alloc: Global,
        left: Option<Arc<EntryTree>>,
        entry: &Arc<(Value, Value)>,
        right: &Option<Arc<EntryTree>>,
    ) -> Result<Arc<EntryTree>, AllocError>
        requires { DifferBy 2 (height_in left) (height_in right.now) }
        ensures entries { IfOk result (λ t. t.value.0 ≡ around left entry.now.value right.now) }
        ensures height { IfOk result (λ t. IsHeightOver (height_in left) (height_in right.now) t.value.1) }
    {
        EntryTree::balanced(alloc, left, Arc::try_clone(entry)?, share(right)?)
    }

    /// The same of a right tree that is new.
    #[inline(always)]
    fn with_right(
        alloc: Global,
        left: &Option<Arc<EntryTree>>,
        entry: &Arc<(Value, Value)>,
        right: Option<Arc<EntryTree>>,
    ) -> Result<Arc<EntryTree>, AllocError>
        requires { DifferBy 2 (height_in left.now) (height_in right) }
        ensures entries { IfOk result (λ t. t.value.0 ≡ around left.now entry.now.value right) }
        ensures height { IfOk result (λ t. IsHeightOver (height_in left.now) (height_in right) t.value.1) }
    {
        EntryTree::balanced(alloc, share(left)?, Arc::try_clone(entry)?, right)
    }

    /// The same where the left tree is two levels higher: the tree on its right goes to the other side, or if that is
    /// the higher part, the half of it that is next.
    #[inline(never)]
    fn turned_right(
        alloc: Global,
        left: &Option<Arc<EntryTree>>,
        entry: &Arc<(Value, Value)>,
        right: &Option<Arc<EntryTree>>,
    ) -> Result<Arc<EntryTree>, AllocError>
        requires { height_in left.now ≡ height_in right.now + 2 }
        ensures entries { IfOk result (λ t. t.value.0 ≡ around left.now entry.now.value right.now) }
        ensures height { IfOk result (λ t. IsHeightOver (height_in left.now) (height_in right.now) t.value.1) }
    {
        let Some(higher) = left else { unreachable!() };
        let higher: &EntryTree = higher;
        if height_of(&higher.left) >= height_of(&higher.right) {
            let behind = Some(EntryTree::shared(alloc, &higher.right, entry, right)?);
            return EntryTree::shared(alloc, &higher.left, &higher.entry, &behind);
        }
        let Some(middle) = &higher.right else {
            unreachable!()
        };
        let middle: &EntryTree = middle;
        let front = Some(EntryTree::shared(alloc, &higher.left, &higher.entry, &middle.left)?);
        let behind = Some(EntryTree::shared(alloc, &middle.right, entry, right)?);
        EntryTree::shared(alloc, &front, &middle.entry, &behind)
    }

    /// The same where the right tree is two levels higher.
    #[inline(never)]
    fn turned_left(
        alloc: Global,
        left: &Option<Arc<EntryTree>>,
        entry: &Arc<(Value, Value)>,
        right: &Option<Arc<EntryTree>>,
    ) -> Result<Arc<EntryTree>, AllocError>
        requires { height_in right.now ≡ height_in left.now + 2 }
        ensures entries { IfOk result (λ t. t.value.0 ≡ around left.now entry.now.value right.now) }
        ensures height { IfOk result (λ t. IsHeightOver (height_in left.now) (height_in right.now) t.value.1) }
    {
        let Some(higher) = right else { unreachable!() };
        let higher: &EntryTree = higher;
        if height_of(&higher.right) >= height_of(&higher.left) {
            let front = Some(EntryTree::shared(alloc, left, entry, &higher.left)?);
            return EntryTree::shared(alloc, &front, &higher.entry, &higher.right);
        }
        let Some(middle) = &higher.left else {
            unreachable!()
        };
        let middle: &EntryTree = middle;
        let front = Some(EntryTree::shared(alloc, left, entry, &middle.left)?);
        let behind = Some(EntryTree::shared(alloc, &middle.right, &higher.entry, &higher.right)?);
        EntryTree::shared(alloc, &front, &middle.entry, &behind)
    }

    /// Two trees of any levels, and an entry between them, as one tree. Costs as many nodes as the levels differ by.
    fn joined(
        alloc: Global,
        left: &Option<Arc<EntryTree>>,
        entry: &Arc<(Value, Value)>,
        right: &Option<Arc<EntryTree>>,
    ) -> Result<Arc<EntryTree>, AllocError>
        ensures entries { IfOk result (λ t. t.value.0 ≡ around left.now entry.now.value right.now) }
        ensures height { IfOk result (λ t. IsGrown (max (height_in left.now) (height_in right.now)) t.value.1) }
    {
        match (left, right) {
            (Some(higher), _) if height_of(left).saturating_sub(height_of(right)) > 1 => {
                let higher: &EntryTree = higher;
                let behind = EntryTree::joined(alloc, &higher.right, entry, right)?;
                EntryTree::with_right(alloc, &higher.left, &higher.entry, Some(behind))
            }
            (_, Some(higher)) if height_of(right).saturating_sub(height_of(left)) > 1 => {
                let higher: &EntryTree = higher;
                let front = EntryTree::joined(alloc, left, entry, &higher.left)?;
                EntryTree::with_left(alloc, Some(front), &higher.entry, &higher.right)
            }
            _ => EntryTree::shared(alloc, left, entry, right),
        }
    }

    /// The tree of ascending entries, or none if there are none.
    #[tactic(auto, using(crate::proofs::EntryTrees::split_at))]
    pub(crate) fn of_entries(
        alloc: Global,
        entries: &[(Value, Value)],
    ) -> Result<Option<Arc<EntryTree>>, AllocError>
        ensures { IfOk result (λ t. entries_in t ≡ entries.now) }
    {
        let middle = entries.len() / 2;
        match entries.get(middle) {
            None => Ok(None),
            Some((key, value)) => {
                let left = EntryTree::of_entries(alloc, &entries[..middle])?;
                let right = EntryTree::of_entries(alloc, &entries[middle + 1..])?;
                let entry = entry_of(alloc, key, value)?;
                Ok(Some(EntryTree::joined(alloc, &left, &entry, &right)?))
            }
        }
    }

    /// The same of keys alone, each with the same value.
    #[tactic(auto, using(crate::proofs::EntryTrees::keys_joined))]
    pub(crate) fn of_keys(
        alloc: Global,
        keys: &[Value],
        value: &Value,
    ) -> Result<Option<Arc<EntryTree>>, AllocError>
        ensures { IfOk result (λ t. entries_in t ≡ entries_with value.now keys.now) }
    {
        let middle = keys.len() / 2;
        match keys.get(middle) {
            None => Ok(None),
            Some(key) => {
                let left = EntryTree::of_keys(alloc, &keys[..middle], value)?;
                let right = EntryTree::of_keys(alloc, &keys[middle + 1..], value)?;
                let entry = entry_of(alloc, key, value)?;
                Ok(Some(EntryTree::joined(alloc, &left, &entry, &right)?))
            }
        }
    }

    /// The entry at a position.
    #[tactic(auto, using(crate::proofs::EntryTrees::got_front, crate::proofs::EntryTrees::got_here, crate::proofs::EntryTrees::got_behind))]
    pub(crate) fn at(&self, position: usize) -> &Arc<(Value, Value)>
        requires { position < length self.now.0 }
        ensures { slice_get self.now.0 position ≡ Some result.now.value }
    {
        let count = count_of(&self.left);
        match (position.cmp(&count), &self.left, &self.right) {
            (Ordering::Equal, _, _) => &self.entry,
            (Ordering::Less, Some(left), _) => left.at(position),
            (Ordering::Greater, _, Some(right)) => right.at(position - count - 1),
            _ => unreachable!(),
        }
    }

    /// The tree of one entry.
    fn of(alloc: Global, entry: &Arc<(Value, Value)>) -> Result<Arc<EntryTree>, AllocError>
        ensures entries { IfOk result (λ t. t.value.0 ≡ entry.now.value ∷ []) }
        ensures height { IfOk result (λ t. t.value.1 ≡ 1) }
    {
        EntryTree::new(alloc, None, Arc::try_clone(entry)?, None)
    }

    /// How many entries it has.
    pub(crate) fn len(&self) -> usize
        ensures { result ≡ length self.now.0 }
    {
        self.len
    }

    /// What every tree keeps; does nothing.
    pub(crate) fn law(&self)
        ensures some { 0 < length self.now.0 }
        ensures within { length self.now.0 < 2 ^ 64 }
        ensures low { self.now.1 ≤ length self.now.0 }
        ensures canonical { AllEntriesCanonical self.now.0 }
    {
        let _left = &self.left;
        let _len = self.len();
    }
}

/// The value at a key in a tree whose keys ascend, if the key is one of them. Costs a comparison a level.
#[tactic(auto, using(crate::proofs::EntryTrees::getting))]
pub(crate) fn value_of<'a>(tree: &'a Option<Arc<EntryTree>>, key: &Value) -> Option<&'a Value>
    requires { IsAscending (keys_of (entries_in tree.now)) }
    ensures { option_copied result ≡ value_at key.now (entries_in tree.now) }
{
    let mut part = tree;
    while let Some(tree) = part {
        let tree: &EntryTree = tree;
        match key.order(&tree.entry.0) {
            Ordering::Less => part = &tree.left,
            Ordering::Equal => return Some(&tree.entry.1),
            Ordering::Greater => part = &tree.right,
        }
    }
    None
}

/// The tree of keys that ascend in which the key of an entry has its value, and every other key what it had.
#[tactic(auto, using(crate::proofs::EntryTrees::entering))]
pub(crate) fn with_entry(
    alloc: Global,
    tree: &Option<Arc<EntryTree>>,
    entry: &Arc<(Value, Value)>,
) -> Result<Arc<EntryTree>, AllocError>
    requires { IsAscending (keys_of (entries_in tree.now)) }
    ensures entries { IfOk result
        (λ t. t.value.0 ≡ with_entry entry.now.value.0 entry.now.value.1 (entries_in tree.now)) }
    ensures height { IfOk result (λ t. IsGrown (height_in tree.now) t.value.1) }
{
    let Some(tree) = tree else {
        return EntryTree::of(alloc, entry);
    };
    let tree: &EntryTree = tree;
    match entry.0.order(&tree.entry.0) {
        Ordering::Less => {
            let left = with_entry(alloc, &tree.left, entry)?;
            EntryTree::with_left(alloc, Some(left), &tree.entry, &tree.right)
        }
        Ordering::Equal => EntryTree::shared(alloc, &tree.left, entry, &tree.right),
        Ordering::Greater => {
            let right = with_entry(alloc, &tree.right, entry)?;
            EntryTree::with_right(alloc, &tree.left, &tree.entry, Some(right))
        }
    }
}

/// The tree of keys that ascend without a key.
#[tactic(auto, using(crate::proofs::EntryTrees::leaving))]
pub(crate) fn without_key(
    alloc: Global,
    tree: &Option<Arc<EntryTree>>,
    key: &Value,
) -> Result<Option<Arc<EntryTree>>, AllocError>
    requires { IsAscending (keys_of (entries_in tree.now)) }
    ensures entries { IfOk result (λ t. entries_in t ≡ without_key key.now (entries_in tree.now)) }
    ensures height { IfOk result (λ t. IsGrown (height_in t) (height_in tree.now)) }
{
    let Some(tree) = tree else {
        return Ok(None);
    };
    let tree: &EntryTree = tree;
    match key.order(&tree.entry.0) {
        Ordering::Less => {
            let left = without_key(alloc, &tree.left, key)?;
            Ok(Some(EntryTree::with_left(alloc, left, &tree.entry, &tree.right)?))
        }
        Ordering::Equal => both(alloc, &tree.left, &tree.right),
        Ordering::Greater => {
            let right = without_key(alloc, &tree.right, key)?;
            Ok(Some(EntryTree::with_right(alloc, &tree.left, &tree.entry, right)?))
        }
    }
}

/// Two trees whose levels differ by one at most, as one tree: the first entry on the right comes between them.
#[tactic(auto, using(crate::proofs::EntryTrees::first_and_rest))]
fn both(
    alloc: Global,
    left: &Option<Arc<EntryTree>>,
    right: &Option<Arc<EntryTree>>,
) -> Result<Option<Arc<EntryTree>>, AllocError>
    requires { DifferBy 1 (height_in left.now) (height_in right.now) }
    ensures entries { IfOk result (λ t. entries_in t ≡ entries_in left.now ++ entries_in right.now) }
    ensures height { IfOk result (λ t. IsGrown (height_in t) (max (height_in left.now) (height_in right.now) + 1)) }
{
    let Some(tree) = right else {
        return share(left);
    };
    tree.law();
    let rest = without_first(alloc, tree)?;
    Ok(Some(EntryTree::with_right(alloc, left, tree.at(0), rest)?))
}

/// A tree without its first entry.
#[tactic(auto, using(crate::proofs::EntryTrees::rest_of_all))]
fn without_first(alloc: Global, tree: &EntryTree) -> Result<Option<Arc<EntryTree>>, AllocError>
    ensures entries { IfOk result (λ t. entries_in t ≡ drop 1 tree.now.0) }
    ensures height { IfOk result (λ t. IsGrown (height_in t) tree.now.1) }
{
    let Some(left) = &tree.left else {
        return share(&tree.right);
    };
    left.law();
    let left = without_first(alloc, left)?;
    Ok(Some(EntryTree::with_left(alloc, left, &tree.entry, &tree.right)?))
}

/// The entry of a tree at a position.
pub(crate) fn entry_at(tree: &Option<Arc<EntryTree>>, position: usize) -> &(Value, Value)
    requires { position < length (entries_in tree.now) }
    ensures { slice_get (entries_in tree.now) position ≡ Some result.now }
{
    match tree {
        None => unreachable!(),
        Some(tree) => {
            let entry: &(Value, Value) = tree.at(position);
            entry
        }
    }
}

/// An entry of a key and a value, to be shared.
pub(crate) fn entry_of(
    alloc: Global,
    key: &Value,
    value: &Value,
) -> Result<Arc<(Value, Value)>, AllocError>
    ensures entry { IfOk result (λ e. e.value ≡ (key.now, value.now)) }
    ensures canonical { IfOk result (λ e. IsCanonicalEntry (key.now, value.now)) }
{
    Ok(Arc::new(alloc, (key.try_copy()?, value.try_copy()?))?)
}

/// How many entries a tree has.
pub(crate) fn count_of(tree: &Option<Arc<EntryTree>>) -> usize
    ensures { result ≡ length (entries_in tree.now) }
{
    match tree {
        None => 0,
        Some(tree) => tree.len(),
    }
}

/// How many levels it has.
fn height_of(tree: &Option<Arc<EntryTree>>) -> usize
    ensures { result ≡ height_in tree.now }
{
    match tree {
        None => 0,
        Some(tree) => tree.height,
    }
}

/// What each tree keeps; does nothing.
fn tree_law(tree: &Option<Arc<EntryTree>>)
    ensures low { height_in tree.now ≤ length (entries_in tree.now) }
    ensures canonical { AllEntriesCanonical (entries_in tree.now) }
{
    if let Some(tree) = tree {
        tree.law();
    }
}

/// What each entry keeps; does nothing.
fn entry_law(entry: &Arc<(Value, Value)>)
    ensures { IsCanonicalEntry entry.now.value }
{
    let (key, value): &(Value, Value) = entry;
    key.canonical_law();
    value.canonical_law();
}

/// The same tree once more.
pub(crate) fn share(tree: &Option<Arc<EntryTree>>) -> Result<Option<Arc<EntryTree>>, AllocError>
    ensures entries { IfOk result (λ t. entries_in t ≡ entries_in tree.now) }
    ensures height { IfOk result (λ t. height_in t ≡ height_in tree.now) }
{
    match tree {
        None => Ok(None),
        Some(tree) => Ok(Some(Arc::try_clone(tree)?)),
    }
}
