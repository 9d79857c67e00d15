//! Sequences of values, of which every operation costs about the same at any length.

ghost use Rattle.std.specs.Prelude.{◌≡◌, ◌+◌, ◌^◌, ◌++◌, ◌∷◌, ◌<◌, [], IfOk, IfSome, OnOk, Some, length, nat_eq};
ghost use Rattle.std.specs.Prelude.{slice_get};
ghost use Rattle.std.specs.List.{position_from, remove};
ghost use Rattle.std.specs.Option.{option_copied};
ghost use lib.Pointwise.{pointwise};
ghost use Rattle.ioa_values.specs.Collections.{is_member};
ghost use Rattle.ioa_values.specs.Data.{items_of};
ghost use Rattle.ioa_values.specs.DataOrder.{items_cmp, same};
ghost use Rattle.ioa_values.specs.ItemKinds.{AreOfKind};
ghost use Rattle.ioa_values.specs.ItemLists.{AreSequenceItems, items_in, without_one};

use crate::item_kind::ItemKind;
use crate::tree::Tree;
use crate::value::Value;
use std::alloc::{AllocError, Global};
use std::cmp::Ordering;
use std::marker::Model;
use std::sync::Arc;

/// A sequence of values. A contract sees the list of its items. An operation makes a new sequence, which
/// shares nearly all with the old one, and leaves the old one as it is.
#[cycle(value)]
#[derive(Debug)]
pub struct Sequence {
    /// The chain of trees in front, and the one at the back.
    front: Option<Arc<Tree>>,
    back: Option<Arc<Tree>>,
}

/// By hand, so that crates above do not prove again how the parts are let go (DECISIONS).
impl Drop for Sequence {
    #[cycle(letting_go)]
    #[inline(always)]
    fn drop(self) {
        let Sequence { front: _, back: _ } = self;
    }
}

impl Model for Sequence {
    ghost use Rattle.std.specs.Prelude.{List};
    ghost use Rattle.std.specs.Coded.{coded_list};
    ghost use Rattle.ioa_values.specs.Data.{Data};
    ghost use Rattle.ioa_values.specs.DataCode.{data_code};

    ghost Value = { List Data };

    ghost coded = { coded_list data_code };

    ghost use Rattle.std.specs.Prelude.{◌++◌};
    ghost use Rattle.ioa_values.specs.Collections.{is_member};
    ghost use Rattle.ioa_values.specs.Data.{items_of};
    ghost use Rattle.ioa_values.specs.DataOrder.{items_cmp, same};
    ghost use Rattle.ioa_values.specs.ItemKinds.{AreOfKind};
    ghost use Rattle.ioa_values.specs.ItemLists.{items_in, AreSequenceItems};

    ghost view = { λ s. items_in s.front ++ items_in s.back };

    ghost invariant = { λ s. AreSequenceItems (items_in s.front ++ items_in s.back) };

    ghost use Rattle.ioa_values.specs.Weight.{sequence_weight};

    ghost size = { sequence_weight };

    ghost use Rattle.ioa_values.specs.SequenceWeights.{deep-le-sequence};

    ghost size_decreases = { λ s h. deep-le-sequence s.front s.back };
}

impl Sequence {
    /// The sequence of no items; takes no memory.
    pub fn new() -> Self
        ensures { result ≡ [] }
    {
        Sequence {
            front: None,
            back: None,
        }
    }

    /// The sequence of the values of a list.
    pub fn from_vec(alloc: Global, values: Vec<Value>) -> Result<Self, AllocError>
        ensures { IfOk result (λ s. s ≡ values.items) }
    {
        let mut items = Sequence::new();
        for value in values {
            items = items.append(alloc, value)?;
        }
        Ok(items)
    }

    /// What every sequence keeps of its items; does nothing.
    pub(crate) fn items_law(&self)
        ensures { AreSequenceItems self.now }
    {
        let _front = &self.front;
    }

    /// How many items it has.
    pub fn len(&self) -> usize
        ensures items { result ≡ length self.now }
        ensures within { result < 2 ^ 63 }
    {
        item_count(&self.front) + item_count(&self.back)
    }

    /// Whether it has no item.
    pub fn is_empty(&self) -> bool
        ensures { result ≡ nat_eq (length self.now) 0 }
    {
        self.len() == 0
    }

    /// What is known of all its items. Costs the same at any length.
    #[tactic(auto, using(crate::proofs::ItemKinds::of_common_kind))]
    pub fn kind(&self) -> ItemKind
        ensures { AreOfKind result self.now }
    {
        match (&self.front, &self.back) {
            (Some(front), Some(back)) => front.kind().join(back.kind()),
            (Some(front), None) => front.kind(),
            (None, Some(back)) => back.kind(),
            (None, None) => ItemKind::Nothing,
        }
    }

    /// The item at a position. Costs time in proportion to the logarithm of the length.
    pub fn at(&self, position: usize) -> &Value
        requires { position < length self.now }
        ensures { slice_get self.now position ≡ Some result.now }
    {
        let count = item_count(&self.front);
        if position < count {
            item_at(&self.front, position)
        } else {
            item_at(&self.back, position - count)
        }
    }

    /// The first item.
    pub fn first(&self) -> Option<&Value>
        ensures { option_copied result ≡ slice_get self.now 0 }
    {
        if self.is_empty() {
            return None;
        }
        Some(self.at(0))
    }

    /// The position of the first item that is equal to a value, if there is one. Costs one comparison an item, up to
    /// that one.
    pub fn position_of(&self, value: &Value) -> Option<usize>
        ensures { result ≡ position_from (same value.now) 0 self.now }
    {
        for position in 0..self.len() {
            if value == self.at(position) {
                return Some(position);
            }
        }
        None
    }

    /// Whether a value is one of its items. Costs one comparison an item, up to the first that is equal.
    #[tactic(auto, using(crate::proofs::Steps::found_member))]
    pub fn contains(&self, value: &Value) -> bool
        ensures { result ≡ is_member value.now self.now }
    {
        self.position_of(value).is_some()
    }

    /// The order of sequences: the first two items that differ decide, and else the lengths.
    #[cycle(comparing)]
    pub(crate) fn compare(&self, other: &Self) -> Ordering
        ensures { result ≡ items_cmp (items_of self.now) (items_of other.now) }
    {
        if let Some(order) = self.compare_alike(other) {
            return order;
        }
        for position in 0..self.len().min(other.len()) {
            match self.at(position).compare(other.at(position)) {
                Ordering::Equal => {}
                decided => return decided,
            }
        }
        self.len().cmp(&other.len())
    }

    /// The order of sequences, if their trees have the same form.
    #[cycle(comparing)]
    fn compare_alike(&self, other: &Self) -> Option<Ordering>
        ensures { IfSome result (λ o. o ≡ items_cmp (items_of self.now) (items_of other.now)) }
    {
        match (&self.front, &other.front) {
            (None, None) => compare_chains(&self.back, &other.back),
            (Some(front), Some(chain)) if front.len() == chain.len() => {
                match front.compare_alike(chain)? {
                    Ordering::Equal => compare_chains(&self.back, &other.back),
                    decided => Some(decided),
                }
            }
            _ => None,
        }
    }

    /// Whether two sequences have the same items. Costs time in proportion to their length, if they have one length.
    #[tactic(auto, using(crate::proofs::Steps::same_by_order, crate::proofs::Steps::lengths_differ))]
    pub fn equals(&self, other: &Self) -> bool
        ensures { result ≡ pointwise same self.now other.now }
    {
        if self.len() != other.len() {
            return false;
        }
        self.compare(other) == Ordering::Equal
    }

    /// The same sequence once more, sharing all with this one; takes no memory.
    pub fn try_clone(&self) -> Result<Self, AllocError>
        ensures { IfOk result (λ s. s ≡ self.now) }
    {
        self.items_law();
        Ok(Sequence {
            front: share(&self.front)?,
            back: share(&self.back)?,
        })
    }

    /// The sequence with one more item at its end.
    pub fn append(&self, alloc: Global, item: Value) -> Result<Self, AllocError>
        ensures { IfOk result (λ s. s ≡ self.now ++ item ∷ []) }
    {
        self.push_last(alloc, Tree::of(alloc, item)?)
    }

    /// The sequence with one more item in front.
    pub fn prepend(&self, alloc: Global, item: Value) -> Result<Self, AllocError>
        ensures { IfOk result (λ s. s ≡ item ∷ self.now) }
    {
        self.push_first(alloc, Tree::of(alloc, item)?)
    }

    /// The items of this sequence and, behind them, those of another one. The shorter one becomes one tree
    /// of the longer one.
    pub fn join(&self, alloc: Global, other: &Self) -> Result<Self, AllocError>
        ensures { IfOk result (λ s. s ≡ self.now ++ other.now) }
    {
        if self.len() < other.len() {
            match self.one_tree(alloc)? {
                None => other.try_clone(),
                Some(tree) => other.push_first(alloc, tree),
            }
        } else {
            match other.one_tree(alloc)? {
                None => self.try_clone(),
                Some(tree) => self.push_last(alloc, tree),
            }
        }
    }

    /// The sequence without its first item, or the empty one if it has none.
    pub fn without_first(&self, alloc: Global) -> Result<Self, AllocError>
        ensures { IfOk result (λ s. s ≡ without_one self.now) }
    {
        self.items_law();
        match &self.front {
            Some(front) => {
                front.items_law();
                let front = Tree::without_first(alloc, front, None)?;
                let back = share(&self.back)?;
                Ok(Sequence { front, back })
            }
            None => match &self.back {
                Some(back) => {
                    let front = Tree::without_first(alloc, back, None)?;
                    Ok(Sequence { front, back: None })
                }
                None => Ok(Sequence::new()),
            },
        }
    }

    /// The sequence without the item at a position. It shares with this one all but the way to that position. Costs
    /// time and memory in proportion to the logarithm of the length.
    #[tactic(auto, using(crate::proofs::Removing::removing_rules))]
    pub fn without_item(&self, alloc: Global, position: usize) -> Result<Self, AllocError>
        requires { position < length self.now }
        ensures { IfOk result (λ s. s ≡ remove self.now position) }
    {
        self.items_law();
        let count = item_count(&self.front);
        if position < count {
            let front = without_item_at(alloc, &self.front, position)?;
            let back = share(&self.back)?;
            Ok(Sequence { front, back })
        } else {
            let back = without_item_at(alloc, &self.back, position - count)?;
            let front = share(&self.front)?;
            Ok(Sequence { front, back })
        }
    }

    /// The sequence with the items of a tree at its end.
    fn push_last(&self, alloc: Global, tree: Arc<Tree>) -> Result<Self, AllocError>
        ensures { IfOk result (λ s. s ≡ self.now ++ tree.value) }
    {
        self.items_law();
        tree.items_law();
        have_room(self.len(), tree.len())?;
        let back = match &self.back {
            None => tree,
            Some(back) => Tree::push_last(alloc, back, tree)?,
        };
        Ok(Sequence {
            front: share(&self.front)?,
            back: Some(back),
        })
    }

    /// The sequence with the items of a tree in front.
    fn push_first(&self, alloc: Global, tree: Arc<Tree>) -> Result<Self, AllocError>
        ensures { IfOk result (λ s. s ≡ tree.value ++ self.now) }
    {
        self.items_law();
        tree.items_law();
        have_room(self.len(), tree.len())?;
        let front = match &self.front {
            None => tree,
            Some(front) => Tree::push_first(alloc, front, tree)?,
        };
        Ok(Sequence {
            front: Some(front),
            back: share(&self.back)?,
        })
    }

    /// All items in one tree, if there are any.
    fn one_tree(&self, alloc: Global) -> Result<Option<Arc<Tree>>, AllocError>
        ensures { IfOk result (λ t. items_in t ≡ self.now) }
    {
        match (&self.front, &self.back) {
            (Some(front), Some(back)) => {
                let front = Arc::try_clone(front)?;
                let back = Arc::try_clone(back)?;
                Ok(Some(Tree::pair(alloc, front, back, false)?))
            }
            (Some(front), None) => Ok(Some(Tree::one_tree(alloc, front)?)),
            (None, Some(back)) => Ok(Some(Tree::one_tree(alloc, back)?)),
            (None, None) => Ok(None),
        }
    }
}

/// Passes if a sequence of `len` items has room for `more`: none has more than 2^63 - 1, as no slice has.
pub(crate) fn have_room(len: usize, more: usize) -> Result<(), AllocError>
    ensures { OnOk result (len + more < 2 ^ 63) }
{
    match len.checked_add(more) {
        Some(sum) if sum <= isize::MAX as usize => Ok(()),
        _ => Err(AllocError),
    }
}

/// The order of the items of two chains, if their trees have the same form.
#[cycle(comparing)]
fn compare_chains(chain: &Option<Arc<Tree>>, other: &Option<Arc<Tree>>) -> Option<Ordering>
    ensures { IfSome result (λ o. o ≡ items_cmp (items_of (items_in chain.now)) (items_of (items_in other.now))) }
{
    match (chain, other) {
        (None, None) => Some(Ordering::Equal),
        (Some(tree), Some(other)) => tree.compare_alike(other),
        _ => None,
    }
}

/// How many items a chain has.
fn item_count(chain: &Option<Arc<Tree>>) -> usize
    ensures { result ≡ length (items_in chain.now) }
{
    match chain {
        None => 0,
        Some(chain) => chain.len(),
    }
}

/// The item of a chain at a position.
fn item_at(chain: &Option<Arc<Tree>>, position: usize) -> &Value
    requires { position < length (items_in chain.now) }
    ensures { slice_get (items_in chain.now) position ≡ Some result.now }
{
    match chain {
        None => unreachable!(),
        Some(chain) => chain.at(position),
    }
}

/// A chain without the item at a position, if any others are left.
fn without_item_at(
    alloc: Global,
    chain: &Option<Arc<Tree>>,
    position: usize,
) -> Result<Option<Arc<Tree>>, AllocError>
    requires { position < length (items_in chain.now) }
    ensures { IfOk result (λ c. items_in c ≡ remove (items_in chain.now) position) }
{
    match chain {
        None => unreachable!(),
        Some(chain) => Tree::without_item(alloc, chain, position),
    }
}

/// The same chain once more.
fn share(chain: &Option<Arc<Tree>>) -> Result<Option<Arc<Tree>>, AllocError>
    ensures { IfOk result (λ c. items_in c ≡ items_in chain.now) }
{
    match chain {
        None => Ok(None),
        Some(chain) => Ok(Some(Arc::try_clone(chain)?)),
    }
}
