//! Finite sets of values, of which every change costs about the same at any size.

ghost use Rattle.std.specs.Prelude.{◌≡◌, ◌^◌, ◌<◌, [], IfOk, IfSome, Some, length, slice_get};
ghost use Rattle.ioa_values.specs.Canonical.{AllCanonical};
ghost use Rattle.ioa_values.specs.Collections.{IsAscending, is_member, with_member, without_member, set_of, union};
ghost use Rattle.ioa_values.specs.Data.{items_of};
ghost use Rattle.ioa_values.specs.DataOrder.{items_cmp};
ghost use Rattle.ioa_values.specs.ItemKinds.{AreOfKind};

use crate::collections;
use crate::entry_tree::{
    EntryTree, count_of, entry_at, entry_of, share, value_of, with_entry, without_key,
};
use crate::item_kind::ItemKind;
use crate::sequence::have_room;
use crate::value::{Value, canonical_values};
use std::alloc::{AllocError, Global};
use std::cmp::Ordering;
use std::marker::Model;
use std::sync::Arc;

/// A finite set of values. A contract sees its members in ascending order. An operation makes a new set, which shares
/// nearly all with the old one, and leaves the old one as it is.
#[cycle(value)]
#[derive(Debug)]
pub struct FiniteSet {
    /// The members as keys, each with the value `true`, which says nothing.
    root: Option<Arc<EntryTree>>,
    /// What is known of all members.
    kind: ItemKind,
}

/// By hand, so that crates above do not prove again how the parts are let go (DECISIONS).
impl Drop for FiniteSet {
    #[cycle(letting_go)]
    #[inline(always)]
    fn drop(self) {
        let FiniteSet { root: _, kind: _ } = self;
    }
}

impl Model for FiniteSet {
    ghost use Rattle.std.specs.Prelude.{List};
    ghost use Rattle.std.specs.Coded.{coded_list};
    ghost use Rattle.ioa_values.specs.Data.{Data};
    ghost use Rattle.ioa_values.specs.DataCode.{data_code};

    ghost Value = { List Data };

    ghost coded = { coded_list data_code };

    ghost use Rattle.ioa_values.specs.Collections.{keys_of};
    ghost use Rattle.ioa_values.specs.EntryTrees.{entries_in};
    ghost use Rattle.ioa_values.specs.FiniteSets.{IsSet};

    ghost view = { λ s. keys_of (entries_in s.root) };

    ghost invariant = { λ s. IsSet (entries_in s.root) s.kind };

    ghost use Rattle.ioa_values.specs.Weight.{sequence_weight};

    ghost size = { sequence_weight };

    ghost use Rattle.ioa_values.specs.FiniteSetWeights.{deep-le-set};

    ghost size_decreases = { λ s h. deep-le-set s.root s.kind h };
}

impl FiniteSet {
    /// The set of no members; takes no memory.
    pub fn new() -> Self
        ensures { result ≡ [] }
    {
        FiniteSet {
            root: None,
            kind: ItemKind::Nothing,
        }
    }

    /// The set of the values of a list. Costs comparisons in proportion to n log n for n values.
    pub fn of(alloc: Global, values: Vec<Value>) -> Result<Self, AllocError>
        ensures { IfOk result (λ s. s ≡ set_of values.items) }
    {
        let members = collections::set_of(alloc, values)?;
        FiniteSet::of_ascending(alloc, &members)
    }

    /// The set of members that ascend. Costs time in proportion to their number.
    pub fn of_ascending(alloc: Global, members: &Vec<Value>) -> Result<Self, AllocError>
        requires { IsAscending members.now.items }
        ensures { IfOk result (λ s. s ≡ members.now.items) }
    {
        have_room(members.len(), 0)?;
        canonical_values(members);
        let kind = ItemKind::of_all(members);
        let root = EntryTree::of_keys(alloc, members, &Value::truth(true))?;
        Ok(FiniteSet { root, kind })
    }

    /// What every set keeps of its members; does nothing.
    pub(crate) fn members_law(&self)
        ensures ascending { IsAscending self.now }
        ensures canonical { AllCanonical self.now }
    {
        let _root = &self.root;
    }

    /// How many members it has.
    #[tactic(auto, using(crate::proofs::EntryTrees::many_keys))]
    pub fn len(&self) -> usize
        ensures members { result ≡ length self.now }
        ensures within { result < 2 ^ 63 }
    {
        count_of(&self.root)
    }

    /// What is known of all its members. Costs the same at any size.
    pub fn kind(&self) -> ItemKind
        ensures { AreOfKind result self.now }
    {
        self.kind
    }

    /// The member at a position. Costs time in proportion to the logarithm of the size.
    pub fn at(&self, position: usize) -> &Value
        requires { position < length self.now }
        ensures { slice_get self.now position ≡ Some result.now }
    {
        &entry_at(&self.root, position).0
    }

    /// Whether a value is a member. Costs comparisons in proportion to the logarithm of the size.
    #[tactic(auto, using(crate::proofs::Ascending::key_is_member))]
    pub fn contains(&self, value: &Value) -> bool
        ensures { result ≡ is_member value.now self.now }
    {
        self.members_law();
        value_of(&self.root, value).is_some()
    }

    /// The set with one more member. Costs time in proportion to the logarithm of the size.
    #[tactic(auto, using(crate::proofs::Members::with_a_member))]
    pub fn insert(&self, alloc: Global, member: &Value) -> Result<Self, AllocError>
        ensures { IfOk result (λ s. s ≡ with_member member.now self.now) }
    {
        self.members_law();
        if self.contains(member) {
            self.try_clone()
        } else {
            self.with_new(alloc, member)
        }
    }

    /// The same of a value that is no member yet.
    fn with_new(&self, alloc: Global, member: &Value) -> Result<Self, AllocError>
        ensures { IfOk result (λ s. s ≡ with_member member.now self.now) }
    {
        have_room(self.len(), 1)?;
        let kind = self.kind.join(ItemKind::of(member));
        let entry = entry_of(alloc, member, &Value::truth(true))?;
        let root = Some(with_entry(alloc, &self.root, &entry)?);
        Ok(FiniteSet { root, kind })
    }

    /// The set without a member. Costs time in proportion to the logarithm of the size.
    #[tactic(auto, using(crate::proofs::Members::without_no_member))]
    pub fn remove(&self, alloc: Global, member: &Value) -> Result<Self, AllocError>
        ensures { IfOk result (λ s. s ≡ without_member member.now self.now) }
    {
        if self.contains(member) {
            self.without(alloc, member)
        } else {
            self.try_clone()
        }
    }

    /// The same of a value that is a member.
    fn without(&self, alloc: Global, member: &Value) -> Result<Self, AllocError>
        ensures { IfOk result (λ s. s ≡ without_member member.now self.now) }
    {
        let root = without_key(alloc, &self.root, member)?;
        let kind = self.kind;
        Ok(FiniteSet { root, kind })
    }

    /// The set of the members of either of two sets. Costs time in proportion to the sizes of both.
    pub fn union(&self, alloc: Global, other: &Self) -> Result<Self, AllocError>
        ensures { IfOk result (λ s. s ≡ union self.now other.now) }
    {
        self.members_law();
        other.members_law();
        let members = collections::union(alloc, self.to_vec(alloc)?, other.to_vec(alloc)?)?;
        FiniteSet::of_ascending(alloc, &members)
    }

    /// The members as a list, each sharing what it holds.
    fn to_vec(&self, alloc: Global) -> Result<Vec<Value>, AllocError>
        ensures { IfOk result (λ v. v.items ≡ self.now) }
    {
        let mut members = Vec::with_capacity(alloc, self.len())?;
        for position in 0..self.len() {
            members.push_reserved(self.at(position).try_copy()?);
        }
        Ok(members)
    }

    /// The same set once more, sharing all with this one; takes no memory.
    pub fn try_clone(&self) -> Result<Self, AllocError>
        ensures { IfOk result (λ s. s ≡ self.now) }
    {
        Ok(FiniteSet {
            root: share(&self.root)?,
            kind: self.kind,
        })
    }

    /// The order of sets: that of their ascending lists, in which the first two members that differ decide, and else
    /// the lengths.
    #[cycle(comparing)]
    pub(crate) fn compare(&self, other: &Self) -> Ordering
        ensures { result ≡ items_cmp (items_of self.now) (items_of other.now) }
    {
        for position in 0..self.len().min(other.len()) {
            match self.at(position).compare(other.at(position)) {
                Ordering::Equal => {}
                decided => return decided,
            }
        }
        self.len().cmp(&other.len())
    }
}
