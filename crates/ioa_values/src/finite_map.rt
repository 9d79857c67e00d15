//! Finite maps from values to values, of which every change costs about the same at any size.

ghost use Rattle.std.specs.Prelude.{◌≡◌, ◌^◌, ◌<◌, [], IfOk, Some, length, slice_get};
ghost use Rattle.std.specs.Option.{option_copied};
ghost use Rattle.ioa_values.specs.Canonical.{AllEntriesCanonical};
ghost use Rattle.ioa_values.specs.Collections.{IsAscending, keys_of, values_of, value_at, with_entry, without_key};
ghost use Rattle.ioa_values.specs.Data.{entries_of};
ghost use Rattle.ioa_values.specs.DataOrder.{entries_cmp};
ghost use Rattle.ioa_values.specs.ItemKinds.{AreOfKind};

use crate::entry_tree::{
    EntryTree, count_of, entry_at, entry_of, share, value_of, with_entry, without_key,
};
use crate::item_kind::ItemKind;
use crate::sequence::have_room;
use crate::value::{Value, canonical_entries};
use std::alloc::{AllocError, Global};
use std::cmp::Ordering;
use std::marker::Model;
use std::sync::Arc;

/// A finite map. A contract sees its entries in ascending order of keys. An operation makes a new map, which shares
/// nearly all with the old one, and leaves the old one as it is.
#[cycle(value)]
#[derive(Debug)]
pub struct FiniteMap {
    root: Option<Arc<EntryTree>>,
    /// What is known of all keys.
    key_kind: ItemKind,
    /// What is known of all values.
    value_kind: ItemKind,
}

/// By hand, so that crates above do not prove again how the parts are let go (DECISIONS).
impl Drop for FiniteMap {
    #[cycle(letting_go)]
    #[inline(always)]
    fn drop(self) {
        let FiniteMap {
            root: _,
            key_kind: _,
            value_kind: _,
        } = self;
    }
}

impl Model for FiniteMap {
    ghost use Rattle.std.specs.Prelude.{List};
    ghost use Rattle.std.specs.Coded.{coded_list, coded×};
    ghost use Rattle.ioa_values.specs.Data.{Data};
    ghost use Rattle.ioa_values.specs.DataCode.{data_code};

    ghost Value = { List (Data × Data) };

    ghost coded = { coded_list (coded× data_code data_code) };

    ghost use Rattle.ioa_values.specs.EntryTrees.{entries_in};
    ghost use Rattle.ioa_values.specs.FiniteSets.{IsMap};

    ghost view = { λ m. entries_in m.root };

    ghost invariant = { λ m. IsMap (entries_in m.root) m.key_kind m.value_kind };

    ghost use Rattle.ioa_values.specs.Weight.{map_weight};

    ghost size = { map_weight };

    ghost use Rattle.ioa_values.specs.FiniteSetWeights.{deep-le-map};

    ghost size_decreases = { λ m h. deep-le-map m.root m.key_kind m.value_kind };
}

impl FiniteMap {
    /// The map of no entries; takes no memory.
    pub fn new() -> Self
        ensures { result ≡ [] }
    {
        FiniteMap {
            root: None,
            key_kind: ItemKind::Nothing,
            value_kind: ItemKind::Nothing,
        }
    }

    /// The map of entries whose keys ascend. Costs time in proportion to their number.
    pub fn of_ascending(alloc: Global, entries: &Vec<(Value, Value)>) -> Result<Self, AllocError>
        requires { IsAscending (keys_of entries.now.items) }
        ensures { IfOk result (λ m. m ≡ entries.now.items) }
    {
        have_room(entries.len(), 0)?;
        canonical_entries(entries);
        Ok(FiniteMap {
            root: EntryTree::of_entries(alloc, entries)?,
            key_kind: ItemKind::of_keys(entries),
            value_kind: ItemKind::of_values(entries),
        })
    }

    /// What every map keeps of its entries; does nothing.
    pub(crate) fn entries_law(&self)
        ensures ascending { IsAscending (keys_of self.now) }
        ensures canonical { AllEntriesCanonical self.now }
    {
        let _root = &self.root;
    }

    /// How many entries it has.
    pub fn len(&self) -> usize
        ensures entries { result ≡ length self.now }
        ensures within { result < 2 ^ 63 }
    {
        count_of(&self.root)
    }

    /// What is known of all its keys. Costs the same at any size.
    pub fn key_kind(&self) -> ItemKind
        ensures { AreOfKind result (keys_of self.now) }
    {
        self.key_kind
    }

    /// What is known of all its values. Costs the same at any size.
    pub fn value_kind(&self) -> ItemKind
        ensures { AreOfKind result (values_of self.now) }
    {
        self.value_kind
    }

    /// The key and the value at a position. Costs time in proportion to the logarithm of the size.
    pub fn at(&self, position: usize) -> (&Value, &Value)
        requires { position < length self.now }
        ensures { slice_get self.now position ≡ Some (result.0.now, result.1.now) }
    {
        let (key, value) = entry_at(&self.root, position);
        (key, value)
    }

    /// The value at a key, if the map has the key. Costs comparisons in proportion to the logarithm of the size.
    pub fn get(&self, key: &Value) -> Option<&Value>
        ensures { option_copied result ≡ value_at key.now self.now }
    {
        value_of(&self.root, key)
    }

    /// The map in which a key has a value, and every other key what it had. Costs time in proportion to the logarithm
    /// of the size.
    pub fn update(&self, alloc: Global, key: &Value, value: &Value) -> Result<Self, AllocError>
        ensures { IfOk result (λ m. m ≡ with_entry key.now value.now self.now) }
    {
        have_room(self.len(), 1)?;
        let key_kind = self.key_kind.join(ItemKind::of(key));
        let value_kind = self.value_kind.join(ItemKind::of(value));
        let entry = entry_of(alloc, key, value)?;
        let root = Some(with_entry(alloc, &self.root, &entry)?);
        Ok(FiniteMap {
            root,
            key_kind,
            value_kind,
        })
    }

    /// The map without a key. Costs time in proportion to the logarithm of the size.
    #[tactic(auto, using(crate::proofs::Members::without_no_key))]
    pub fn remove(&self, alloc: Global, key: &Value) -> Result<Self, AllocError>
        ensures { IfOk result (λ m. m ≡ without_key key.now self.now) }
    {
        match self.get(key) {
            Some(_) => self.without(alloc, key),
            None => self.try_clone(),
        }
    }

    /// The same of a key that the map has.
    fn without(&self, alloc: Global, key: &Value) -> Result<Self, AllocError>
        ensures { IfOk result (λ m. m ≡ without_key key.now self.now) }
    {
        Ok(FiniteMap {
            root: without_key(alloc, &self.root, key)?,
            key_kind: self.key_kind,
            value_kind: self.value_kind,
        })
    }

    /// The same map once more, sharing all with this one; takes no memory.
    pub fn try_clone(&self) -> Result<Self, AllocError>
        ensures { IfOk result (λ m. m ≡ self.now) }
    {
        Ok(FiniteMap {
            root: share(&self.root)?,
            key_kind: self.key_kind,
            value_kind: self.value_kind,
        })
    }

    /// The order of maps: that of their ascending lists, in which the first two keys or values that differ decide, and
    /// else the lengths.
    #[cycle(comparing)]
    pub(crate) fn compare(&self, other: &Self) -> Ordering
        ensures { result ≡ entries_cmp (entries_of self.now) (entries_of other.now) }
    {
        for position in 0..self.len().min(other.len()) {
            let (key, value) = self.at(position);
            let (other_key, other_value) = other.at(position);
            match key.compare(other_key) {
                Ordering::Equal => {}
                decided => return decided,
            }
            match value.compare(other_value) {
                Ordering::Equal => {}
                decided => return decided,
            }
        }
        self.len().cmp(&other.len())
    }
}
