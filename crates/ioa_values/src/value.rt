//! Values, as terms have them and configurations keep them.

ghost use Rattle.std.specs.Prelude.{◌≡◌, ◌↔◌, IfOk, IsTrue, true};
ghost use Rattle.ioa_values.specs.Data.{number, truth, constant, tuple, sequence, finite_set, finite_map};
ghost use Rattle.ioa_values.specs.Data.{items_of, entries_of, as_number, as_truth, is_within};
ghost use Rattle.ioa_values.specs.Canonical.{IsCanonical, AllCanonical, AllEntriesCanonical};
ghost use Rattle.ioa_values.specs.DataOrder.{same, data_cmp, items_cmp, kind};
ghost use Rattle.ioa_values.specs.ValueForm.{data_of, IsCanonicalForm};

use crate::finite_map::FiniteMap;
use crate::finite_set::FiniteSet;
use crate::sequence::Sequence;
use std::alloc::{AllocError, Global};
use std::cmp::Ordering;
use std::marker::Model;
use std::sync::Arc;

/// A value of the language: a number, a truth value, a constant, a tuple, a sequence, a finite set or
/// a finite map. Numbers are kept in 64 bits; a contract sees the number itself. Every value keeps that
/// the members of a set and the keys of a map ascend without doubles, at any depth. Collections are shared,
/// so that a value is copied in constant time.
#[cycle(value)]
#[derive(Debug)]
pub struct Value {
    /// What the value is.
    pub form: ValueForm,
}

/// By hand, so that crates above do not prove again how the parts are let go (DECISIONS).
impl Drop for Value {
    #[cycle(letting_go)]
    #[inline(always)]
    fn drop(self) {
        let Value { form: _ } = self;
    }
}

/// What a value is.
#[cycle(value)]
#[derive(Debug, Drop)]
pub enum ValueForm {
    /// A whole number.
    Number(i64),
    /// A truth value.
    Truth(bool),
    /// A constant, by its index among the text's constants.
    Constant(usize),
    /// A tuple of its parts.
    Tuple(Arc<Vec<Value>>),
    /// A sequence of its items.
    Sequence(Sequence),
    /// A finite set of its members.
    Set(FiniteSet),
    /// A finite map, as pairs of a key and its value.
    Map(FiniteMap),
}

impl Model for Value {
    ghost use Rattle.ioa_values.specs.Data.{Data};
    ghost use Rattle.ioa_values.specs.DataCode.{data_code};

    ghost Value = { Data };

    ghost coded = { data_code };

    ghost use Rattle.ioa_values.specs.Weight.{weight};
    ghost use Rattle.ioa_values.specs.ValueForm.{data_of, IsCanonicalForm};

    ghost view = { λ v. data_of v.form };

    ghost invariant = { λ v. IsCanonicalForm v.form };

    ghost size = { weight };

    ghost use Rattle.ioa_values.specs.ValueWeights.{deep-le-weight};

    ghost size_decreases = { λ v h. deep-le-weight v.form };
}

impl Value {
    /// A number.
    pub fn number(n: i64) -> Self
        ensures { result ≡ number n }
    {
        Value {
            form: ValueForm::Number(n),
        }
    }

    /// A truth value.
    pub fn truth(b: bool) -> Self
        ensures { result ≡ truth b }
    {
        Value {
            form: ValueForm::Truth(b),
        }
    }

    /// The constant of an index among the text's constants.
    pub fn constant(index: usize) -> Self
        ensures { result ≡ constant index }
    {
        Value {
            form: ValueForm::Constant(index),
        }
    }

    /// A tuple of its parts.
    pub fn tuple(alloc: Global, parts: Vec<Value>) -> Result<Self, AllocError>
        ensures { IfOk result (λ v. v ≡ tuple (items_of parts.items)) }
    {
        canonical_values(&parts);
        let form = ValueForm::Tuple(Arc::new(alloc, parts)?);
        Ok(Value { form })
    }

    /// A sequence of its items; takes no memory.
    pub fn sequence(items: Sequence) -> Self
        ensures { result ≡ sequence (items_of items) }
    {
        items.items_law();
        Value {
            form: ValueForm::Sequence(items),
        }
    }

    /// A set of its members; takes no memory.
    pub fn set(members: FiniteSet) -> Self
        ensures { result ≡ finite_set (items_of members) }
    {
        members.members_law();
        Value {
            form: ValueForm::Set(members),
        }
    }

    /// A map of its entries; takes no memory.
    pub fn map(entries: FiniteMap) -> Self
        ensures { result ≡ finite_map (entries_of entries) }
    {
        entries.entries_law();
        Value {
            form: ValueForm::Map(entries),
        }
    }

    /// What the value is, for whoever takes its parts.
    #[inline(always)]
    pub fn into_form(self) -> ValueForm
        ensures value { data_of result ≡ self }
        ensures law { IsCanonicalForm result }
    {
        let Value { form } = self;
        form
    }

    /// The number, if the value is one.
    #[inline(always)]
    pub fn as_number(&self) -> Option<i64>
        ensures { result ≡ as_number self.now }
    {
        match &self.form {
            ValueForm::Number(n) => Some(*n),
            _ => None,
        }
    }

    /// The truth value, if the value is one.
    #[inline(always)]
    pub fn as_truth(&self) -> Option<bool>
        ensures { result ≡ as_truth self.now }
    {
        match &self.form {
            ValueForm::Truth(b) => Some(*b),
            _ => None,
        }
    }

    /// Makes the value a number, in the place of the one that it was, if it was one.
    #[inline(always)]
    pub fn set_number(&mut self, n: i64)
        ensures { self.new ≡ number n }
    {
        match &mut self.form {
            ValueForm::Number(old) => *old = n,
            _ => *self = Value::number(n),
        }
    }

    /// Makes the value a truth value, in the place of the one that it was, if it was one.
    #[inline(always)]
    pub fn set_truth(&mut self, b: bool)
        ensures { self.new ≡ truth b }
    {
        match &mut self.form {
            ValueForm::Truth(old) => *old = b,
            _ => *self = Value::truth(b),
        }
    }

    /// What every value keeps: its sets and maps ascend, at any depth. Does nothing.
    pub fn canonical_law(&self)
        ensures { IsCanonical self.now }
    {
        let _form = &self.form;
    }

    /// The same value once more, which shares its collections with this one. Costs the same whatever the
    /// value holds, and takes no memory. A number lies within 64 bits, and every set and every map in the
    /// value, at any depth, ascends, whether the copy succeeds or not.
    #[inline(always)]
    pub fn try_copy(&self) -> Result<Self, AllocError>
        ensures equal { IfOk result (λ v. v ≡ self.now) }
        ensures within { is_within self.now ≡ true }
        ensures ascending { IsCanonical self.now }
    {
        self.canonical_law();
        match &self.form {
            ValueForm::Number(n) => Ok(Value::number(*n)),
            ValueForm::Truth(b) => Ok(Value::truth(*b)),
            _ => self.share(),
        }
    }

    /// The same of a value that may be a collection.
    #[inline(never)]
    fn share(&self) -> Result<Self, AllocError>
        ensures { IfOk result (λ v. v ≡ self.now) }
    {
        let form = match &self.form {
            ValueForm::Number(n) => ValueForm::Number(*n),
            ValueForm::Truth(b) => ValueForm::Truth(*b),
            ValueForm::Constant(index) => ValueForm::Constant(*index),
            ValueForm::Tuple(parts) => ValueForm::Tuple(Arc::try_clone(parts)?),
            ValueForm::Sequence(items) => ValueForm::Sequence(items.try_clone()?),
            ValueForm::Set(members) => ValueForm::Set(members.try_clone()?),
            ValueForm::Map(entries) => ValueForm::Map(entries.try_clone()?),
        };
        Ok(Value { form })
    }

    /// The position of the value's kind in the order of kinds.
    fn kind(&self) -> u8
        ensures { result ≡ kind self.now }
    {
        match &self.form {
            ValueForm::Number(_) => 0,
            ValueForm::Truth(_) => 1,
            ValueForm::Constant(_) => 2,
            ValueForm::Tuple(_) => 3,
            ValueForm::Sequence(_) => 4,
            ValueForm::Set(_) => 5,
            ValueForm::Map(_) => 6,
        }
    }

    /// The order of values (profile): numbers by size, false before true, constants as declared, lists
    /// item by item with a list that another one begins with first, sets and maps as their ascending lists;
    /// values of two kinds by their kinds, in the order of `ValueForm`.
    #[cycle(comparing)]
    #[tactic(auto, using(crate::proofs::Falls::most_items))]
    pub(crate) fn compare(&self, other: &Self) -> Ordering
        ensures { result ≡ data_cmp self.now other.now }
    {
        match (&self.form, &other.form) {
            (ValueForm::Number(m), ValueForm::Number(n)) => m.cmp(n),
            (ValueForm::Truth(a), ValueForm::Truth(b)) => a.cmp(b),
            (ValueForm::Constant(k), ValueForm::Constant(l)) => k.cmp(l),
            (ValueForm::Tuple(xs), ValueForm::Tuple(ys)) => compare_values(xs, ys),
            (ValueForm::Sequence(xs), ValueForm::Sequence(ys)) => xs.compare(ys),
            (ValueForm::Set(xs), ValueForm::Set(ys)) => xs.compare(ys),
            (ValueForm::Map(xs), ValueForm::Map(ys)) => xs.compare(ys),
            _ => self.kind().cmp(&other.kind()),
        }
    }

    /// The same order. Numbers are compared here.
    #[inline(always)]
    pub(crate) fn order(&self, other: &Self) -> Ordering
        ensures { result ≡ data_cmp self.now other.now }
    {
        match (&self.form, &other.form) {
            (ValueForm::Number(m), ValueForm::Number(n)) => m.cmp(n),
            _ => self.compare(other),
        }
    }

    /// Whether two values are the same.
    #[inline(always)]
    pub fn equals(&self, other: &Self) -> bool
        ensures value { result ≡ same self.now other.now }
        ensures equality { IsTrue result ↔ (self.now ≡ other.now) }
    {
        self.is_same(other)
    }

    /// Whether two values are the same. Numbers are compared here.
    #[inline(always)]
    fn is_same(&self, other: &Self) -> bool
        ensures { result ≡ same self.now other.now }
    {
        match (&self.form, &other.form) {
            (ValueForm::Number(m), ValueForm::Number(n)) => m == n,
            _ => self.ties(other),
        }
    }

    /// Whether the order does not tell two values apart.
    #[inline(never)]
    #[tactic(auto, using(crate::proofs::Steps::same_by_order))]
    fn ties(&self, other: &Self) -> bool
        ensures { result ≡ same self.now other.now }
    {
        match (&self.form, &other.form) {
            (ValueForm::Sequence(items), ValueForm::Sequence(others)) => items.equals(others),
            _ => self.compare(other) == Ordering::Equal,
        }
    }
}

/// The same values once more, in order, each sharing its collections.
pub fn copies(alloc: Global, values: &[Value]) -> Result<Vec<Value>, AllocError>
    ensures { IfOk result (λ v. v.items ≡ values.now) }
{
    let mut items = Vec::with_capacity(alloc, values.len())?;
    for value in values {
        items.push_reserved(value.try_copy()?);
    }
    Ok(items)
}

/// What every value of a list keeps; changes nothing.
pub(crate) fn canonical_values(values: &Vec<Value>)
    ensures { AllCanonical values.now.items }
{
    for value in values {
        value.canonical_law();
    }
}

/// What every entry of a list keeps; changes nothing.
pub(crate) fn canonical_entries(entries: &Vec<(Value, Value)>)
    ensures { AllEntriesCanonical entries.now.items }
{
    for (key, value) in entries {
        key.canonical_law();
        value.canonical_law();
    }
}

/// The order of lists of values: the first two items that differ decide, and else the lengths.
#[cycle(comparing)]
fn compare_values(values: &Vec<Value>, others: &Vec<Value>) -> Ordering
    ensures { result ≡ items_cmp (items_of values.now.items) (items_of others.now.items) }
{
    for position in 0..values.len().min(others.len()) {
        match values[position].compare(&others[position]) {
            Ordering::Equal => {}
            decided => return decided,
        }
    }
    values.len().cmp(&others.len())
}

impl PartialEq for Value {
    ghost use Rattle.ioa_values.specs.DataOrder.{same, same_partial};

    ghost eq = { same };

    ghost laws = { same_partial };

    fn eq(&self, other: &Self) -> bool {
        self.equals(other)
    }
}

impl Eq for Value {
    ghost use Rattle.ioa_values.specs.DataOrder.{same_equivalence};

    ghost laws = { same_equivalence };
}

impl PartialOrd for Value {
    ghost use Rattle.std.specs.Ordering.{as_partial_cmp};
    ghost use Rattle.ioa_values.specs.DataOrder.{data_cmp, data_cmp_partial};

    ghost partial_cmp = { as_partial_cmp data_cmp };

    ghost laws = { data_cmp_partial };

    fn partial_cmp(&self, other: &Self) -> Option<Ordering> {
        Some(self.compare(other))
    }
}

impl Ord for Value {
    ghost use Rattle.std.specs.Prelude.{refl};
    ghost use Rattle.ioa_values.specs.DataOrder.{data_cmp, data_cmp_total};

    ghost cmp = { data_cmp };

    ghost total = { data_cmp_total };

    ghost matches_partial_cmp = { λ x y. refl };

    ghost matches_eq = { λ x y. refl };

    fn cmp(&self, other: &Self) -> Ordering {
        self.compare(other)
    }
}
