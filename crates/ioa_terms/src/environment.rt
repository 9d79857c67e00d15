//! Environments in which terms are evaluated.

ghost use Rattle.std.specs.Prelude.{◌≡◌, ◌++◌, IfOk, IfSome, None, Ok, Some, slice_get, length, map, []};
ghost use Rattle.std.specs.Option.{option_map};
ghost use Rattle.ioa_terms.specs.Bindings.{names_of, environment};
ghost use Rattle.ioa_terms.specs.Inboxes.{inbox_values, inboxes_of, inboxes_word};
ghost use Rattle.ioa_terms.specs.Resolved.{IsResolved};
ghost use Rattle.ioa_terms.specs.Slots.{index_within, slot_value};
ghost use Rattle.ioa_terms.specs.Stepwise.{stepwise_answer};
ghost use Rattle.ioa_terms.specs.View.{term_of};
ghost use Rattle.ioa_terms.specs.Views.{IsNamed, all_names, environment_of, names_in_view};
ghost use Rattle.ioa_values.specs.Data.{constant};

use crate::name::Name;
use crate::quick::quick_value;
use crate::tree::Checked;
use ioa_values::{Sequence, Value, Word};
use std::alloc::{AllocError, Global};
use std::marker::Model;

/// Names that up to four owners keep, read as one list, so that none of them needs to be copied. A contract sees the
/// list: the names that an invariant reads, and behind them the words of three owners, as names.
#[derive(Drop)]
pub struct NameLists<'a> {
    readings: &'a [Name],
    first: &'a [Word],
    second: &'a [Word],
    third: &'a [Word],
}

impl<'a> Model for NameLists<'a> {
    ghost use Rattle.std.specs.Prelude.{◌++◌, List, map};
    ghost use Rattle.std.specs.Coded.{coded_list};
    ghost use Rattle.ioa_terms.specs.declared.name.Name.{Name};
    ghost use Rattle.ioa_terms.specs.declared.name.Name.TheVariants.{Word};
    ghost use Rattle.ioa_terms.specs.contracts.name.Name as called;

    ghost Value = { List Name };

    ghost coded = { coded_list called.the_row.coded };

    ghost view = { λ n. n.readings.now ++ map Word (n.first.now ++ (n.second.now ++ n.third.now)) };
}

impl<'a> NameLists<'a> {
    /// The words of three owners.
    pub fn new(first: &'a [Word], second: &'a [Word], third: &'a [Word]) -> Self
        ensures { result ≡ map Name.Word (first.now ++ (second.now ++ third.now)) }
    {
        NameLists {
            readings: &[],
            first,
            second,
            third,
        }
    }

    /// The words of one owner.
    #[tactic(auto, using(crate::proofs::Slots::one_list))]
    pub fn one(names: &'a [Word]) -> Self
        ensures { result ≡ map Name.Word names.now }
    {
        NameLists::new(names, &[], &[])
    }

    /// The names that an invariant reads.
    #[tactic(auto, using(crate::proofs::Slots::readings_alone))]
    pub fn of_readings(readings: &'a [Name]) -> Self
        ensures { result ≡ readings.now }
    {
        NameLists {
            readings,
            first: &[],
            second: &[],
            third: &[],
        }
    }

    /// The same names of the same owners.
    pub fn reborrow(&self) -> NameLists<'a>
        ensures { result ≡ self.now }
    {
        NameLists {
            readings: self.readings,
            first: self.first,
            second: self.second,
            third: self.third,
        }
    }
}

/// What waits on the channel from a node to the one whose schedule block sees it. It is lent, and not copied.
#[derive(Clone, Copy)]
pub struct Inbox<'a> {
    /// The number of the node that sends.
    pub sender: i64,
    /// The messages, first to last.
    pub messages: &'a Sequence,
}

/// Values that two owners keep and lend, and the inboxes of a node: a term may read them, and no statement assigns
/// one. None of it is copied.
#[derive(Clone, Copy)]
pub struct LentValues<'a> {
    /// The inboxes, if they are in view: one value, a map from senders to sequences. The first inbox of a sender
    /// counts.
    pub inboxes: Option<&'a [Inbox<'a>]>,
    /// The values that one owner lends, behind that.
    pub first: &'a [Value],
    /// The values that the other owner lends, behind those.
    pub second: &'a [Value],
}

impl<'a> LentValues<'a> {
    /// Nothing is lent.
    pub fn none() -> Self
        ensures inboxes { result.inboxes ≡ None }
        ensures first { result.first.now ≡ [] }
        ensures second { result.second.now ≡ [] }
    {
        LentValues {
            inboxes: None,
            first: &[],
            second: &[],
        }
    }
}

/// What terms and statements see besides the values that the statements may assign (profile). None of it is copied.
#[derive(Drop)]
pub struct View<'a> {
    /// The name of a value that stands in front of the others, if there is one.
    pub front: &'a [Word],
    /// The names of the values that statements may assign, and then those of the values that are lent.
    pub names: NameLists<'a>,
    /// What terms may read and no statement assigns.
    pub lent: LentValues<'a>,
    /// The names of the text's constants.
    pub constants: &'a [Word],
}

impl<'a> View<'a> {
    /// The environment in which terms are evaluated, if the values that statements may assign are these.
    #[tactic(auto, using(crate::proofs::Slots::names_environment))]
    pub fn env<'b>(&'b self, values: &'b [Value]) -> Env<'b>
        requires { IsNamed self.now values.now }
        ensures value { result ≡ environment_of self.now values.now }
        ensures names { names_of result ≡ names_in_view self.now }
    {
        let view = View {
            front: self.front,
            names: self.names.reborrow(),
            lent: self.lent,
            constants: self.constants,
        };
        Env { view, values }
    }

    /// The same view with the name of a value in front of the others.
    pub(crate) fn behind<'b>(&'b self, front: &'b [Word]) -> View<'b>
        requires { self.now.front.now ≡ [] }
        ensures names { all_names result ≡ map Name.Word front.now ++ self.now.names }
        ensures lent { result.lent ≡ self.now.lent }
        ensures constants { result.constants.now ≡ self.now.constants.now }
    {
        View {
            front,
            names: self.names.reborrow(),
            lent: self.lent,
            constants: self.constants,
        }
    }

    /// What is at a slot, if there is something.
    #[inline(always)]
    pub(crate) fn get<'b>(&'b self, values: &'b [Value], slot: usize) -> Option<Slot<'b>>
        requires { IsNamed self.now values.now }
        ensures { option_map slot_value result
            ≡ option_map (λ b. b.1) (slice_get (environment_of self.now values.now) slot) }
    {
        if slot < values.len() {
            return Some(Slot::Variable(&values[slot]));
        }
        let behind = slot - values.len();
        let inbox_slots = inbox_slots(self.lent);
        if behind < inbox_slots {
            return match self.lent.inboxes {
                Some(inboxes) => Some(Slot::Inboxes(inboxes)),
                None => None,
            };
        }
        let lent = behind - inbox_slots;
        if lent < self.lent.first.len() {
            return Some(Slot::Variable(&self.lent.first[lent]));
        }
        let further = lent - self.lent.first.len();
        if further < self.lent.second.len() {
            return Some(Slot::Variable(&self.lent.second[further]));
        }
        constant_at(self.constants, further - self.lent.second.len())
    }
}

/// The values that a term may read, each at its slot, with their names: those of variables first, then
/// what is lent, and the constants behind it. A contract sees the pairs of names and values; the
/// first pair of a name is the one that counts.
#[derive(Drop)]
pub struct Env<'a> {
    view: View<'a>,
    values: &'a [Value],
}

impl<'a> Model for Env<'a> {
    ghost use Rattle.ioa_terms.specs.Bindings.{Bindings};
    ghost use Rattle.ioa_terms.specs.Views.{IsNamed, environment_of};
    ghost use Rattle.ioa_terms.specs.contracts.name.Name as called;
    ghost use Rattle.std.specs.Coded.{coded×, coded_list};
    ghost use Rattle.ioa_values.specs.DataCode.{data_code};

    ghost Value = { Bindings };

    ghost coded = { coded_list (coded× called.the_row.coded data_code) };

    ghost view = { λ e. environment_of e.view e.values.now };

    ghost invariant = { λ e. IsNamed e.view e.values.now };
}

/// What is at a slot of an environment.
#[derive(Clone, Copy)]
pub enum Slot<'a> {
    /// The value of a variable, or one that is lent.
    Variable(&'a Value),
    /// A constant, by its index among the text's constants.
    Constant(usize),
    /// The map of the inboxes.
    Inboxes(&'a [Inbox<'a>]),
}

impl<'a> Env<'a> {
    /// The environment of these names and values, and of the text's constants behind them.
    #[tactic(auto, using(crate::proofs::Slots::none_given, crate::proofs::Slots::names_environment))]
    pub fn with_constants(names: NameLists<'a>, values: &'a [Value], constants: &'a [Word]) -> Self
        requires { length names ≡ length values.now }
        ensures value { result ≡ environment names.entry values.now constants.now }
        ensures names { names_of result ≡ names.entry ++ map Name.Word constants.now }
    {
        Env {
            view: View {
                front: &[],
                names,
                lent: LentValues::none(),
                constants,
            },
            values,
        }
    }

    /// What is at a slot, if there is something.
    pub fn get(&self, slot: usize) -> Option<Slot<'_>>
        ensures { option_map slot_value result ≡ option_map (λ b. b.1) (slice_get self.now slot) }
    {
        self.view.get(self.values, slot)
    }

    /// The value of a term, if it is a number or a truth value that is found quickly.
    #[tactic(auto, using(crate::proofs::Slots::names_environment))]
    pub(crate) fn quick_value(&self, term: &Checked) -> Option<Value>
        requires { IsResolved (term_of term.now) (names_of self.now) }
        ensures { IfSome result (λ v. stepwise_answer (term_of term.now) self.now ≡ Ok v) }
    {
        quick_value(term, &self.view, self.values)
    }
}

/// How many slots the inboxes have: one if they are in view.
fn inbox_slots(lent: LentValues) -> usize
    ensures { result ≡ length (inbox_values (option_map (λ is. inboxes_of is.now) lent.entry.inboxes)) }
{
    match lent.inboxes {
        Some(_) => 1,
        None => 0,
    }
}

/// A constant, by its index, if there are so many.
fn constant_at<'a>(constants: &[Word], index: usize) -> Option<Slot<'a>>
    ensures { option_map slot_value result ≡ option_map constant (index_within index (length constants.now)) }
{
    if index < constants.len() {
        Some(Slot::Constant(index))
    } else {
        None
    }
}

/// The name under which a schedule block sees the inboxes of its node. No text can spell it.
pub fn inboxes_word(alloc: Global) -> Result<Word, AllocError>
    ensures { IfOk result (λ w. w ≡ inboxes_word) }
{
    Word::from_ascii(alloc, b"inbox()")
}
