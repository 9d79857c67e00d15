//! What is asked of parts, and the asks.

ghost use Rattle.std.specs.Prelude.{◌≡◌, true, Err, IfOk};
ghost use Rattle.ioa_terms.specs.View.{term_of};
ghost use Rattle.ioa_sorts.specs.Sorting.{fit, infer, sorting};
ghost use Rattle.ioa_refusals.specs.declared.refusal.Refusal.TheVariants.{Memory};

use crate::cut::Cut;
use crate::halt::{Halt, bare, found, halt_of};
use crate::index::index_of_variables;
use crate::section::automaton_of;
use crate::unknown::{Sought, unknown_words};
use crate::words::{count_words, misfit_words, queue_words, sorts_words};
use ioa_names::{NameTable, View};
use ioa_refusals::Refusal;
use ioa_sort_rules::shape_in_terms;
use ioa_sorts::{fit, infer};
use ioa_source::{Sort, Text};
use ioa_terms::{Name, Shape, Term, Word};
use ioa_types::Types;
use ioa_walk::Part;
use std::alloc::{AllocError, Global};
use std::mem;

/// What stands before the numbers of two nodes where an invariant reads a queue.
const QUEUE: &str = "queue";

/// A refused text: its tokens and its tree.
#[derive(Drop)]
pub(crate) struct Whole<'a> {
    /// The text with its tokens.
    pub cut: Cut<'a>,
    /// Its tree.
    pub source: &'a Text<(), (), ()>,
    /// No names, for what reads none.
    pub none: NameTable,
}

/// What is looked for, in a text of these types and constants.
#[derive(Clone, Copy)]
pub(crate) struct Ask<'a> {
    pub alloc: Global,
    /// The refusal that was told.
    pub told: Refusal,
    /// The text's types.
    pub types: &'a Types,
    /// The constants of its enumerations.
    pub constants: &'a NameTable,
    /// The text.
    pub whole: &'a Whole<'a>,
}

/// How terms are asked.
#[derive(Clone, Copy)]
pub(crate) enum Way<'a> {
    /// They are passed and not asked.
    Passed,
    /// By the sorts of terms that read these names.
    Names(&'a View<'a>),
    /// The same in an invariant, where `queue` stands before the numbers of two nodes.
    Readings(&'a View<'a>),
}

/// What is looked for in terms.
#[derive(Clone, Copy)]
pub(crate) struct TermAsk<'a, 'w> {
    pub alloc: Global,
    /// The refusal that was told.
    pub told: Refusal,
    /// How they are asked.
    pub way: Way<'a>,
    /// The text.
    pub whole: &'w Whole<'w>,
}

impl<'a> Ask<'a> {
    /// What is looked for in terms that read these names.
    pub(crate) fn in_view<'b>(&self, view: &'b View<'b>) -> TermAsk<'b, 'a> {
        TermAsk {
            alloc: self.alloc,
            told: self.told,
            way: Way::Names(view),
            whole: self.whole,
        }
    }

    /// What is looked for in an invariant that reads these names.
    pub(crate) fn in_readings<'b>(&self, view: &'b View<'b>) -> TermAsk<'b, 'a> {
        TermAsk {
            alloc: self.alloc,
            told: self.told,
            way: Way::Readings(view),
            whole: self.whole,
        }
    }

    /// Terms that are passed and not asked.
    pub(crate) fn in_passing(&self) -> TermAsk<'a, 'a> {
        TermAsk {
            alloc: self.alloc,
            told: self.told,
            way: Way::Passed,
            whole: self.whole,
        }
    }

    /// Ends the walk at a part, if the refusal that was told is this one.
    pub(crate) fn told_at(&self, refusal: Refusal, part: Part) -> Result<(), Halt> {
        if self.told == refusal {
            Err(bare(self.alloc, part))
        } else {
            Ok(())
        }
    }

    /// Ends the walk at a part with a name that was sought and not found, if that was told.
    pub(crate) fn unknown_at(
        &self,
        part: Part,
        sought: Sought<'_>,
        name: &Word,
    ) -> Result<(), Halt> {
        if self.told == Refusal::Unknown {
            Err(found(part, unknown_words(self.alloc, self.whole, sought, name)))
        } else {
            Ok(())
        }
    }

    /// Ends the walk at a part with a name that has another number of arguments than it takes, if that was told.
    pub(crate) fn count_at(
        &self,
        part: Part,
        name: &Word,
        asked: usize,
        there: usize,
    ) -> Result<(), Halt> {
        if self.told == Refusal::Sorts && asked != there {
            Err(found(part, count_words(self.alloc, name.as_str(), asked, there)))
        } else {
            Ok(())
        }
    }

    /// The shape of a sort that was asked before.
    pub(crate) fn shape_of(&self, sort: &Sort) -> Result<Shape, Halt> {
        match self.types.shape_of(self.alloc, sort) {
            Ok(found) => Ok(found.into_shape()),
            Err(refusal) => Err(halt_of(refusal)),
        }
    }

    /// Ends the walk at the part of a sort, if it is refused as was told.
    pub(crate) fn sort_at(&self, sort: &Sort, part: Part) -> Result<(), Halt> {
        match self.types.shape_of(self.alloc, sort) {
            Ok(_) => Ok(()),
            Err(Refusal::Memory) => Err(Halt::Memory),
            Err(Refusal::Unknown) => self.unknown_sort_at(sort, part),
            Err(refusal) => self.told_at(refusal, part),
        }
    }

    /// Ends the walk at the part of a sort that is not declared, if that was told.
    fn unknown_sort_at(&self, sort: &Sort, part: Part) -> Result<(), Halt> {
        match sort {
            Sort::Named(name) => self.unknown_at(part, Sought::Types(self.types), name),
            _ => self.told_at(Refusal::Unknown, part),
        }
    }

    /// Puts a name, which was asked before, behind those of a table.
    pub(crate) fn declare(
        &self,
        table: &mut NameTable,
        name: Word,
        shape: Shape,
    ) -> Result<(), Halt> {
        let before = mem::replace(table, NameTable::new(self.alloc));
        match before.with(self.alloc, name, shape) {
            Ok(after) => {
                *table = after;
                Ok(())
            }
            Err(refusal) => Err(halt_of(refusal)),
        }
    }
}

/// Whether a refusal is the one that was told.
fn is_told(refusal: Refusal, told: Refusal) -> Result<bool, AllocError>
    ensures memory { IfOk result (λ _. refusal ≡ Memory → ⊥) }
    ensures told { IfOk result (λ b. b ≡ true → refusal ≡ told) }
{
    if refusal == Refusal::Memory {
        return Err(AllocError);
    }
    Ok(refusal == told)
}

/// Whether a term that stands for itself is refused as was told.
fn is_refused(alloc: Global, view: &View, term: &Term, told: Refusal) -> Result<bool, AllocError>
    ensures { IfOk result (λ b. b ≡ true → infer (sorting view.now (term_of term.now)) ≡ Err told) }
{
    match infer(alloc, view, term) {
        Ok(_) => Ok(false),
        Err(refusal) => is_told(refusal, told),
    }
}

/// Whether a term at the place of a shape is refused as was told.
fn is_refused_at(
    alloc: Global,
    view: &View,
    term: &Term,
    want: &Shape,
    told: Refusal,
) -> Result<bool, AllocError>
    ensures { IfOk result (λ b. b ≡ true → fit (sorting view.now (term_of term.now)) want.now ≡ Err told) }
{
    match fit(alloc, view, term, want) {
        Ok(_) => Ok(false),
        Err(refusal) => is_told(refusal, told),
    }
}

/// Whether a term calls `queue`: with two numbers it is a name, and no call.
fn is_call_of_queue(term: &Term) -> bool {
    match term {
        Term::Call(function, _, _) => function.as_str() == QUEUE,
        _ => false,
    }
}

impl<'a, 'w> TermAsk<'a, 'w> {
    /// Whether a term that stands for itself is refused as was told.
    pub(crate) fn refuses(&self, term: &Term) -> Result<bool, AllocError> {
        match self.way {
            Way::Passed => Ok(false),
            Way::Names(view) => is_refused(self.alloc, view, term, self.told),
            Way::Readings(view) => {
                if self.told == Refusal::Sorts && is_call_of_queue(term) {
                    return Ok(true);
                }
                is_refused(self.alloc, view, term, self.told)
            }
        }
    }

    /// Whether a term at the place of a declared shape is refused as was told.
    pub(crate) fn refuses_at(&self, term: &Term, declared: &Shape) -> Result<bool, AllocError> {
        match self.way {
            Way::Passed => Ok(false),
            Way::Names(view) | Way::Readings(view) => {
                let want = shape_in_terms(self.alloc, declared)?;
                is_refused_at(self.alloc, view, term, &want, self.told)
            }
        }
    }

    /// What is asked of terms that are no culprit and have none in them.
    pub(crate) fn in_passing(&self) -> Self {
        TermAsk {
            alloc: self.alloc,
            told: self.told,
            way: Way::Passed,
            whole: self.whole,
        }
    }

    /// What is said of a term that is refused as was told.
    pub(crate) fn words_of(&self, term: &Term) -> Result<Vec<u8>, AllocError> {
        match self.way {
            Way::Names(view) => self.words_in(view, term),
            Way::Readings(view) => {
                if is_call_of_queue(term) {
                    return queue_words(self.alloc);
                }
                self.words_in(view, term)
            }
            Way::Passed => Ok(Vec::new(self.alloc)),
        }
    }

    /// What is said of a term that is refused as was told where these names are read.
    fn words_in(&self, view: &View, term: &Term) -> Result<Vec<u8>, AllocError> {
        match self.told {
            Refusal::Unknown => self.unknown_in(term, Sought::View(view)),
            Refusal::Sorts => sorts_words(self.alloc, view, term),
            _ => Ok(Vec::new(self.alloc)),
        }
    }

    /// What is said of a term that is a name, or a call, and is not known.
    fn unknown_in(&self, term: &Term, sought: Sought<'_>) -> Result<Vec<u8>, AllocError> {
        match term {
            Term::Name(Name::Word(name), _) => {
                unknown_words(self.alloc, self.whole, sought, name)
            }
            Term::Name(Name::Variable { name, node }, _) => self.unknown_state(name, *node),
            Term::Call(name, _, _) => {
                unknown_words(self.alloc, self.whole, Sought::Functions, name)
            }
            _ => Ok(Vec::new(self.alloc)),
        }
    }

    /// What is said of a name that is no state variable of a node.
    fn unknown_state(&self, name: &Word, node: i64) -> Result<Vec<u8>, AllocError> {
        match automaton_of(self.whole.source, node) {
            None => Ok(Vec::new(self.alloc)),
            Some(automaton) => {
                let states = index_of_variables(self.alloc, &automaton.states)?;
                unknown_words(self.alloc, self.whole, Sought::States(&states), name)
            }
        }
    }

    /// What is said of a term that is refused as was told at the place of a shape.
    pub(crate) fn words_at(&self, term: &Term, want: &Shape) -> Result<Vec<u8>, AllocError> {
        match self.way {
            Way::Names(view) | Way::Readings(view) if self.told == Refusal::Sorts => {
                misfit_words(self.alloc, view, term, want)
            }
            _ => Ok(Vec::new(self.alloc)),
        }
    }
}
