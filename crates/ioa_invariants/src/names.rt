//! The names that a term reads.

ghost use Rattle.std.specs.Prelude.{◌≡◌, [], IfOk, map};
ghost use Rattle.ioa_values.specs.Outcome.{Answers};
ghost use Rattle.ioa_terms.specs.PlainTerm.{terms_of};
ghost use Rattle.ioa_terms.specs.View.{term_of};
ghost use Rattle.ioa_invariants.specs.ReadNames as spec;

use ioa_names::ReadNames;
use ioa_refusals::Refusal;
use ioa_terms::{Name, Term, Word};
use std::alloc::{AllocError, Global};

/// The names `x@k` and `queue(i, j)` that a term reads, each once, in the order of their first places. `Sorts` (22) if
/// it calls `queue` with other terms than two numbers.
pub(crate) fn names_read(alloc: Global, term: &Term) -> Result<ReadNames, Refusal>
    ensures { Answers Refusal.Memory (λ n. n) result (spec.read_in [] (term_of term.now)) }
{
    let mut names = ReadNames::new(alloc);
    match add_names(alloc, term, &mut names) {
        Ok(()) => Ok(names),
        Err(refusal) => Err(refusal),
    }
}

/// Puts the names that a term reads behind others, each that is new once.
#[cycle(adding)]
fn add_names(alloc: Global, term: &Term, names: &mut ReadNames) -> Result<(), Refusal>
    ensures { Answers Refusal.Memory (λ _. names.new) result (spec.read_in names.old (term_of term.now)) }
{
    match term {
        Term::Number(_) => Ok(()),
        Term::Truth(_) => Ok(()),
        Term::Name(name, _) => Ok(add_name(alloc, name, names)?),
        Term::One(_, part) => add_names(alloc, part, names),
        Term::Two(_, left, right) => {
            add_names(alloc, left, names)?;
            add_names(alloc, right, names)
        }
        Term::Call(function, _, parts) => {
            if is_queue(function) {
                return Err(Refusal::Sorts);
            }
            add_all_names(alloc, parts, names)
        }
        Term::Display(_, _, parts) => add_all_names(alloc, parts, names),
        Term::Field(part, _, _) => add_names(alloc, part, names),
    }
}

/// The same of several terms.
#[cycle(adding)]
fn add_all_names(alloc: Global, terms: &Vec<Term>, names: &mut ReadNames) -> Result<(), Refusal>
    ensures { Answers Refusal.Memory (λ _. names.new) result
        (spec.read_all_in names.old (terms_of (map term_of terms.now.items))) }
{
    for term in terms {
        add_names(alloc, term, names)?;
    }
    Ok(())
}

/// Puts a name behind others, if it is `x@k` or `queue(i, j)` and is new.
fn add_name(alloc: Global, name: &Name, names: &mut ReadNames) -> Result<(), AllocError>
    ensures { IfOk result (λ _. names.new ≡ spec.read_name names.old name.now) }
{
    match name {
        Name::Word(_) => Ok(()),
        Name::Variable { .. } => add_new(alloc, name, names),
        Name::Queue { .. } => add_new(alloc, name, names),
    }
}

/// Puts a name behind others, if it is new.
fn add_new(alloc: Global, name: &Name, names: &mut ReadNames) -> Result<(), AllocError>
    ensures { IfOk result (λ _. names.new ≡ spec.with_new names.old name.now) }
{
    let _fresh = names.declare(name.try_copy(alloc)?)?;
    Ok(())
}

/// Whether a function is `queue`.
fn is_queue(function: &Word) -> bool
    ensures { result ≡ spec.is_queue function.now }
{
    match function.as_str() {
        "queue" => true,
        _ => false,
    }
}
