//! The part of a term that has no value.

ghost use Rattle.std.specs.Prelude.{◌≡◌, IfOk, IfSome, map};
ghost use Rattle.std.specs.Option.{option_map};
ghost use Rattle.ioa_terms.specs.Bindings.{names_of};
ghost use Rattle.ioa_terms.specs.Meaning.{answer};
ghost use Rattle.ioa_terms.specs.PlainTerm.{terms_of};
ghost use Rattle.ioa_terms.specs.Resolved.{AreTermsResolved, IsResolved};
ghost use Rattle.ioa_terms.specs.View.{term_of};
ghost use Rattle.ioa_reasons.specs.Faulty as spec;

use ioa_terms::{Checked, Env, TermFault, eval};
use std::alloc::{AllocError, Global};

/// The smallest part of a term that has no value while its own parts have, the first one from left to right.
#[cycle(faulty)]
#[tactic(auto, using(crate::proofs::FaultyTerms::within_is))]
pub(crate) fn faulty_part<'a>(
    alloc: Global,
    term: &'a Checked,
    env: &Env,
) -> Result<Option<&'a Checked>, AllocError>
    requires { IsResolved (term_of term.now) (names_of env.now) }
    ensures part { IfOk result
        (λ o. option_map (λ t. term_of t.now) o ≡ spec.faulty_part (term_of term.now) env.now) }
    ensures resolved { IfOk result (λ o. IfSome o (λ t. IsResolved (term_of t.now) (names_of env.now))) }
{
    if !is_faulty(alloc, term, env)? {
        return Ok(None);
    }
    match faulty_within(alloc, term, env)? {
        Some(part) => Ok(Some(part)),
        None => Ok(Some(term)),
    }
}

/// The same of what a term consists of.
#[cycle(faulty)]
fn faulty_within<'a>(
    alloc: Global,
    term: &'a Checked,
    env: &Env,
) -> Result<Option<&'a Checked>, AllocError>
    requires { IsResolved (term_of term.now) (names_of env.now) }
    ensures part { IfOk result
        (λ o. option_map (λ t. term_of t.now) o ≡ spec.faulty_within (term_of term.now) env.now) }
    ensures resolved { IfOk result (λ o. IfSome o (λ t. IsResolved (term_of t.now) (names_of env.now))) }
{
    match term {
        Checked::Number(_) | Checked::Truth(_) | Checked::Name(_, _) => Ok(None),
        Checked::One(_, part) | Checked::Field(part, _, _) => faulty_part(alloc, part, env),
        Checked::Two(_, left, right) => match faulty_part(alloc, left, env)? {
            Some(part) => Ok(Some(part)),
            None => faulty_part(alloc, right, env),
        },
        Checked::Call(_, _, parts) | Checked::Display(_, _, parts) => {
            first_faulty(alloc, parts, env)
        }
    }
}

/// The same of terms, one after another.
#[cycle(faulty)]
fn first_faulty<'a>(
    alloc: Global,
    terms: &'a Vec<Checked>,
    env: &Env,
) -> Result<Option<&'a Checked>, AllocError>
    requires { AreTermsResolved (terms_of (map term_of terms.now.items)) (names_of env.now) }
    ensures part { IfOk result (λ o. option_map (λ t. term_of t.now) o
        ≡ spec.first_faulty (terms_of (map term_of terms.now.items)) env.now) }
    ensures resolved { IfOk result (λ o. IfSome o (λ t. IsResolved (term_of t.now) (names_of env.now))) }
{
    for term in terms {
        match faulty_part(alloc, term, env)? {
            Some(part) => return Ok(Some(part)),
            None => {}
        }
    }
    Ok(None)
}

/// Whether a term has no value.
fn is_faulty(alloc: Global, term: &Checked, env: &Env) -> Result<bool, AllocError>
    requires { IsResolved (term_of term.now) (names_of env.now) }
    ensures { IfOk result (λ b. b ≡ spec.is_fault (answer (term_of term.now) env.now)) }
{
    match eval(alloc, term, env) {
        Ok(_) => Ok(false),
        Err(TermFault::Undefined) => Ok(true),
        Err(TermFault::Range) => Ok(true),
        Err(TermFault::Memory) => Err(AllocError),
    }
}
