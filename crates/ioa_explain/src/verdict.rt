//! What the reader and the check say of a text.

ghost use Rattle.std.specs.Prelude.{◌≡◌, IfOk};
ghost use Rattle.std.specs.Option.{option_map};
ghost use Rattle.ioa_source.specs.TextView.{text_of};
ghost use Rattle.ioa_explain.specs.Verdicts.{IsFaultOf, IsVerdictOf, IsVerdictOn, SaysWhether, unread_verdict};
ghost use Rattle.ioa_explain.specs.Verdicts.{HasTokens};

use crate::sections::Sections;
use ioa_check::check;
use ioa_culprit::{Search, Span, Spot, culprit};
use ioa_refusals::Refusal;
use ioa_sections::CheckFault;
use ioa_system::System;
use ioa_text_reader::{FrontFault, Source, parse};
use ioa_tokens::LocatedToken;
use std::alloc::{AllocError, Global};

/// What the reader and the check say of a text.
#[derive(Debug, Drop)]
pub(crate) enum Verdict {
    /// It describes a system.
    Accepted,
    /// It spells no source, for this reason, which is not want of memory.
    Unread(FrontFault),
    /// Its source describes no system.
    Refused {
        /// Why not.
        refusal: Refusal,
        /// The index of the top declaration.
        index: usize,
        /// The part of the declaration that is refused, if it was found.
        part: Option<Span>,
    },
}

/// A verdict, and what is found at the part of a text that is refused.
#[derive(Debug, Drop)]
pub(crate) struct Judged<'a> {
    /// The verdict.
    pub verdict: Verdict,
    /// What is found there, in words: which name is not known, or which sorts are there; nothing if that is not known.
    pub words: Vec<u8>,
    /// The tokens of a text that the check refuses.
    pub tokens: Vec<LocatedToken<'a>>,
}

/// What the reader and the check say of a text.
pub(crate) fn judge<'a>(alloc: Global, text: &'a str) -> Result<Judged<'a>, AllocError>
    ensures said { IfOk result (λ j. IsVerdictOn j.verdict text.now) }
    ensures whether { IfOk result (λ j. SaysWhether j.verdict text.now) }
    ensures cut { IfOk result (λ j. HasTokens j.verdict text.now j.tokens.items) }
{
    match parse(alloc, text) {
        Ok(source) => {
            let judged = of_source(alloc, text, &source)?;
            Ok(judged)
        }
        Err(fault) => match unread(fault) {
            Some(verdict) => Ok(Judged {
                verdict,
                words: Vec::new(alloc),
                tokens: Vec::new(alloc),
            }),
            None => Err(AllocError),
        },
    }
}

/// What a refusal of the reader says of a text; want of memory says nothing.
fn unread(fault: FrontFault) -> Option<Verdict>
    ensures { result ≡ unread_verdict fault }
{
    match fault {
        FrontFault::Memory => None,
        refusal => Some(Verdict::Unread(refusal)),
    }
}

/// What the check says of the source that a text spells.
fn of_source<'a>(alloc: Global, text: &'a str, source: &Source) -> Result<Judged<'a>, AllocError>
    ensures said { IfOk result (λ j. IsVerdictOf j.verdict (text_of source.now.text) text.now) }
    ensures cut { IfOk result (λ j. HasTokens j.verdict text.now j.tokens.items) }
{
    match check(alloc, source.text()) {
        Ok(system) => Ok(accepted(alloc, system)),
        Err(fault) => refused(alloc, text, source, fault),
    }
}

/// The verdict on a source of which this system was made.
fn accepted<'a>(alloc: Global, system: System) -> Judged<'a>
    ensures { result.verdict ≡ Verdict.Accepted }
{
    drop(system);
    Judged {
        verdict: Verdict::Accepted,
        words: Vec::new(alloc),
        tokens: Vec::new(alloc),
    }
}

/// The verdict on a source that has this fault; want of memory says nothing.
#[tactic(auto, using(crate::proofs::Verdicts::refused_exact, crate::proofs::Verdicts::said_by, crate::proofs::Verdicts::tokens_by))]
fn refused<'a>(
    alloc: Global,
    text: &'a str,
    source: &Source,
    fault: CheckFault,
) -> Result<Judged<'a>, AllocError>
    requires { IsFaultOf fault (text_of source.now.text) }
    ensures said { IfOk result (λ j. IsVerdictOf j.verdict (text_of source.now.text) text.now) }
    ensures cut { IfOk result (λ j. HasTokens j.verdict text.now j.tokens.items) }
{
    match fault {
        CheckFault::Memory => Err(AllocError),
        CheckFault::Refused { refusal, index } => {
            let sections = Sections::of(alloc, source.text(), index)?;
            let found = culprit(alloc, text, source.text(), index, refusal, &sections)?;
            Ok(refused_in(alloc, refusal, index, found))
        }
    }
}

/// The verdict on a text that is refused, after the search for the part.
fn refused_in<'a>(alloc: Global, refusal: Refusal, index: usize, found: Search<'a>) -> Judged<'a>
    ensures verdict { result.verdict ≡ Verdict.Refused refusal index (option_map (λ s. s.span) found.entry.spot) }
    ensures tokens { result.tokens.items ≡ found.entry.tokens.items }
{
    let Search { spot, tokens } = found;
    match spot {
        None => Judged {
            verdict: Verdict::Refused {
                refusal,
                index,
                part: None,
            },
            words: Vec::new(alloc),
            tokens,
        },
        Some(Spot { span, words }) => Judged {
            verdict: Verdict::Refused {
                refusal,
                index,
                part: Some(span),
            },
            words,
            tokens,
        },
    }
}
