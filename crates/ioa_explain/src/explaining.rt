//! Explanations: from a text to what is wrong with it.

ghost use Rattle.std.specs.Prelude.{◌≡◌, false, IfOk, IfSome, codes};
ghost use Rattle.ioa_walk.specs.Places.{IsSpanIn};
ghost use Rattle.ioa_culprit.specs.Cuts.{AreTokensOf};
ghost use Rattle.ioa_explain.specs.Explanations as spec;
ghost use Rattle.ioa_explain.specs.Verdicts.{HasTokens, IsVerdictOn};

use crate::fault::ExplainFault;
use crate::further::further_page;
use crate::reading::unread_page;
use crate::refused::refused_page;
use crate::verdict::{Judged, Verdict, judge};
use ioa_culprit::Span;
use ioa_refusals::Refusal;
use ioa_streams::{Out, OutFailed, put_all};
use std::alloc::{AllocError, Global};

/// What is told of a text that describes a system.
const NOTHING_WRONG: &[u8] = b"nothing wrong\n";

/// What an explanation says of a text.
#[derive(Clone, Copy, Debug, PartialEq, Eq)]
pub enum Finding {
    /// The text describes a system.
    NothingWrong,
    /// The text is refused.
    Refused,
}

/// Tells people what is wrong with a text, or `nothing wrong`. The first line has the name of the text as it is given,
/// the line and the column of the place, and the number and the name of the refusal, which are those of the reader and
/// the check. For a refusal of the check it names the declaration. Below stand the line with carets, what is found, and
/// what is asked for.
pub fn explain<O: Out>(
    alloc: Global,
    name: &str,
    text: &str,
    out: &mut O,
) -> Result<Finding, ExplainFault>
    requires { O.failed out.old ≡ false }
    ensures found { IfOk result (λ f. spec.IsFindingOn f text.now) }
    ensures told { spec.Explains name.now text.now
        (O.bytes out.old) (O.bytes out.new) (O.failed out.new) result }
{
    match explanation_of(alloc, name, text) {
        Ok(explanation) => put_explanation(out, &explanation),
        Err(AllocError) => Err(ExplainFault::Memory),
    }
}

/// What is wrong with a text, and what is told of it.
#[derive(Drop)]
struct Explanation {
    /// Whether the text is refused.
    finding: Finding,
    /// What is told of it.
    page: Vec<u8>,
}

/// Puts out an explanation.
fn put_explanation<O: Out>(out: &mut O, explanation: &Explanation) -> Result<Finding, ExplainFault>
    requires { O.failed out.old ≡ false }
    ensures finding { IfOk result (λ f. f ≡ explanation.now.finding) }
    ensures put { spec.Puts explanation.now.page.items
        (O.bytes out.old) (O.bytes out.new) (O.failed out.new) result }
{
    match put_all(out, &explanation.page) {
        Ok(()) => Ok(explanation.finding),
        Err(OutFailed) => Err(ExplainFault::Write),
    }
}

/// What is wrong with a text, and what is told of it.
fn explanation_of(alloc: Global, name: &str, text: &str) -> Result<Explanation, AllocError>
    ensures found { IfOk result (λ e. spec.IsFindingOn e.finding text.now) }
    ensures told { IfOk result (λ e. spec.IsExplanationOf name.now text.now e.page.items) }
{
    let judged = judge(alloc, text)?;
    let page = page_of(alloc, name, text, &judged)?;
    let finding = finding_of(&judged.verdict);
    Ok(Explanation { finding, page })
}

/// Whether a verdict is a refusal.
fn finding_of(verdict: &Verdict) -> Finding
    ensures { result ≡ spec.finding_of verdict.now }
{
    match verdict {
        Verdict::Accepted => Finding::NothingWrong,
        Verdict::Unread(_) | Verdict::Refused { .. } => Finding::Refused,
    }
}

/// What is told of a verdict on a text.
fn page_of(
    alloc: Global,
    name: &str,
    text: &str,
    judged: &Judged<'_>,
) -> Result<Vec<u8>, AllocError>
    requires said { IsVerdictOn judged.now.verdict text.now }
    requires cut { HasTokens judged.now.verdict text.now judged.now.tokens.items }
    ensures { IfOk result (λ page. spec.Tells name.now text.now judged.now.verdict page.items) }
{
    match &judged.verdict {
        Verdict::Accepted => good_page(alloc),
        Verdict::Unread(fault) => unread_page(alloc, name, text, fault),
        Verdict::Refused {
            refusal,
            index,
            part,
        } => faults_page(alloc, name, text, *refusal, *index, *part, judged),
    }
}

/// What is told of a refusal of the check, and then of further faults.
fn faults_page(
    alloc: Global,
    name: &str,
    text: &str,
    refusal: Refusal,
    index: usize,
    part: Option<Span>,
    judged: &Judged<'_>,
) -> Result<Vec<u8>, AllocError>
    requires cut { AreTokensOf text.now judged.now.tokens.items }
    requires within { IfSome part (IsSpanIn text.now) }
    ensures { IfOk result (λ page. spec.TellsFaults name.now text.now refusal index part page.items) }
{
    let tokens = judged.tokens.as_slice();
    let first = refused_page(
        alloc,
        name,
        text,
        tokens,
        refusal,
        index,
        part,
        &judged.words,
    )?;
    let more = further_page(alloc, name, text, tokens, part)?;
    let mut page = Vec::new(alloc);
    page.extend_from_slice(&first)?;
    page.extend_from_slice(&more)?;
    Ok(page)
}

/// What is told of a text that describes a system.
fn good_page(alloc: Global) -> Result<Vec<u8>, AllocError>
    ensures { IfOk result (λ page. page.items ≡ codes "nothing wrong\n") }
{
    let mut page = Vec::new(alloc);
    page.extend_from_slice(NOTHING_WRONG)?;
    Ok(page)
}
