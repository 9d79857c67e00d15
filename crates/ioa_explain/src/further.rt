//! Further faults of a text: what the check says of it if the parts that were refused before are left out.

ghost use Rattle.std.specs.Prelude.{◌≡◌, ◌++◌, IfOk, IfSome, Ok, OnOk, Some, true};
ghost use Rattle.std.specs.List.{AllByRecursion};
ghost use Rattle.ioa_tokens.specs.Tokens as cutting;
ghost use Rattle.ioa_walk.specs.Places.{IsSpanIn};
ghost use Rattle.ioa_culprit.specs.Cuts.{AreTokensOf};
ghost use Rattle.ioa_explain.specs.FurtherFaults as spec;
ghost use Rattle.ioa_explain.specs.Verdicts.{IsVerdictOn};

use crate::refused::refused_page;
use crate::units::{Extent, Unit, starts_declaration, unit_at};
use crate::verdict::{Judged, Verdict, judge};
use ioa_actions::RECEIVE;
use ioa_culprit::Span;
use ioa_place::token_at;
use ioa_refusals::Refusal;
use ioa_terms::Word;
use ioa_tokens::{LocatedToken, Mark, Token};
use ioa_walk::{Part, is_mark, one_token, span_of};
use std::alloc::{AllocError, Global};

/// A text is asked so often at most.
const MOST_ASKS: usize = 64;

/// And so many bytes of it, all in all.
const MOST_BYTES: usize = 4_194_304;

/// A text of more bytes is not asked again: a megabyte is explained in about three times what its refusal takes.
const MOST_LENGTH: usize = 524_288;

/// So many further faults are told at most.
const MOST_TOLD: usize = 19;

/// A further fault of a text.
#[derive(Drop)]
struct Fault {
    /// The refusal.
    refusal: Refusal,
    /// The part that is refused.
    span: Span,
    /// What is found there, in words.
    words: Vec<u8>,
}

/// Whether a byte is a blank, or the one that stood there.
#[tactic(auto, unfolding(crate::specs::FurtherFaults::is_left))]
fn is_left(byte: u8, other: u8) -> bool
    ensures { result ≡ spec.is_left byte other }
{
    byte == 32 || byte == other
}

/// Whether a text is another one with blanks in the place of some bytes.
fn is_without(left: &[u8], text: &[u8]) -> bool
    ensures { result ≡ spec.is_without left.now text.now }
{
    for (position, byte) in left.iter().enumerate() {
        match text.get(position) {
            None => return false,
            Some(other) => {
                if !is_left(*byte, *other) {
                    return false;
                }
            }
        }
    }
    text.len() == left.len()
}

/// Whether a part of what is left of a text is a part of the text, which has these tokens.
fn is_part_of(text: &str, tokens: &[LocatedToken<'_>], span: Span) -> bool
    requires { cutting.tokens text.now ≡ Ok tokens.now }
    ensures { result ≡ true → IsSpanIn text.now span }
{
    match token_at(tokens, span.offset) {
        None => false,
        Some(first) => {
            for last in first..tokens.len() {
                if is_span_of(text, tokens, Part { first, last }, span) {
                    return true;
                }
            }
            false
        }
    }
}

/// Whether a part of a text is this one.
fn is_span_of(text: &str, tokens: &[LocatedToken<'_>], part: Part, span: Span) -> bool
    requires { cutting.tokens text.now ≡ Ok tokens.now }
    ensures { result ≡ true → IsSpanIn text.now span }
{
    match span_of(text, tokens, part) {
        None => false,
        Some(found) => found == span,
    }
}

/// A fault of what is left of a text.
#[derive(Drop)]
struct Step {
    /// The fault.
    fault: Fault,
    /// Whether it may follow from what was left out.
    follows: bool,
    /// What is left without it; nothing if the rest can't be asked.
    left: Option<Left>,
}

/// The fault of what is left of a text, if the check refuses that in a part that is found.
fn step_of(
    alloc: Global,
    text: &str,
    tokens: &[LocatedToken<'_>],
    left: &Left,
) -> Result<Option<Step>, AllocError>
    requires { cutting.tokens text.now ≡ Ok tokens.now }
    ensures { IfOk result (λ found. IfSome found (λ s. spec.IsFault text.now s.fault.refusal s.fault.span)) }
{
    let asked = left.text.as_str();
    if !is_without(asked.as_bytes(), text.as_bytes()) {
        return Ok(None);
    }
    let judged = judge(alloc, asked)?;
    step_by(alloc, text, tokens, asked, &left.names, &judged)
}

/// The fault that a verdict on what is left of a text says, if it is a refusal in a part that is found. `names` were
/// declared in what was left out.
fn step_by(
    alloc: Global,
    text: &str,
    tokens: &[LocatedToken<'_>],
    left: &str,
    names: &[Word],
    judged: &Judged<'_>,
) -> Result<Option<Step>, AllocError>
    requires cut { cutting.tokens text.now ≡ Ok tokens.now }
    requires without { spec.is_without left.now text.now ≡ true }
    requires said { IsVerdictOn judged.now.verdict left.now }
    ensures { IfOk result (λ found. IfSome found (λ s. spec.IsFault text.now s.fault.refusal s.fault.span)) }
{
    match &judged.verdict {
        Verdict::Accepted => Ok(None),
        Verdict::Unread(_) => Ok(None),
        Verdict::Refused {
            refusal,
            index: _,
            part,
        } => match part {
            None => Ok(None),
            Some(span) => {
                if !is_part_of(text, tokens, *span) {
                    return Ok(None);
                }
                let mut words = Vec::new(alloc);
                words.extend_from_slice(&judged.words)?;
                let follows = may_follow(names, &judged.tokens, *refusal, *span);
                let less = left_without(alloc, left, names, &judged.tokens, *span)?;
                Ok(Some(Step {
                    fault: Fault {
                        refusal: *refusal,
                        span: *span,
                        words,
                    },
                    follows,
                    left: less,
                }))
            }
        },
    }
}

/// What is left of a text, and which names were declared in the rest.
#[derive(Drop)]
struct Left {
    /// The text, with blanks in the place of what was left out.
    text: String,
    /// The names that were declared there.
    names: Vec<Word>,
}

/// What is left of a text of these tokens without the unit about a part that is refused; nothing if the rest can't be
/// asked. `names` were declared in what was left out before.
fn left_without(
    alloc: Global,
    text: &str,
    names: &[Word],
    tokens: &[LocatedToken<'_>],
    span: Span,
) -> Result<Option<Left>, AllocError> {
    match token_at(tokens, span.offset) {
        None => Ok(None),
        Some(position) => match unit_about(tokens, position) {
            None => Ok(None),
            Some(unit) => left_of(alloc, text, names, tokens, unit),
        },
    }
}

/// The unit about a position, if there is one.
fn unit_about(tokens: &[LocatedToken<'_>], position: usize) -> Option<Unit> {
    let unit = unit_at(tokens, position)?;
    if unit.extent.from <= position && position < unit.extent.to {
        Some(unit)
    } else {
        None
    }
}

/// What is left of a text of these tokens without a unit, and without what is asked only if the unit is good.
fn left_of(
    alloc: Global,
    text: &str,
    before: &[Word],
    tokens: &[LocatedToken<'_>],
    unit: Unit,
) -> Result<Option<Left>, AllocError> {
    let mut names = Vec::new(alloc);
    for name in before {
        names.push(name.try_copy(alloc)?)?;
    }
    push_names(alloc, &mut names, tokens, unit.names)?;
    let mut bytes = Vec::new(alloc);
    bytes.extend_from_slice(text.as_bytes())?;
    leave_out(&mut bytes, text, tokens, unit.extent);
    leave_out(&mut bytes, text, tokens, behind(tokens, unit.extent.from));
    match String::from_utf8(bytes) {
        Ok(text) => Ok(Some(Left { text, names })),
        Err(_) => Ok(None),
    }
}

/// What is asked only if a unit that begins at a position is good: the system section's lines and the invariants if it
/// stands before that section, or else the invariants, if it is none.
fn behind(tokens: &[LocatedToken<'_>], position: usize) -> Extent {
    let to = tokens.len();
    for at in position..to {
        if is_system(tokens, at) {
            return Extent {
                from: at.saturating_add(1),
                to,
            };
        }
        if is_invariant(tokens, at) {
            let from = if at == position { to } else { at };
            return Extent { from, to };
        }
    }
    Extent { from: to, to }
}

/// Whether the system section begins at a position.
fn is_system(tokens: &[LocatedToken<'_>], position: usize) -> bool {
    match tokens.get(position) {
        None => false,
        Some(located) => is_mark(located, Mark::System),
    }
}

/// Whether an invariant begins at a position.
fn is_invariant(tokens: &[LocatedToken<'_>], position: usize) -> bool {
    match tokens.get(position) {
        None => false,
        Some(located) => is_mark(located, Mark::Invariant),
    }
}

/// Puts blanks in the place of tokens of a text.
fn leave_out(bytes: &mut Vec<u8>, text: &str, tokens: &[LocatedToken<'_>], extent: Extent) {
    for position in extent.from..extent.to {
        if let Some(span) = span_of(text, tokens, one_token(position)) {
            blank(bytes, span);
        }
    }
}

/// Puts blanks in the place of what stands between two offsets.
fn blank(bytes: &mut Vec<u8>, span: Span) {
    for position in span.offset..span.end {
        if position < bytes.len() {
            bytes[position] = b' ';
        }
    }
}

/// Adds the names among some tokens.
fn push_names(
    alloc: Global,
    names: &mut Vec<Word>,
    tokens: &[LocatedToken<'_>],
    extent: Extent,
) -> Result<(), AllocError> {
    for position in extent.from..extent.to {
        if let Some(located) = tokens.get(position) {
            push_name(alloc, names, &located.token)?;
        }
    }
    Ok(())
}

/// Adds the name that a token is, if it is one. With `receive` goes what waits from a node.
fn push_name(alloc: Global, names: &mut Vec<Word>, token: &Token<'_>) -> Result<(), AllocError> {
    match token {
        Token::Word(word) => {
            let bytes = word.as_bytes();
            let name = Word::from_ascii(alloc, bytes)?;
            if name.as_str() == RECEIVE {
                names.push(Word::from_ascii(alloc, b"inbox")?)?;
            }
            names.push(name)?;
            Ok(())
        }
        Token::Number(_) | Token::Mark(_) | Token::LeftOut(_) => Ok(()),
    }
}

/// Whether a refusal of a part of what is left of a text, which has these tokens, may follow from what was left out: a
/// name, or a transition, is missing that was declared there.
fn may_follow(names: &[Word], tokens: &[LocatedToken<'_>], refusal: Refusal, span: Span) -> bool {
    if refusal != Refusal::Unknown && refusal != Refusal::NoTransition {
        return false;
    }
    for located in tokens {
        if span.offset <= located.offset
            && located.offset < span.end
            && is_one_of(names, &located.token)
        {
            return true;
        }
    }
    false
}

/// Whether a token is one of these names.
fn is_one_of(names: &[Word], token: &Token<'_>) -> bool {
    match token {
        Token::Word(word) => {
            let bytes = word.as_bytes();
            names.iter().any(|name| *name.as_str().as_bytes() == *bytes)
        }
        Token::Number(_) | Token::Mark(_) | Token::LeftOut(_) => false,
    }
}

/// How often a text of a length is asked at most.
fn most_asks(length: usize) -> usize {
    if length > MOST_LENGTH {
        return 0;
    }
    (MOST_BYTES / length.max(1)).min(MOST_ASKS)
}

/// Adds a fault of what is left of a text to others, unless it may follow from what was left out. Returns what is left
/// without it.
fn take_step(text: &str, faults: &mut Vec<Fault>, step: Step) -> Result<Option<Left>, AllocError>
    requires others { AllByRecursion (λ f. spec.IsFault text.now f.refusal f.span) faults.old.items }
    requires fault { spec.IsFault text.now step.fault.refusal step.fault.span }
    ensures { OnOk result (AllByRecursion (λ f. spec.IsFault text.now f.refusal f.span) faults.new.items) }
{
    let Step {
        fault,
        follows,
        left,
    } = step;
    if !follows {
        faults.push(fault)?;
    }
    Ok(left)
}

/// The faults of a text of these tokens behind the first one, which it has in this part, in the order in which they are
/// found.
fn faults_of(
    alloc: Global,
    text: &str,
    tokens: &[LocatedToken<'_>],
    span: Span,
) -> Result<Vec<Fault>, AllocError>
    requires { cutting.tokens text.now ≡ Ok tokens.now }
    ensures { IfOk result (λ fs. AllByRecursion (λ f. spec.IsFault text.now f.refusal f.span) fs.items) }
{
    let mut faults = Vec::new(alloc);
    let mut left = match left_without(alloc, text, &[], tokens, span)? {
        None => return Ok(faults),
        Some(left) => left,
    };
    for _turn in 0..most_asks(text.len()) {
        match step_of(alloc, text, tokens, &left)? {
            None => return Ok(faults),
            Some(step) => match take_step(text, &mut faults, step)? {
                None => return Ok(faults),
                Some(less) => left = less,
            },
        }
    }
    Ok(faults)
}

/// How many faults stand before the one at a position among faults.
fn rank_of(faults: &[Fault], position: usize, offset: usize) -> usize {
    let mut rank: usize = 0;
    for (other, fault) in faults.iter().enumerate() {
        if fault.span.offset < offset || (fault.span.offset == offset && other < position) {
            rank = rank.saturating_add(1);
        }
    }
    rank
}

/// The fault before which so many others stand in a text.
fn fault_of_rank<'a>(text: &str, faults: &'a [Fault], rank: usize) -> Option<&'a Fault>
    requires { AllByRecursion (λ f. spec.IsFault text.now f.refusal f.span) faults.now }
    ensures { IfSome result (λ f. spec.IsFault text.now f.now.refusal f.now.span) }
{
    for (position, fault) in faults.iter().enumerate() {
        if rank_of(faults, position, fault.span.offset) == rank {
            return Some(fault);
        }
    }
    None
}

/// The index of the top declaration that has what stands at an offset.
fn index_at(tokens: &[LocatedToken<'_>], offset: usize) -> usize {
    let mut before: usize = 0;
    for located in tokens {
        if located.offset <= offset && starts_declaration(located) {
            before = before.saturating_add(1);
        }
    }
    before.saturating_sub(1)
}

/// What is told of a fault.
fn page_of(
    alloc: Global,
    name: &str,
    text: &str,
    tokens: &[LocatedToken<'_>],
    fault: &Fault,
) -> Result<Vec<u8>, AllocError>
    requires cut { AreTokensOf text.now tokens.now }
    requires fault { spec.IsFault text.now fault.now.refusal fault.now.span }
    ensures { IfOk result (λ page. spec.TellsFault name.now text.now page.items) }
{
    let index = index_at(tokens, fault.span.offset);
    let page = refused_page(
        alloc,
        name,
        text,
        tokens,
        fault.refusal,
        index,
        Some(fault.span),
        &fault.words,
    )?;
    Ok(page)
}

/// Adds what is told of a fault.
#[tactic(auto, using(crate::proofs::Grown::grown))]
fn push_page(name: &str, text: &str, pages: &mut Vec<u8>, page: &[u8]) -> Result<(), AllocError>
    requires pages { spec.AreFaults name.now text.now pages.old.items }
    requires page { spec.TellsFault name.now text.now page.now }
    ensures { OnOk result (spec.AreFaults name.now text.now pages.new.items) }
{
    pages.extend_from_slice(page)?;
    Ok(())
}

/// What is told of faults, in the order of the text, as far as they are told.
#[tactic(auto, using(crate::proofs::Grown::none_yet))]
fn pages_of(
    alloc: Global,
    name: &str,
    text: &str,
    tokens: &[LocatedToken<'_>],
    faults: &[Fault],
) -> Result<Vec<u8>, AllocError>
    requires cut { AreTokensOf text.now tokens.now }
    requires faults { AllByRecursion (λ f. spec.IsFault text.now f.refusal f.span) faults.now }
    ensures { IfOk result (λ pages. spec.AreFaults name.now text.now pages.items) }
{
    let mut pages = Vec::new(alloc);
    for rank in 0..faults.len().min(MOST_TOLD) {
        if let Some(fault) = fault_of_rank(text, faults, rank) {
            let page = page_of(alloc, name, text, tokens, fault)?;
            push_page(name, text, &mut pages, &page)?;
        }
    }
    Ok(pages)
}

/// What is told of the faults of a text of these tokens behind the first one, which it has in this part if one was
/// found.
#[tactic(auto, using(crate::proofs::Grown::nothing_further, crate::proofs::Verdicts::cut_by))]
pub(crate) fn further_page(
    alloc: Global,
    name: &str,
    text: &str,
    tokens: &[LocatedToken<'_>],
    part: Option<Span>,
) -> Result<Vec<u8>, AllocError>
    requires cut { AreTokensOf text.now tokens.now }
    requires within { IfSome part (IsSpanIn text.now) }
    ensures { IfOk result (λ page. spec.TellsFurther name.now text.now page.items) }
{
    match part {
        None => Ok(Vec::new(alloc)),
        Some(span) => behind_first(alloc, name, text, tokens, span),
    }
}

/// What is told of the faults of a text of these tokens behind the first one, which it has in this part.
fn behind_first(
    alloc: Global,
    name: &str,
    text: &str,
    tokens: &[LocatedToken<'_>],
    span: Span,
) -> Result<Vec<u8>, AllocError>
    requires cut { cutting.tokens text.now ≡ Ok tokens.now }
    requires are { AreTokensOf text.now tokens.now }
    ensures { IfOk result (λ page. spec.TellsFurther name.now text.now page.items) }
{
    let faults = faults_of(alloc, text, tokens, span)?;
    let pages = pages_of(alloc, name, text, tokens, &faults)?;
    with_hidden(
        alloc,
        name,
        text,
        pages,
        faults.len().saturating_sub(MOST_TOLD),
    )
}

/// What is told of further faults, and how many are not told.
fn with_hidden(
    alloc: Global,
    name: &str,
    text: &str,
    pages: Vec<u8>,
    hidden: usize,
) -> Result<Vec<u8>, AllocError>
    requires { spec.AreFaults name.now text.now pages.items }
    ensures { IfOk result (λ page. spec.TellsFurther name.now text.now page.items) }
{
    let mut page = pages;
    push_hidden(alloc, &mut page, hidden)?;
    Ok(page)
}

/// Adds a line that says how many faults are not told, if there are any.
fn push_hidden(alloc: Global, page: &mut Vec<u8>, hidden: usize) -> Result<(), AllocError>
    ensures { OnOk result (page.new.items ≡ page.old.items ++ spec.hidden_line hidden) }
{
    if hidden == 0 {
        return Ok(());
    }
    let line = format!(in alloc; "not told: {hidden} more\n")?;
    page.extend_from_slice(line.as_bytes())
}
