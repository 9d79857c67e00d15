//! What all explanations have: a title, a part of the text, and details below it.

ghost use Rattle.std.specs.Prelude.{◌≡◌, ◌++◌, IfOk, OnOk, codes};
ghost use Rattle.ioa_culprit.specs.Cuts.{AreTokensOf};
ghost use Rattle.ioa_explain.specs.Pages as spec;

use ioa_place::Place;
use ioa_tokens::{CutFault, LocatedToken, tokens};
use std::alloc::{AllocError, Global};

/// Adds a title: the name of a text and a place in it, and what is there.
pub(crate) fn push_title(
    alloc: Global,
    page: &mut Vec<u8>,
    name: &str,
    place: Place,
    what: &[u8],
) -> Result<(), AllocError>
    ensures { OnOk result (page.new.items ≡ page.old.items ++ spec.title name.now place what.now) }
{
    let line = place.line;
    let column = place.column;
    let head = format!(in alloc; "{name}:{line}:{column}: ")?;
    page.extend_from_slice(head.as_bytes())?;
    page.extend_from_slice(what)?;
    page.extend_from_slice(b"\n")
}

/// Adds a line of details, which is indented.
pub(crate) fn push_detail(page: &mut Vec<u8>, detail: &[u8]) -> Result<(), AllocError>
    ensures { OnOk result (page.new.items ≡ page.old.items ++ spec.detail detail.now) }
{
    page.extend_from_slice(b"      ")?;
    page.extend_from_slice(detail)?;
    page.extend_from_slice(b"\n")
}

/// Adds a line of details, if there are any.
pub(crate) fn push_if_any(page: &mut Vec<u8>, detail: &[u8]) -> Result<(), AllocError>
    ensures { OnOk result (page.new.items ≡ page.old.items ++ spec.detail_if_any detail.now) }
{
    if detail.is_empty() {
        return Ok(());
    }
    push_detail(page, detail)
}

/// The tokens of a text; none if it can't be cut.
pub(crate) fn tokens_of<'a>(
    alloc: Global,
    text: &'a str,
) -> Result<Vec<LocatedToken<'a>>, AllocError>
    ensures { IfOk result (λ v. AreTokensOf text.now v.items) }
{
    match tokens(alloc, text) {
        Ok(found) => Ok(found),
        Err(CutFault::Memory) => Err(AllocError),
        Err(_) => Ok(Vec::new(alloc)),
    }
}
