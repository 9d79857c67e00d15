//! What a page has: a title, a part of the text, and details below it.

ghost use Rattle.std.specs.Prelude.{◌≡◌, ◌++◌, IfOk, OnOk};
ghost use Rattle.ioa_explain_schedule.specs.Pages as spec;

use ioa_place::{Place, place_at, show_part};
use ioa_schedule_check::ScheduleFault;
use std::alloc::{AllocError, Global};

/// What is told of a refusal in a part of a text, with details.
pub(crate) fn page_with(
    alloc: Global,
    name: &str,
    text: &str,
    fault: ScheduleFault,
    offset: usize,
    end: usize,
    details: &[u8],
) -> Result<Vec<u8>, AllocError>
    ensures { IfOk result (λ page. page.items ≡ spec.refused_text name.now text.now fault offset end details.now) }
{
    let mut page = Vec::new(alloc);
    push_title(alloc, &mut page, name, place_at(text, offset), fault)?;
    show_part(alloc, &mut page, text, offset, end)?;
    page.extend_from_slice(details)?;
    Ok(page)
}

/// Adds a title: the name of a text, a place in it, and the refusal.
fn push_title(
    alloc: Global,
    page: &mut Vec<u8>,
    name: &str,
    place: Place,
    fault: ScheduleFault,
) -> Result<(), AllocError>
    ensures { OnOk result (page.new.items ≡ page.old.items ++ spec.title name.now place (spec.fault_title fault)) }
{
    let line = place.line;
    let column = place.column;
    let head = format!(in alloc; "{name}:{line}:{column}: ")?;
    page.extend_from_slice(head.as_bytes())?;
    page.extend_from_slice(title_of(fault).as_bytes())?;
    page.extend_from_slice(b"\n")
}

/// The number and the name of a refusal.
fn title_of(fault: ScheduleFault) -> &'static str
    ensures { result.now ≡ spec.fault_title fault }
{
    match fault {
        ScheduleFault::Undefined(_) => "1 Undefined",
        ScheduleFault::Range(_) => "2 Range",
        ScheduleFault::Memory => "3 Memory",
        ScheduleFault::NotStep(_) => "60 NotStep",
        ScheduleFault::BadLine(_) => "61 BadLine",
    }
}

/// Adds a line of details, which is indented, if there are any.
pub(crate) fn push_if_any(page: &mut Vec<u8>, detail: &str) -> Result<(), AllocError>
    ensures { OnOk result (page.new.items ≡ page.old.items ++ spec.detail_if_any detail.now) }
{
    if detail.is_empty() {
        return Ok(());
    }
    page.extend_from_slice(b"      ")?;
    page.extend_from_slice(detail.as_bytes())?;
    page.extend_from_slice(b"\n")
}
