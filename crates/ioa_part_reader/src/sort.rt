//! Sorts.

ghost use Rattle.ioa_cursor.specs.Outcome.{Reads};
ghost use Rattle.ioa_terms.specs.SortView.{sort_of};
ghost use Rattle.ioa_part_reader.specs.Reading as spec;

use ioa_cursor::{Tokens, Unread};
use ioa_source::Sort;
use ioa_tokens::Mark;
use std::alloc::Global;

/// Sort. `room` is how many more brackets may be opened.
#[cycle(sort)]
#[tactic(auto, unfolding(crate::specs::Reading::sort_in, crate::specs::bind, crate::specs::choose))]
pub(crate) fn sort(alloc: Global, tokens: &mut Tokens<'_>, room: usize) -> Result<Sort, Unread>
    ensures { Reads sort_of (spec.sort room tokens.old) result tokens.new }
{
    if tokens.at_word() {
        let name = tokens.word(alloc)?;
        return Ok(Sort::Named(name));
    }
    let refusal = tokens.refusal();
    match tokens.peek_mark() {
        None => Err(refusal),
        Some(mark) => {
            tokens.advance();
            marked_sort(alloc, tokens, room, mark, refusal)
        }
    }
}

/// The sort that a mark begins, after the mark. `refusal` is the refusal of the mark.
#[cycle(sort)]
#[tactic(auto, unfolding(crate::specs::Reading::marked_sort, crate::specs::bind))]
fn marked_sort(
    alloc: Global,
    tokens: &mut Tokens<'_>,
    room: usize,
    mark: Mark,
    refusal: Unread,
) -> Result<Sort, Unread>
    ensures { Reads sort_of (spec.marked_sort (spec.sort_in room) mark tokens.old) result tokens.new }
{
    match mark {
        Mark::Bool => Ok(Sort::Bool),
        Mark::Int => Ok(Sort::Int),
        Mark::Nat => Ok(Sort::Nat),
        Mark::Seq => {
            let items = item_sort(alloc, tokens, room)?;
            Ok(Sort::Seq(Box::new(alloc, items)?))
        }
        Mark::Set => {
            let members = item_sort(alloc, tokens, room)?;
            Ok(Sort::Set(Box::new(alloc, members)?))
        }
        Mark::Map => map_sort(alloc, tokens, room),
        _ => Err(refusal),
    }
}

/// `[` Sort `]`
#[cycle(sort)]
#[tactic(auto, unfolding(crate::specs::Reading::item_sort, crate::specs::bind))]
fn item_sort(alloc: Global, tokens: &mut Tokens<'_>, room: usize) -> Result<Sort, Unread>
    ensures { Reads sort_of (spec.item_sort (spec.sort_in room) tokens.old) result tokens.new }
{
    let deep = tokens.too_deep();
    tokens.expect(Mark::OpenSquare)?;
    let items = inner_sort(alloc, tokens, room, deep)?;
    tokens.expect(Mark::CloseSquare)?;
    Ok(items)
}

/// `[` Sort `,` Sort `]`
#[cycle(sort)]
#[tactic(auto, unfolding(crate::specs::Reading::map_sort, crate::specs::bind))]
fn map_sort(alloc: Global, tokens: &mut Tokens<'_>, room: usize) -> Result<Sort, Unread>
    ensures { Reads sort_of (spec.map_sort (spec.sort_in room) tokens.old) result tokens.new }
{
    let deep = tokens.too_deep();
    tokens.expect(Mark::OpenSquare)?;
    let keys = inner_sort(alloc, tokens, room, deep)?;
    let deep = tokens.too_deep();
    tokens.expect(Mark::Comma)?;
    let values = inner_sort(alloc, tokens, room, deep)?;
    tokens.expect(Mark::CloseSquare)?;
    Ok(Sort::Map(Box::new(alloc, keys)?, Box::new(alloc, values)?))
}

/// Sort, after a bracket. If there is no room for the bracket, the refusal is `deep`.
#[cycle(sort)]
#[tactic(auto, unfolding(crate::specs::Reading::sort_in))]
fn inner_sort(
    alloc: Global,
    tokens: &mut Tokens<'_>,
    room: usize,
    deep: Unread,
) -> Result<Sort, Unread>
    ensures { Reads sort_of (spec.sort_in room tokens.old) result tokens.new }
{
    if room == 0 {
        return Err(deep);
    }
    sort(alloc, tokens, room - 1)
}
