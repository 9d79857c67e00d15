//! Whole texts.

ghost use Rattle.ioa_cursor.specs.Outcome.{Reads};
ghost use Rattle.ioa_part_reader.specs.Reading as spec;
ghost use Rattle.ioa_source.specs.TextView.{text_of};

use ioa_cursor::{Tokens, Unread};
use ioa_part_reader::{declarations, invariants, placements};
use ioa_source::Text;
use ioa_tokens::Mark;
use std::alloc::Global;

/// {Type or Automaton} `system` {Node or Channel or Script} {Invariant}, and then the end
#[tactic(auto, unfolding(ioa_part_reader::specs::Reading::whole, ioa_part_reader::specs::bind))]
pub(crate) fn whole(alloc: Global, tokens: &mut Tokens<'_>) -> Result<Text<(), (), ()>, Unread>
    ensures { Reads text_of (spec.whole tokens.old) result tokens.new }
{
    let declarations = declarations(alloc, tokens)?;
    tokens.expect(Mark::System)?;
    let system = placements(alloc, tokens)?;
    let invariants = invariants(alloc, tokens)?;
    tokens.end()?;
    Ok(Text {
        declarations,
        system,
        invariants,
    })
}
