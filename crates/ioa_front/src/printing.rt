//! Texts printed.

ghost use Rattle.std.specs.Prelude.{IfOk, string_bytes};
ghost use Rattle.ioa_source.specs.TextView.{text_of};
ghost use Rattle.ioa_text_reader.specs.Texts.{TextSpells};
ghost use Rattle.ioa_front.specs.Spelling.{text_spelling};
ghost use Rattle.ioa_front.specs.Printed.{IsPrinted};

use crate::texts::pieces_of;
use crate::writing::text_of_pieces;
use ioa_source::Text;
use ioa_text_reader::Source;
use std::alloc::{AllocError, Global};

/// The text of a tree, laid out in lines.
pub(crate) fn print_text(alloc: Global, text: &Text<(), (), ()>) -> Result<String, AllocError>
    ensures { IfOk result (λ s. IsPrinted (text_spelling (text_of text.now)) (string_bytes s)) }
{
    let pieces = pieces_of(alloc, text)?;
    text_of_pieces(alloc, pieces.as_slice())
}

/// A source as text. Each declaration is laid out in lines, each part by two spaces further than what it
/// is part of. Each operator term that is part of another term is in round brackets. A line feed ends the
/// text. `parse` reads the same source from it, unless it is longer than a text may be. If memory runs
/// out, `AllocError` comes; the source stays as it is. Source: profile.
pub fn print(alloc: Global, source: &Source) -> Result<String, AllocError>
    ensures written { IfOk result (λ s. IsPrinted (text_spelling (text_of source.now.text)) (string_bytes s)) }
    ensures spelled { IfOk result (λ s. TextSpells (text_of source.now.text) (string_bytes s)) }
{
    print_text(alloc, source.text())
}
