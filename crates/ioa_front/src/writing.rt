//! Pieces written as a text.

ghost use Rattle.std.specs.Prelude.{◌≡◌, ◌++◌, IfOk, OnOk, map, string_bytes};
ghost use Rattle.ioa_tokens.specs.Written.{gap_text, token_text};
ghost use Rattle.ioa_front.specs.Pieces.{piece_token};
ghost use Rattle.ioa_front.specs.Printed.{IsPrinted};

use crate::layout::Layout;
use crate::piece::Piece;
use ioa_tokens::{Gap, push_mark, push_number, push_word};
use std::alloc::{AllocError, Global};

/// Writes a gap and then a piece.
fn push_piece(text: &mut String, gap: Gap, piece: Piece<'_>) -> Result<(), AllocError>
    ensures { OnOk result (string_bytes text.new ≡
        string_bytes text.old ++ (gap_text gap ++ token_text (piece_token piece.entry))) }
{
    match piece {
        Piece::Word(word) => push_word(text, gap, word),
        Piece::Number(number) => push_number(text, gap, number),
        Piece::Mark(mark) => push_mark(text, gap, mark),
    }
}

/// The text of pieces, laid out in lines.
pub(crate) fn text_of_pieces(alloc: Global, pieces: &[Piece<'_>]) -> Result<String, AllocError>
    ensures { IfOk result (λ s. IsPrinted (map piece_token pieces.now) (string_bytes s)) }
{
    let mut text = String::new(alloc);
    let mut layout = Layout::new();
    let mut before = None;
    for piece in pieces {
        push_piece(&mut text, layout.gap(before, *piece), *piece)?;
        layout.pass(before, *piece);
        before = Some(*piece);
    }
    text.push_str("\n")?;
    Ok(text)
}
