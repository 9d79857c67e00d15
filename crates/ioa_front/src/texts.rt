//! The pieces of a whole text.

ghost use Rattle.std.specs.Prelude.{◌≡◌, IfOk, map};
ghost use Rattle.ioa_source.specs.TextView.{call_of, placement_of, invariant_of, text_of};
ghost use Rattle.ioa_front.specs.Pieces.{Puts};
ghost use Rattle.ioa_front.specs.Spelling as spec;

use crate::declarations::put_declarations;
use crate::piece::Pieces;
use crate::statements::put_call;
use crate::terms::put_term;
use ioa_actions::ChannelKind;
use ioa_source::{Call, Invariant, Placement, Text};
use ioa_tokens::Mark;
use std::alloc::{AllocError, Global};

/// Puts calls with commas between.
fn put_calls<'a>(out: &mut Pieces<'a>, calls: &'a [Call<(), (), ()>]) -> Result<(), AllocError>
    ensures { Puts (spec.calls_spelling (map call_of calls.now)) result out.old out.new }
{
    let mut first = true;
    for call in calls {
        out.put_between(Mark::Comma, first)?;
        put_call(out, &call.name, &call.arguments)?;
        first = false;
    }
    Ok(())
}

/// Puts what says that a channel keeps no order, if it keeps none.
fn put_channel_kind(out: &mut Pieces<'_>, kind: ChannelKind) -> Result<(), AllocError>
    ensures { Puts (spec.channel_kind_spelling kind) result out.old out.new }
{
    match kind {
        ChannelKind::Ordered => Ok(()),
        ChannelKind::Unordered => out.put_mark(Mark::Unordered),
    }
}

/// Puts a node, a channel or a script.
fn put_placement<'a>(
    out: &mut Pieces<'a>,
    placement: &'a Placement<(), (), ()>,
) -> Result<(), AllocError>
    ensures { Puts (spec.placement_spelling (placement_of placement.now)) result out.old out.new }
{
    match placement {
        Placement::Node(node) => {
            out.put_mark(Mark::Node)?;
            out.put_number(node.number)?;
            out.put_mark(Mark::Colon)?;
            put_call(out, &node.automaton, &node.arguments)
        }
        Placement::Channel(channel) => {
            out.put_mark(Mark::Channel)?;
            out.put_number(channel.from)?;
            out.put_mark(Mark::Arrow)?;
            out.put_number(channel.to)?;
            put_channel_kind(out, channel.kind)
        }
        Placement::Script(script) => {
            out.put_mark(Mark::Script)?;
            out.put_number(script.node)?;
            out.put_mark(Mark::Colon)?;
            put_calls(out, &script.calls)
        }
    }
}

/// Puts nodes, channels and scripts.
fn put_placements<'a>(
    out: &mut Pieces<'a>,
    placements: &'a [Placement<(), (), ()>],
) -> Result<(), AllocError>
    ensures { Puts (spec.joined_spelling spec.placement_spelling (map placement_of placements.now))
        result out.old out.new }
{
    for placement in placements {
        put_placement(out, placement)?;
    }
    Ok(())
}

/// Puts an invariant.
fn put_invariant<'a>(
    out: &mut Pieces<'a>,
    invariant: &'a Invariant<(), (), ()>,
) -> Result<(), AllocError>
    ensures { Puts (spec.invariant_spelling (invariant_of invariant.now)) result out.old out.new }
{
    out.put_mark(Mark::Invariant)?;
    out.put_word(&invariant.name)?;
    out.put_mark(Mark::Colon)?;
    put_term(out, &invariant.term)
}

/// Puts invariants.
fn put_invariants<'a>(
    out: &mut Pieces<'a>,
    invariants: &'a [Invariant<(), (), ()>],
) -> Result<(), AllocError>
    ensures { Puts (spec.joined_spelling spec.invariant_spelling (map invariant_of invariants.now))
        result out.old out.new }
{
    for invariant in invariants {
        put_invariant(out, invariant)?;
    }
    Ok(())
}

/// The pieces of a text.
pub(crate) fn pieces_of<'a>(
    alloc: Global,
    text: &'a Text<(), (), ()>,
) -> Result<Pieces<'a>, AllocError>
    ensures { IfOk result (λ p. p ≡ spec.text_spelling (text_of text.now)) }
{
    let mut out = Pieces::new(alloc);
    put_declarations(&mut out, &text.declarations)?;
    out.put_mark(Mark::System)?;
    put_placements(&mut out, &text.system)?;
    put_invariants(&mut out, &text.invariants)?;
    Ok(out)
}
