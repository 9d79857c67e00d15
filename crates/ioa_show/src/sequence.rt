//! Sequence diagrams.

ghost use Rattle.std.specs.Prelude.{◌≡◌, ◌++◌, None, codes, false, map};
ghost use Rattle.std.specs.Arc.{arc_value};
ghost use Rattle.std.specs.Fmt.{decimal};
ghost use Rattle.ioa_values.specs.Text.{text, with_commas};
ghost use Rattle.ioa_paper.specs.Papers.{and_text};
ghost use Rattle.ioa_show.specs.Shown.{PutsWhole};
ghost use Rattle.ioa_show.specs.Sequences.{action_note, arrow, choice_note, ends, entry_line, entry_lines};
ghost use Rattle.ioa_show.specs.Sequences.{last_note, last_words, many_note, note};
ghost use Rattle.ioa_show.specs.Sequences.{participant_line, participant_lines, participant_text};
ghost use Rattle.ioa_show.specs.Sequences.{positions, send_note, sequence_of, sequence_text, title, warning};

use crate::memory::{RAN_OUT, ran_out};
use crate::partners::{partner_at, partners};
use ioa_actions::{Action, NodeAction};
use ioa_paper::{Paper, ReportFault, put_arguments, put_choices, put_listed, put_value, room};
use ioa_rawlog::RawLog;
use ioa_record::Ending;
use ioa_streams::{Out, OutFailed};
use ioa_system::{Program, System};
use ioa_transitions::Entry;
use ioa_values::{Names, Value};
use std::alloc::Global;
use std::sync::Arc;

/// From how many actions on a note says that viewers may refuse them.
pub const MANY: usize = 1_000;

/// Puts out the sequence diagram of a schedule (Lynch 8.1; form: profile) for Mermaid: a participant for each node, a
/// message at its receive with the positions of its send and its receive, so that no two arrows cross, and a note for
/// each other action, for each message that was not received, and for what the effect of a send or a receive chose. If
/// memory ran out in the run, by these endings, a last note says so. A schedule that no run left has no endings. Of
/// invariants it says nothing.
pub fn mermaid<O: Out>(
    alloc: Global,
    system: &System,
    schedule: &RawLog<Entry>,
    endings: &[Ending],
    out: &mut O,
) -> Result<(), ReportFault>
    requires { O.failed out.old ≡ false }
    ensures { PutsWhole (sequence_of system.now schedule.now endings.now)
        (O.bytes out.old) (O.bytes out.new) (O.failed out.new) result }
{
    let partners = partners(alloc, schedule)?;
    let room = room(alloc)?;
    let mut paper = Paper::new(out, room);
    put_sequence(&mut paper, system, schedule, &partners, ran_out(endings));
    let (out, outcome) = paper.finish();
    // No effect at run time. The proof reads what `out` holds from the reference that comes back.
    let _ = &*out;
    match outcome {
        Ok(()) => Ok(()),
        Err(OutFailed) => Err(ReportFault::Write),
    }
}

/// Writes the diagram, if these are the partners of the schedule.
fn put_sequence<O: Out>(
    paper: &mut Paper<'_, O>,
    system: &System,
    schedule: &RawLog<Entry>,
    partners: &[Option<usize>],
    is_short: bool,
)
    ensures { paper.new ≡ and_text paper.old (sequence_text system.now partners.now is_short schedule.now) }
{
    put_title(paper);
    put_participants(paper, system.programs());
    put_warning(paper, schedule.len());
    put_entries(paper, system.names(), schedule, partners);
    put_last(paper, is_short);
}

/// Writes the last note, if memory ran out.
fn put_last<O: Out>(paper: &mut Paper<'_, O>, is_short: bool)
    ensures { paper.new ≡ and_text paper.old (last_note is_short) }
{
    if is_short {
        put_last_note(paper);
    }
}

/// Writes the last note.
fn put_last_note<O: Out>(paper: &mut Paper<'_, O>)
    ensures { paper.new ≡ and_text paper.old last_words }
{
    paper.put("    Note over n0: ");
    paper.put(RAN_OUT);
    paper.put("\n");
}

/// Writes the first line.
fn put_title<O: Out>(paper: &mut Paper<'_, O>)
    ensures { paper.new ≡ and_text paper.old title }
{
    paper.put("sequenceDiagram\n");
}

/// Writes the nodes with the names of their automata.
fn put_participants<O: Out>(paper: &mut Paper<'_, O>, programs: &[Arc<Program>])
    ensures { paper.new ≡ and_text paper.old (participant_lines (map arc_value programs.now)) }
{
    for program in programs {
        put_participant(paper, program);
    }
}

/// Writes a node with the name of its automaton.
fn put_participant<O: Out>(paper: &mut Paper<'_, O>, program: &Program)
    ensures { paper.new ≡ and_text paper.old (participant_line program.now) }
{
    put_named(paper, program.node(), program.automaton().name().as_str());
}

/// Writes a node of a number with the name of its automaton.
fn put_named<O: Out>(paper: &mut Paper<'_, O>, node: i64, name: &str)
    ensures { paper.new ≡ and_text paper.old (participant_text node name.now) }
{
    paper.put("    participant n");
    paper.put_number(node);
    paper.put(" as node ");
    paper.put_number(node);
    paper.put(": ");
    paper.put(name);
    paper.put("\n");
}

/// Writes a note if there are many actions.
fn put_warning<O: Out>(paper: &mut Paper<'_, O>, count: usize)
    ensures { paper.new ≡ and_text paper.old (warning count) }
{
    if count > MANY {
        put_many(paper, count);
    }
}

/// Writes a note that there are many actions.
fn put_many<O: Out>(paper: &mut Paper<'_, O>, count: usize)
    ensures { paper.new ≡ and_text paper.old (many_note count) }
{
    paper.put("    Note over n0: ");
    paper.put_number(count);
    paper.put(" actions, which viewers may refuse\n");
}

/// Writes the actions.
fn put_entries<O: Out>(
    paper: &mut Paper<'_, O>,
    names: &Names,
    schedule: &RawLog<Entry>,
    partners: &[Option<usize>],
)
    ensures { paper.new ≡ and_text paper.old (entry_lines names.now partners.now 0 schedule.now) }
{
    let mut position = 0;
    for entry in schedule.walk() {
        let partner = partner_at(partners, position);
        let (action, chosen) = (entry.action(), entry.chosen());
        put_entry(paper, names, position, partner, action, chosen);
        position += 1;
    }
}

/// Writes an action: a message at its receive, and all others as notes. A send whose message is received has none. What
/// the effect chose stands behind the action, or in a note of its own.
fn put_entry<O: Out>(
    paper: &mut Paper<'_, O>,
    names: &Names,
    position: usize,
    partner: Option<usize>,
    action: &Action,
    chosen: &[Value],
)
    ensures { paper.new ≡ and_text paper.old (entry_line names.now position partner action.now chosen.now) }
{
    match action {
        Action::Send { message, from, to } => {
            put_send(paper, names, position, partner, message, *from, *to);
            put_choice(paper, names, *from, position, chosen)
        }
        Action::Receive { message, from, to } => {
            put_arrow(paper, names, position, partner, message, *from, *to);
            put_choice(paper, names, *to, position, chosen)
        }
        Action::Local(action) => put_note(paper, names, position, action, chosen),
        Action::Stimulus(action) => put_note(paper, names, position, action, chosen),
    }
}

/// Writes a note on a send if its message is not received.
fn put_send<O: Out>(
    paper: &mut Paper<'_, O>,
    names: &Names,
    position: usize,
    partner: Option<usize>,
    message: &Value,
    from: i64,
    to: i64,
)
    ensures { paper.new ≡ and_text paper.old (send_note position partner (text names.now message.now) from to) }
{
    match partner {
        Some(_) => {}
        None => put_lost(paper, names, position, message, from, to),
    }
}

/// Writes a message at its receive.
fn put_arrow<O: Out>(
    paper: &mut Paper<'_, O>,
    names: &Names,
    position: usize,
    partner: Option<usize>,
    message: &Value,
    from: i64,
    to: i64,
)
    ensures { paper.new ≡ and_text paper.old (arrow names.now position partner (text names.now message.now) from to) }
{
    put_ends(paper, from, to);
    put_positions(paper, partner, position);
    put_value(paper, names, message);
    paper.put("\n");
}

/// Writes from which node to which a message goes.
fn put_ends<O: Out>(paper: &mut Paper<'_, O>, from: i64, to: i64)
    ensures { paper.new ≡ and_text paper.old (ends from to) }
{
    paper.put("    n");
    paper.put_number(from);
    paper.put("->>n");
    paper.put_number(to);
    paper.put(": ");
}

/// Writes the positions of a send and its receive.
fn put_positions<O: Out>(paper: &mut Paper<'_, O>, sent: Option<usize>, received: usize)
    ensures { paper.new ≡ and_text paper.old (positions sent received) }
{
    match sent {
        None => put_one(paper, received),
        Some(sent) => {
            paper.put_number(sent);
            paper.put("-");
            put_one(paper, received);
        }
    }
}

/// Writes a position and a space.
fn put_one<O: Out>(paper: &mut Paper<'_, O>, position: usize)
    ensures { paper.new ≡ and_text paper.old (decimal position ++ codes " ") }
{
    paper.put_number(position);
    paper.put(" ");
}

/// Writes a note on a message that is not received.
fn put_lost<O: Out>(
    paper: &mut Paper<'_, O>,
    names: &Names,
    position: usize,
    message: &Value,
    from: i64,
    to: i64,
)
    ensures { paper.new ≡ and_text paper.old
        (send_note position None (text names.now message.now) from to) }
{
    put_over(paper, from, position);
    paper.put("sends ");
    put_value(paper, names, message);
    paper.put(" to n");
    paper.put_number(to);
    paper.put(", not received\n");
}

/// Writes a note on an action of a node, with what its effect chose.
fn put_note<O: Out>(
    paper: &mut Paper<'_, O>,
    names: &Names,
    position: usize,
    action: &NodeAction,
    chosen: &[Value],
)
    ensures { paper.new ≡ and_text paper.old (action_note names.now position action.now chosen.now) }
{
    put_over(paper, action.node, position);
    paper.put(action.name.as_str());
    put_arguments(paper, names, action.arguments.as_slice());
    put_choices(paper, names, chosen);
    paper.put("\n");
}

/// Writes a note on what the effect of a send or a receive chose at its node; nothing if it chose nothing.
fn put_choice<O: Out>(
    paper: &mut Paper<'_, O>,
    names: &Names,
    node: i64,
    position: usize,
    chosen: &[Value],
)
    ensures { paper.new ≡ and_text paper.old (choice_note names.now node position chosen.now) }
{
    match chosen {
        [] => {}
        [_, ..] => put_chosen(paper, names, node, position, chosen),
    }
}

/// Writes a note on values that were chosen.
fn put_chosen<O: Out>(
    paper: &mut Paper<'_, O>,
    names: &Names,
    node: i64,
    position: usize,
    chosen: &[Value],
)
    ensures { paper.new ≡ and_text paper.old (note node position
        ++ (codes "choose " ++ (with_commas (map (text names.now) chosen.now) ++ codes "\n"))) }
{
    put_over(paper, node, position);
    paper.put("choose ");
    put_listed(paper, names, chosen);
    paper.put("\n");
}

/// Writes the beginning of a note at a node, with a position.
fn put_over<O: Out>(paper: &mut Paper<'_, O>, node: i64, position: usize)
    ensures { paper.new ≡ and_text paper.old (note node position) }
{
    paper.put("    Note over n");
    paper.put_number(node);
    paper.put(": ");
    paper.put_number(position);
    paper.put(" ");
}
