//! The messages, as arrows.

ghost use Rattle.std.specs.Prelude.{◌≡◌, IfOk, map};
ghost use Rattle.ioa_values.specs.Text.{text};
ghost use Rattle.ioa_paper.specs.Papers.{and_text};
ghost use Rattle.ioa_show.specs.Arrows.{arrow, arrow_title, arrows, chosen_at, lost, lost_title};
ghost use Rattle.ioa_show.specs.Arrows.{message_at, numbered};
ghost use Rattle.ioa_show.specs.Arrows as spec;

use crate::frame::{Frame, Point};
use crate::partners::partner_at;
use crate::space_time::put_line;
use ioa_actions::{Action, RECEIVE, SEND};
use ioa_paper::{Paper, put_choices, put_entry, put_message};
use ioa_rawlog::RawLog;
use ioa_streams::Out;
use ioa_transitions::Entry;
use ioa_values::{Names, Value};
use std::alloc::{AllocError, Global};

/// How far a message goes that is not received.
const WAY: usize = 20;

/// Between which nodes a message goes, and at which positions.
#[derive(Clone, Copy, Debug)]
pub struct Way {
    /// The node that sends.
    pub from: i64,
    /// The node that receives.
    pub to: i64,
    /// The position of the send.
    pub start: usize,
    /// The position of the receive.
    pub end: usize,
}

/// The entries of a schedule, in order, at a constant cost for each that is looked up.
pub fn entries_of(alloc: Global, schedule: &RawLog<Entry>) -> Result<Vec<&Entry>, AllocError>
    ensures { IfOk result (λ v. map (λ e. e.now) v.items ≡ schedule.now) }
{
    let mut entries = Vec::new(alloc);
    for entry in schedule.walk() {
        entries.push(entry)?;
    }
    Ok(entries)
}

/// Writes an arrow for each message. What the effects of sends chose is looked up in the entries.
pub fn put_messages<O: Out>(
    paper: &mut Paper<'_, O>,
    frame: Frame,
    names: &Names,
    entries: &[&Entry],
    schedule: &RawLog<Entry>,
    partners: &[Option<usize>],
)
    ensures { paper.new ≡ and_text paper.old
        (arrows frame names.now (map (λ e. e.now) entries.now) partners.now 0 schedule.now) }
{
    let mut position = 0;
    for entry in schedule.walk() {
        let partner = partner_at(partners, position);
        put_at(paper, frame, names, entries, position, partner, entry);
        position += 1;
    }
}

/// Writes the arrow of a message at its receive, and of one that is not received at its send.
fn put_at<O: Out>(
    paper: &mut Paper<'_, O>,
    frame: Frame,
    names: &Names,
    entries: &[&Entry],
    position: usize,
    partner: Option<usize>,
    entry: &Entry,
)
    ensures { paper.new ≡ and_text paper.old (message_at frame names.now (map (λ e. e.now) entries.now)
        position partner entry.now.action entry.now.chosen) }
{
    match entry.action() {
        Action::Send { from, to, .. } => match partner {
            Some(_) => {}
            None => put_lost(paper, frame, names, position, entry, *from, *to),
        },
        Action::Receive { message, from, to } => match partner {
            Some(start) => {
                let way = Way {
                    from: *from,
                    to: *to,
                    start,
                    end: position,
                };
                let sent = chosen_at(entries, start);
                put_arrow(paper, frame, names, message, way, sent, entry.chosen())
            }
            None => {}
        },
        Action::Local(_) => {}
        Action::Stimulus(_) => {}
    }
}

/// What the effect of the entry at a position chose; nothing if there is none there.
fn chosen_at<'a>(entries: &[&'a Entry], position: usize) -> &'a [Value]
    ensures { result.now ≡ chosen_at position (map (λ e. e.now) entries.now) }
{
    match entries.get(position) {
        Some(entry) => entry.chosen(),
        None => &[],
    }
}

/// Writes the arrow of a message from its send to its receive, whose effects chose these values.
fn put_arrow<O: Out>(
    paper: &mut Paper<'_, O>,
    frame: Frame,
    names: &Names,
    message: &Value,
    way: Way,
    sent: &[Value],
    received: &[Value],
)
    ensures { paper.new ≡ and_text paper.old
        (arrow frame names.now (text names.now message.now) way sent.now received.now) }
{
    let start = frame.point(way.start, way.from);
    let end = frame.point(way.end, way.to);
    put_line(paper, "m", start, end);
    put_title(paper, names, message, way, sent, received);
}

/// Writes the lines of a send and its receive as a title, and ends the arrow.
fn put_title<O: Out>(
    paper: &mut Paper<'_, O>,
    names: &Names,
    message: &Value,
    way: Way,
    sent: &[Value],
    received: &[Value],
)
    ensures { paper.new ≡ and_text paper.old
        (arrow_title names.now (text names.now message.now) way sent.now received.now) }
{
    paper.put("><title>");
    put_numbered(paper, names, way.start, SEND, message, way, sent);
    paper.put(" ; ");
    put_numbered(paper, names, way.end, RECEIVE, message, way, received);
    paper.put("</title></line>\n");
}

/// Writes a position, and a send or a receive of a name with what its effect chose.
fn put_numbered<O: Out>(
    paper: &mut Paper<'_, O>,
    names: &Names,
    position: usize,
    name: &str,
    message: &Value,
    way: Way,
    chosen: &[Value],
)
    ensures { paper.new ≡ and_text paper.old
        (numbered names.now position name.now (text names.now message.now) way chosen.now) }
{
    paper.put_number(position);
    paper.put(" ");
    put_message(paper, names, name, message, way.from, way.to);
    put_choices(paper, names, chosen);
}

/// Writes a message that is not received.
fn put_lost<O: Out>(
    paper: &mut Paper<'_, O>,
    frame: Frame,
    names: &Names,
    position: usize,
    entry: &Entry,
    from: i64,
    to: i64,
)
    ensures { paper.new ≡ and_text paper.old (lost frame names.now position entry.now from to) }
{
    let start = frame.point(position, from);
    put_line(paper, "u", start, lost_end(start, from, to));
    put_lost_title(paper, names, position, entry);
}

/// Where the line of a message ends that is not received: a little behind its send, towards its receiver.
fn lost_end(start: Point, from: i64, to: i64) -> Point
    ensures { result ≡ spec.lost_end start from to }
{
    let y = if to < from {
        start.y.saturating_sub(WAY)
    } else {
        start.y.saturating_add(WAY)
    };
    Point {
        x: start.x.saturating_add(WAY / 2),
        y,
    }
}

/// Writes the title of a message that is not received, and ends its line.
fn put_lost_title<O: Out>(paper: &mut Paper<'_, O>, names: &Names, position: usize, entry: &Entry)
    ensures { paper.new ≡ and_text paper.old (lost_title names.now position entry.now) }
{
    paper.put("><title>");
    paper.put_number(position);
    paper.put(" ");
    put_entry(paper, names, entry.action(), entry.chosen());
    paper.put(" ; not received</title></line>\n");
}
