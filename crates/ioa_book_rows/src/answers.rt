//! The texts of what a book gives.

use ioa_actions::{Action, push_listed, show_action};
use ioa_compose::Conf;
use ioa_rawlog::RawLog;
use ioa_record::Record;
use ioa_transitions::Entry;
use ioa_values::Names;
use std::alloc::{AllocError, Global};
use std::fmt::Display;

/// The text of an action.
pub(crate) fn action_text(alloc: Global, action: &Action) -> Result<String, AllocError> {
    show_action(alloc, &Names::none(alloc), action)
}

/// The texts of the actions of entries, with a comma and a space between, or `no action`.
pub(crate) fn log_text(alloc: Global, log: &RawLog<Entry>) -> Result<String, AllocError> {
    if log.len() == 0 {
        return String::from_str(alloc, "no action");
    }
    let mut list = String::new(alloc);
    for (position, entry) in log.walk().enumerate() {
        let item = action_text(alloc, entry.action())?;
        push_listed(&mut list, position, item.as_str())?;
    }
    Ok(list)
}

/// The index and the text of the action of a commit that was made.
pub(crate) fn committed_text(
    alloc: Global,
    index: usize,
    action: &Action,
) -> Result<String, AllocError> {
    let action = action_text(alloc, action)?;
    format!(in alloc; "{index} {action}")
}

/// A refusal, and the action of the proposal that came back.
pub(crate) fn refused_text<R: Display>(
    alloc: Global,
    refusal: &R,
    action: &Action,
) -> Result<String, AllocError> {
    let action = action_text(alloc, action)?;
    format!(in alloc; "{refusal}; back {action}")
}

/// The actions that were recorded, and how many states they lead to.
pub(crate) fn execution_text(
    alloc: Global,
    log: &RawLog<Entry>,
    states: &[Conf],
) -> Result<String, AllocError> {
    let count = states.len();
    let actions = log_text(alloc, log)?;
    format!(in alloc; "{actions}; {count} states")
}

/// The same of a record, and how many commits each share counts.
pub(crate) fn record_text(alloc: Global, left: &Record) -> Result<String, AllocError> {
    let mut text = execution_text(alloc, &left.schedule, &left.states)?;
    text.push_str("; commits")?;
    for count in &left.commits {
        push_number(&mut text, *count)?;
    }
    Ok(text)
}

/// Writes a space and a number behind a text.
fn push_number(text: &mut String, number: u64) -> Result<(), AllocError> {
    write!(text, " {number}")
}

/// How many commits each hand has made.
pub(crate) fn counts_text(alloc: Global, counts: &[usize]) -> Result<String, AllocError> {
    let mut text = String::from_str(alloc, "counts")?;
    for count in counts {
        push_number(&mut text, *count as u64)?;
    }
    Ok(text)
}
