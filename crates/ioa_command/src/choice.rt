//! What the words of the command line can choose.

ghost use Rattle.std.specs.Prelude.{◌≡◌};
ghost use Rattle.ioa_command.specs.declared.choice.ChoiceFault.TheVariants.{Memory};

use ioa_pipeline::{Findings, Format, Judging, Options};
use std::alloc::AllocError;

/// Where a text is read.
#[derive(Debug, Drop)]
pub enum InputName {
    /// Standard input: no name is given, or `-`.
    Standard,
    /// The file of this name.
    File(String),
}

/// What `run` is asked to do.
#[derive(Debug, Drop)]
pub struct RunChoice {
    /// Where the text is read.
    pub input: InputName,
    /// How the system is run.
    pub options: Options,
    /// The findings at each of which the status is to tell.
    pub fail_on: Findings,
}

/// What `trace` is asked to do.
#[derive(Debug, Drop)]
pub struct TraceChoice {
    /// Where the text is read.
    pub input: InputName,
    /// How the system is run: by one worker.
    pub options: Options,
    /// How the run is shown.
    pub format: Format,
    /// The findings at each of which the status is to tell. No ending is among them.
    pub fail_on: Findings,
}

/// What `explain` is asked to do.
#[derive(Debug, Drop)]
pub struct ExplainChoice {
    /// Where the text is read.
    pub input: InputName,
    /// Where the schedule is read that is to be explained beside the text, if there is one.
    pub schedule: Option<InputName>,
}

/// What `trace` is asked to do with a schedule.
#[derive(Debug, Drop)]
pub struct ReplayChoice {
    /// Where the text is read.
    pub input: InputName,
    /// Where the schedule is read.
    pub schedule: InputName,
    /// How the replay is shown.
    pub format: Format,
    /// The findings at each of which the status is to tell. No ending is among them, since a schedule has none.
    pub fail_on: Findings,
}

/// What `check` is asked to do.
#[derive(Debug, Drop)]
pub struct CheckChoice {
    /// Where the text is read.
    pub input: InputName,
    /// Where the schedule is read, if it does not stand behind the text.
    pub schedule: Option<InputName>,
    /// What becomes of the invariants.
    pub judging: Judging,
    /// The findings at each of which the status is to tell. No ending is among them, since a schedule has none.
    pub fail_on: Findings,
}

/// What the program is asked to do.
#[derive(Debug, Drop)]
pub enum Subcommand {
    /// `run`: run the system of a text, and write the report.
    Run(RunChoice),
    /// `explain`: tell people what is wrong with a text, or with a schedule beside it.
    Explain(ExplainChoice),
    /// `trace`: run the system of a text, and show the run step by step, or as a picture.
    Trace(TraceChoice),
    /// `trace` with a schedule: replay it, and show the replay.
    Replay(ReplayChoice),
    /// `check`: say whether a schedule is an execution of a text's system.
    Check(CheckChoice),
    /// `print`: write a text laid out anew.
    Print(InputName),
}

/// Why words that clap takes give no subcommand.
#[derive(Debug, Drop)]
pub(crate) enum ChoiceFault {
    /// Memory ran out.
    Memory(AllocError),
    /// The words choose nothing.
    Nothing(WordsFault),
}

impl From<AllocError> for ChoiceFault {
    ghost from_gives = { λ error fault. fault ≡ Memory error };

    fn from(error: AllocError) -> Self {
        ChoiceFault::Memory(error)
    }
}

/// Why words that clap takes choose nothing.
#[derive(Clone, Copy, Debug)]
pub(crate) enum WordsFault {
    /// No subcommand is named, or a number is outside its range.
    Number,
    /// `--fail-on` has a name that is none of its three.
    FailOn,
    /// `--fail-on` of `check` or `trace` has another name than `invariant`.
    FailOnVerdicts,
    /// `--format` has a name that is none of a format.
    Format,
    /// Text and schedule are both to be read from standard input.
    Twice,
}

impl WordsFault {
    /// What is told of it.
    pub(crate) fn text(self) -> &'static str {
        match self {
            WordsFault::Number => "a number is outside its range",
            WordsFault::FailOn => {
                "--fail-on takes fault, spent and invariant: one of them, or several with commas between"
            }
            WordsFault::FailOnVerdicts => {
                "--fail-on of `check` and `trace` takes invariant, and no name of an ending"
            }
            WordsFault::Format => "--format takes text, json, itf, svg or mermaid",
            WordsFault::Twice => "only one of FILE and SCHEDULE can be standard input",
        }
    }
}
