//! What the words of the command line choose.

ghost use Rattle.std.specs.Prelude.{◌≡◌, ◌<◌, ◌^◌, None, Some, codes, false, map, option_map, IfOk, IfErr};
ghost use Rattle.clap.specs.Matches.{found_of};
ghost use Rattle.clap.specs.Walk.{first_of, rows_of};
ghost use Rattle.clap.specs.Simple.{with_rule, with_subcommand};
ghost use Rattle.clap.specs.Words.{rule_of, app_of, subcommand_rows_of};
ghost use Rattle.clap.specs.declared.builder.command.Command.TheViews.{out-Command};
ghost use Rattle.clap.specs.declared.builder.value_parser.ValueParser.TheVariants.{Unsigned};
ghost use Rattle.ioa_command.specs.CommandLine.{number_rule, word_rule, workers_rule, steps_rule, attempts_rule};
ghost use Rattle.ioa_command.specs.CommandLine.{check_app, explain_app, print_app, run_app, trace_app, program_app};
ghost use Rattle.ioa_command.specs.CommandLine.{fail_on_rule, format_rule, verdicts_rule};
ghost use Rattle.ioa_command.specs.CommandLine.{Chooses, IsCheckOf, IsChosenBy, IsErrorOf, IsNumberOf, IsRunOf};
ghost use Rattle.ioa_command.specs.CommandLine.{IsExplainOf, IsOfTrace, IsReplayOf, IsTraceOf};
ghost use Rattle.ioa_command.specs.CommandLine as spec;
ghost use Rattle.ioa_command.specs.CommandLine.{AreLimitsOf, AreNumbersOf, name_of};
ghost use Rattle.ioa_command.specs.Choices.{Finds, Settles};

use crate::choice::{
    CheckChoice, ChoiceFault, ExplainChoice, InputName, ReplayChoice, RunChoice, Subcommand,
    TraceChoice, WordsFault,
};
use crate::fail_on::{findings_named, no_findings};
use crate::formats::format_named;
use clap::builder::ValueParser;
use clap::error::ErrorKind;
use clap::{Arg, ArgAction, ArgMatches, Command, Error, value_parser};
use ioa_pipeline::{
    DEFAULT_WORKERS, Findings, Format, GREATEST_ATTEMPTS, GREATEST_STEPS, GREATEST_WORKERS,
    Judging, Options,
};
use std::alloc::{AllocError, Global};

/// What is shown before the list of subcommands.
const ABOUT: &str = "Runs systems of I/O automata, and prints what happened.";

/// What is shown at the end of the help of the program.
const STATUSES: &str = "\
A system text has automata with their schedule blocks, the nodes, channels and scripts on which they
are placed, and invariants. Each subcommand reads it from a file, or from standard input if no file
is named, or if the name is `-`. `ioarun help run` says more of `run`, and so on.

Statuses:
  0  all was done, or this help was asked for
  1  the text or the schedule was refused: one line on standard error has the number, the name and
     the place (`explain` says more, on standard output)
  2  these words were refused
  3  memory ran out, or finishing, reading or writing failed
  4  all was done, and there is what `--fail-on` names

Examples:
  ioarun run examples/relay.ioa
  ioarun explain examples/refused/missing_colon.ioa
  ioarun trace examples/missed.ioa
  ioarun run examples/relay.ioa | ioarun check examples/relay.ioa -
  ioarun print examples/relay.ioa";

/// What is shown at the end of the help of `run`.
const RUN_EXAMPLE: &str = "\
The report has the schedule, the last states, how each node ended, how many actions each worker took,
and which invariants held. With several workers the schedule may be another each time.

Example:
  ioarun run examples/two_holders.ioa --fail-on fault,invariant";

/// What is shown at the end of the help of `explain`.
const EXPLAIN_EXAMPLE: &str = "\
It shows the line and the part of it that is refused, what the refusal asks for, and what could stand
there. The number is that with which `ioarun run` refuses the text.

If a SCHEDULE is named, a report or lines as `ioarun check` takes them, it shows the line for which that
refuses the schedule, and why; or what is wrong with the text, if something is.

Examples:
  ioarun explain examples/refused/missing_colon.ioa
  ioarun run --workers 4 examples/relay.ioa | ioarun explain examples/relay.ioa -";

/// What is shown at the end of the help of `trace`.
const TRACE_EXAMPLE: &str = "\
The run is that of `ioarun run` with the same options. As text, each action stands with what it
changed, and each fire that was missed with the reason. The other formats are for programs and viewers:
`json` is an object a line for each action; `itf` the states in the informal trace format, which viewers
of model checkers read; `svg` a space-time diagram; `mermaid` a sequence diagram.

If a SCHEDULE is named, a report or lines as `ioarun check` takes them, its actions are replayed and
shown in place of a run, up to the first that is no step; as text the reason stands below them. Then
--steps and --attempts do not count.

Examples:
  ioarun trace examples/missed.ioa
  ioarun run --workers 4 examples/two_holders.ioa | ioarun trace examples/two_holders.ioa -
  ioarun trace --format svg examples/relay3.ioa > relay3.svg";

/// What is shown at the end of the help of `check`.
const CHECK_INPUT: &str = "\
The schedule is a report, of which its actions are read, or lines. A line has an action, and in front
of it a number or none: send(7, 0, 1), receive(7, 0, 1), tick@2 or put({1, 2}, red)@0. Behind an action
whose effect chooses stand the values that it chose: toss@0 choose heads, 3. If no SCHEDULE is named,
the lines stand behind the text, after a line `---`; without that line there are none.

Examples:
  ioarun run examples/relay.ioa | ioarun check examples/relay.ioa -
  ioarun run examples/two_holders.ioa | ioarun check --verdicts examples/two_holders.ioa -";

/// What is shown at the end of the help of `print`.
const PRINT_EXAMPLE: &str = "\
Each part stands two spaces further than what it is a part of. Comments are not kept.

Example:
  ioarun print examples/relay.ioa";

/// What the words choose, the program's name first (profile). `--workers N`, `--steps N` and `--attempts N` have
/// decimal numbers, each in its range of [`Options`]; if one is not given, it is that of `Options::default`.
///
/// The error is clap's own, and has no number. Its kind says why no subcommand is chosen: `DisplayHelp` or
/// `DisplayVersion`, since the words ask for the help or the version; `OutOfMemory`, since memory ran out, whatever the
/// words are; and any other, since the words are refused. Clap refuses words that it does not know and numbers outside
/// their range, each by a kind that it has for them. Words that clap takes are refused by the kind `ValueValidation` if
/// they choose nothing: a name of `--fail-on` or `--format` is unknown, or text and schedule are both standard input.
pub fn options<'a>(alloc: Global, words: &'a [&'a str]) -> Result<Subcommand, Error>
    ensures chosen { IfOk result (Chooses (map (λ w. w.now) words.entry.now)) }
    ensures refused { IfErr result (IsErrorOf (map (λ w. w.now) words.entry.now)) }
{
    let mut command = program(alloc)?;
    let matches = match command.try_get_matches_from_mut(words) {
        Ok(matches) => matches,
        Err(error) => return Err(error),
    };
    match choice_of(alloc, &matches) {
        Ok(subcommand) => Ok(subcommand),
        Err(ChoiceFault::Memory(error)) => Err(Error::from(error)),
        Err(ChoiceFault::Nothing(why)) => {
            Err(command.error(ErrorKind::ValueValidation, why.text())?)
        }
    }
}

/// The command line as clap is told of it.
fn program<'a>(alloc: Global) -> Result<Command<'a>, AllocError>
    ensures { IfOk result (λ c. (app_of c ≡ program_app) × ((out-Command c).has_globals ≡ false)) }
{
    let command = Command::new(alloc, "ioarun")
        .version("0.1.0")
        .about(ABOUT)
        .after_help(STATUSES)
        .subcommand_required(true)
        .arg_required_else_help(true)
        .subcommand(run(alloc)?)?;
    let command = with_explain_and_trace(alloc, command)?;
    with_check_and_print(alloc, command)
}

/// The command line with the subcommands `explain` and `trace`.
fn with_explain_and_trace<'a>(
    alloc: Global,
    command: Command<'a>,
) -> Result<Command<'a>, AllocError>
    requires { (out-Command command).has_globals ≡ false }
    ensures { IfOk result (λ c. (app_of c
        ≡ with_subcommand (with_subcommand (app_of command.entry) explain_app.top) trace_app.top)
        × ((out-Command c).has_globals ≡ false)) }
{
    command
        .subcommand(explain(alloc)?)?
        .subcommand(trace(alloc)?)
}

/// The command line with the subcommands `check` and `print`.
fn with_check_and_print<'a>(alloc: Global, command: Command<'a>) -> Result<Command<'a>, AllocError>
    requires { (out-Command command).has_globals ≡ false }
    ensures { IfOk result (λ c. (app_of c
        ≡ with_subcommand (with_subcommand (app_of command.entry) check_app.top) print_app.top)
        × ((out-Command c).has_globals ≡ false)) }
{
    command.subcommand(check(alloc)?)?.subcommand(print(alloc)?)
}

/// The subcommand `run`.
fn run<'a>(alloc: Global) -> Result<Command<'a>, AllocError>
    ensures { IfOk result (λ c. (app_of c ≡ run_app) × ((out-Command c).has_globals ≡ false)) }
{
    let command = Command::new(alloc, "run")
        .about("Runs the system of a text, and writes the report of the run")
        .after_help(RUN_EXAMPLE)
        .arg(file_word(alloc))?
        .arg(workers_option(alloc))?;
    with_limits(alloc, command)?.arg(fail_on_option(
        alloc,
        "Which endings and verdicts make the status 4: fault, spent, invariant, or several with commas",
    ))
}

/// A subcommand with `--steps N` and `--attempts N`.
fn with_limits<'a>(alloc: Global, command: Command<'a>) -> Result<Command<'a>, AllocError>
    requires { (out-Command command).has_globals ≡ false }
    ensures { IfOk result (λ c. (app_of c ≡ with_rule (with_rule (app_of command.entry) steps_rule) attempts_rule)
        × ((out-Command c).has_globals ≡ false)) }
{
    command
        .arg(steps_option(alloc))?
        .arg(attempts_option(alloc))
}

/// The subcommand `explain`.
fn explain<'a>(alloc: Global) -> Result<Command<'a>, AllocError>
    ensures { IfOk result (λ c. (app_of c ≡ explain_app) × ((out-Command c).has_globals ≡ false)) }
{
    Command::new(alloc, "explain")
        .about("Tells what is wrong with a text, or with a schedule beside it, and where")
        .after_help(EXPLAIN_EXAMPLE)
        .arg(file_word(alloc))?
        .arg(schedule_word(alloc))
}

/// The subcommand `trace`.
fn trace<'a>(alloc: Global) -> Result<Command<'a>, AllocError>
    ensures { IfOk result (λ c. (app_of c ≡ trace_app) × ((out-Command c).has_globals ≡ false)) }
{
    let command = Command::new(alloc, "trace")
        .about(
            "Shows a run by one worker, or the replay of a schedule, step by step or as a picture",
        )
        .after_help(TRACE_EXAMPLE)
        .arg(file_word(alloc))?
        .arg(schedule_word(alloc))?;
    with_format(alloc, with_limits(alloc, command)?)
}

/// A subcommand with `--format NAME` and `--fail-on NAMES`.
fn with_format<'a>(alloc: Global, command: Command<'a>) -> Result<Command<'a>, AllocError>
    requires { (out-Command command).has_globals ≡ false }
    ensures { IfOk result (λ c. (app_of c ≡ with_rule (with_rule (app_of command.entry) format_rule) fail_on_rule)
        × ((out-Command c).has_globals ≡ false)) }
{
    command
        .arg(format_option(alloc))?
        .arg(fail_on_verdicts_option(alloc))
}

/// The subcommand `check`.
fn check<'a>(alloc: Global) -> Result<Command<'a>, AllocError>
    ensures { IfOk result (λ c. (app_of c ≡ check_app) × ((out-Command c).has_globals ≡ false)) }
{
    let command = Command::new(alloc, "check")
        .about("Says whether a schedule is an execution of the system of a text")
        .after_help(CHECK_INPUT)
        .arg(file_word(alloc))?
        .arg(schedule_word(alloc))?;
    with_verdicts(alloc, command)
}

/// A subcommand with `--verdicts` and `--fail-on NAMES`.
fn with_verdicts<'a>(alloc: Global, command: Command<'a>) -> Result<Command<'a>, AllocError>
    requires { (out-Command command).has_globals ≡ false }
    ensures { IfOk result (λ c. (app_of c ≡ with_rule (with_rule (app_of command.entry) verdicts_rule) fail_on_rule)
        × ((out-Command c).has_globals ≡ false)) }
{
    command
        .arg(verdicts_option(alloc))?
        .arg(fail_on_verdicts_option(alloc))
}

/// The subcommand `print`.
fn print<'a>(alloc: Global) -> Result<Command<'a>, AllocError>
    ensures { IfOk result (λ c. (app_of c ≡ print_app) × ((out-Command c).has_globals ≡ false)) }
{
    Command::new(alloc, "print")
        .about("Writes a text laid out anew")
        .after_help(PRINT_EXAMPLE)
        .arg(file_word(alloc))
}

/// `--format NAME`.
fn format_option<'a>(alloc: Global) -> Arg<'a>
    ensures rule { rule_of result ≡ format_rule }
    ensures global { result.global ≡ false }
{
    Arg::new(alloc, "format")
        .long("format")
        .value_name("NAME")
        .help("How the run is shown: text, which is the default, json, itf, svg or mermaid")
}

/// `FILE`.
fn file_word<'a>(alloc: Global) -> Arg<'a>
    ensures rule { rule_of result ≡ word_rule (codes "file") }
    ensures global { result.global ≡ false }
{
    word(alloc, "file", "FILE").help(
        "The file of the text; standard input if it is `-` or left out",
    )
}

/// `SCHEDULE`.
fn schedule_word<'a>(alloc: Global) -> Arg<'a>
    ensures rule { rule_of result ≡ word_rule (codes "schedule") }
    ensures global { result.global ≡ false }
{
    word(alloc, "schedule", "SCHEDULE").help(
        "The file of the schedule, a report or its lines; standard input if it is `-`",
    )
}

/// A word that may be left out.
fn word<'a>(alloc: Global, id: &'a str, shown: &'a str) -> Arg<'a>
    ensures rule { rule_of result ≡ word_rule id.entry.now }
    ensures global { result.global ≡ false }
{
    Arg::new(alloc, id).value_name(shown)
}

/// `--fail-on NAMES`.
fn fail_on_option<'a>(alloc: Global, help: &'a str) -> Arg<'a>
    ensures rule { rule_of result ≡ fail_on_rule }
    ensures global { result.global ≡ false }
{
    Arg::new(alloc, "fail-on")
        .long("fail-on")
        .value_name("NAMES")
        .help(help)
}

/// `--fail-on NAMES` where no name is that of an ending.
fn fail_on_verdicts_option<'a>(alloc: Global) -> Arg<'a>
    ensures rule { rule_of result ≡ fail_on_rule }
    ensures global { result.global ≡ false }
{
    fail_on_option(
        alloc,
        "Which verdicts make the status 4: invariant, one that does not hold",
    )
}

/// `--verdicts`.
fn verdicts_option<'a>(alloc: Global) -> Arg<'a>
    ensures rule { rule_of result ≡ verdicts_rule }
    ensures global { result.global ≡ false }
{
    Arg::new(alloc, "verdicts")
        .long("verdicts")
        .action(ArgAction::SetTrue)
        .help("Tells the verdicts on the invariants along the schedule, if it is an execution")
}

/// `--workers N`.
fn workers_option<'a>(alloc: Global) -> Arg<'a>
    ensures rule { rule_of result ≡ workers_rule }
    ensures global { result.global ≡ false }
{
    number(alloc, "workers", "1", from_one(GREATEST_WORKERS)).help(
        "How many workers share the nodes, each on a thread of its own, from 1 to 64",
    )
}

/// `--steps N`.
fn steps_option<'a>(alloc: Global) -> Arg<'a>
    ensures rule { rule_of result ≡ steps_rule }
    ensures global { result.global ≡ false }
{
    let parser = value_parser!(u64).range(..=GREATEST_STEPS as i64);
    number(alloc, "steps", "10000", parser).help(
        "How many actions the schedule may have, from 0 to 1000000",
    )
}

/// `--attempts N`.
fn attempts_option<'a>(alloc: Global) -> Arg<'a>
    ensures rule { rule_of result ≡ attempts_rule }
    ensures global { result.global ≡ false }
{
    number(alloc, "attempts", "1000", from_one(GREATEST_ATTEMPTS)).help(
        "How many turns each node may have, from 1 to 1000000",
    )
}

/// Takes a number from 1 up to the greatest.
fn from_one<'a>(greatest: u64) -> ValueParser<'a>
    requires { greatest < 2 ^ 63 }
    ensures { result ≡ Unsigned 1 greatest }
{
    value_parser!(u64).range(1..).range(..=greatest as i64)
}

/// `--name N`.
fn number<'a>(alloc: Global, name: &'a str, default: &'a str, parser: ValueParser<'a>) -> Arg<'a>
    ensures rule { rule_of result ≡ number_rule name.entry.now parser.entry default.entry.now }
    ensures global { result.global ≡ false }
{
    Arg::new(alloc, name)
        .long(name)
        .value_name("N")
        .default_value(default)
        .value_parser(parser)
}

/// What the matches choose.
fn choice_of(alloc: Global, matches: &ArgMatches<'_>) -> Result<Subcommand, ChoiceFault>
    ensures { Settles (IsChosenBy (subcommand_rows_of matches.now)) result }
{
    match matches.subcommand() {
        None => Err(ChoiceFault::Nothing(WordsFault::Number)),
        Some((name, found)) => choice_named(alloc, name, found),
    }
}

/// What the matches of the subcommand of this name choose.
fn choice_named(
    alloc: Global,
    name: &str,
    matches: &ArgMatches<'_>,
) -> Result<Subcommand, ChoiceFault>
    ensures { Settles (IsChosenBy (Some (name.now, rows_of (found_of matches.now)))) result }
{
    if name == "run" {
        run_choice(alloc, matches).map(Subcommand::Run)
    } else if name == "explain" {
        explain_choice(alloc, matches).map(Subcommand::Explain)
    } else if name == "trace" {
        shown_choice(alloc, matches)
    } else if name == "check" {
        check_choice(alloc, matches).map(Subcommand::Check)
    } else if name == "print" {
        Ok(Subcommand::Print(input_given(alloc, matches)?))
    } else {
        Err(ChoiceFault::Nothing(WordsFault::Number))
    }
}

/// What `run` is asked to do.
fn run_choice(alloc: Global, matches: &ArgMatches<'_>) -> Result<RunChoice, ChoiceFault>
    ensures { Settles (IsRunOf (rows_of (found_of matches.now))) result }
{
    let Some(options) = options_given(matches) else {
        return Err(ChoiceFault::Nothing(WordsFault::Number));
    };
    let Some(fail_on) = findings_given(matches) else {
        return Err(ChoiceFault::Nothing(WordsFault::FailOn));
    };
    let input = input_given(alloc, matches)?;
    Ok(RunChoice {
        input,
        options,
        fail_on,
    })
}

/// What `explain` is asked to do.
fn explain_choice(alloc: Global, matches: &ArgMatches<'_>) -> Result<ExplainChoice, ChoiceFault>
    ensures { Settles (IsExplainOf (rows_of (found_of matches.now))) result }
{
    let input = input_given(alloc, matches)?;
    let schedule = schedule_given(alloc, matches)?;
    match (&input, &schedule) {
        (InputName::Standard, Some(InputName::Standard)) => {
            Err(ChoiceFault::Nothing(WordsFault::Twice))
        }
        _ => Ok(ExplainChoice { input, schedule }),
    }
}

/// The three numbers, if each is there and in its range.
fn options_given(matches: &ArgMatches<'_>) -> Option<Options>
    ensures { Finds (AreNumbersOf (rows_of (found_of matches.now))) result }
{
    let workers = number_given(matches, "workers")?;
    let steps = number_given(matches, "steps")?;
    let attempts = number_given(matches, "attempts")?;
    Options::within(workers, steps, attempts)
}

/// What `trace` is asked to do: a replay if a schedule is named, and else a run.
fn shown_choice(alloc: Global, matches: &ArgMatches<'_>) -> Result<Subcommand, ChoiceFault>
    ensures { Settles (IsOfTrace (rows_of (found_of matches.now))) result }
{
    match schedule_given(alloc, matches)? {
        None => trace_choice(alloc, matches).map(Subcommand::Trace),
        Some(schedule) => replay_choice(alloc, matches, schedule).map(Subcommand::Replay),
    }
}

/// What `trace` is asked to do if no schedule is named.
fn trace_choice(alloc: Global, matches: &ArgMatches<'_>) -> Result<TraceChoice, ChoiceFault>
    requires { spec.schedule_given (rows_of (found_of matches.now)) ≡ None }
    ensures { Settles (IsTraceOf (rows_of (found_of matches.now))) result }
{
    let Some(options) = limits_given(matches) else {
        return Err(ChoiceFault::Nothing(WordsFault::Number));
    };
    let Some(format) = format_given(matches) else {
        return Err(ChoiceFault::Nothing(WordsFault::Format));
    };
    let Some(fail_on) = verdict_findings_given(matches) else {
        return Err(ChoiceFault::Nothing(WordsFault::FailOnVerdicts));
    };
    let input = input_given(alloc, matches)?;
    Ok(TraceChoice {
        input,
        options,
        format,
        fail_on,
    })
}

/// What `trace` is asked to do with this schedule.
fn replay_choice(
    alloc: Global,
    matches: &ArgMatches<'_>,
    schedule: InputName,
) -> Result<ReplayChoice, ChoiceFault>
    requires { spec.schedule_given (rows_of (found_of matches.now)) ≡ Some (name_of schedule) }
    ensures { Settles (IsReplayOf (rows_of (found_of matches.now))) result }
{
    let Some(_limits) = limits_given(matches) else {
        return Err(ChoiceFault::Nothing(WordsFault::Number));
    };
    let Some(format) = format_given(matches) else {
        return Err(ChoiceFault::Nothing(WordsFault::Format));
    };
    let Some(fail_on) = verdict_findings_given(matches) else {
        return Err(ChoiceFault::Nothing(WordsFault::FailOnVerdicts));
    };
    let input = input_given(alloc, matches)?;
    match (&input, &schedule) {
        (InputName::Standard, InputName::Standard) => {
            Err(ChoiceFault::Nothing(WordsFault::Twice))
        }
        _ => Ok(ReplayChoice {
            input,
            schedule,
            format,
            fail_on,
        }),
    }
}

/// The options of one worker, with the two numbers, if each is there and in its range.
fn limits_given(matches: &ArgMatches<'_>) -> Option<Options>
    ensures { Finds (AreLimitsOf (rows_of (found_of matches.now))) result }
{
    let steps = number_given(matches, "steps")?;
    let attempts = number_given(matches, "attempts")?;
    Options::within(DEFAULT_WORKERS, steps, attempts)
}

/// The format that `--format` names, if there is one of that name.
fn format_given(matches: &ArgMatches<'_>) -> Option<Format>
    ensures { result ≡ spec.format_given (first_of (codes "format") (rows_of (found_of matches.now))) }
{
    match word_given(matches, "format") {
        None => Some(Format::Text),
        Some(name) => format_named(name),
    }
}

/// The findings that `--fail-on` names, if all its names are some.
fn findings_given(matches: &ArgMatches<'_>) -> Option<Findings>
    ensures { result ≡ spec.findings_given (first_of (codes "fail-on") (rows_of (found_of matches.now))) }
{
    match word_given(matches, "fail-on") {
        None => Some(no_findings()),
        Some(names) => findings_named(names),
    }
}

/// What `check` is asked to do.
fn check_choice(alloc: Global, matches: &ArgMatches<'_>) -> Result<CheckChoice, ChoiceFault>
    ensures { Settles (IsCheckOf (rows_of (found_of matches.now))) result }
{
    let Some(fail_on) = verdict_findings_given(matches) else {
        return Err(ChoiceFault::Nothing(WordsFault::FailOnVerdicts));
    };
    let judging = judging_given(matches, &fail_on);
    let input = input_given(alloc, matches)?;
    let schedule = schedule_given(alloc, matches)?;
    match (&input, &schedule) {
        (InputName::Standard, Some(InputName::Standard)) => {
            Err(ChoiceFault::Nothing(WordsFault::Twice))
        }
        _ => Ok(CheckChoice {
            input,
            schedule,
            judging,
            fail_on,
        }),
    }
}

/// The findings that `--fail-on` names, if all its names are some, and none is of an ending.
fn verdict_findings_given(matches: &ArgMatches<'_>) -> Option<Findings>
    ensures { result ≡ spec.verdict_findings_given (first_of (codes "fail-on") (rows_of (found_of matches.now))) }
{
    only_verdicts(findings_given(matches))
}

/// These findings, if no ending is among them.
fn only_verdicts(findings: Option<Findings>) -> Option<Findings>
    ensures { result ≡ spec.only_verdicts findings }
{
    match findings {
        None => None,
        Some(findings) => {
            if findings.fault || findings.spent {
                None
            } else {
                Some(findings)
            }
        }
    }
}

/// What becomes of the invariants, by `--verdicts` and by the findings at which the status is to tell.
fn judging_given(matches: &ArgMatches<'_>, fail_on: &Findings) -> Judging
    ensures { result ≡ spec.judging_of
        (spec.flag_given (first_of (codes "verdicts") (rows_of (found_of matches.now)))) fail_on.now }
{
    judging_of(is_asked(matches, "verdicts"), fail_on)
}

/// What becomes of the invariants, if their verdicts are asked for, or a status that tells of them.
fn judging_of(is_asked: bool, fail_on: &Findings) -> Judging
    ensures { result ≡ spec.judging_of is_asked fail_on.now }
{
    if is_asked {
        Judging::Told
    } else if fail_on.invariant {
        Judging::Silent
    } else {
        Judging::Unasked
    }
}

/// Whether a flag is given: clap then has the text `true` for it.
fn is_asked(matches: &ArgMatches<'_>, name: &str) -> bool
    ensures { result ≡ spec.flag_given (first_of name.now (rows_of (found_of matches.now))) }
{
    match word_given(matches, name) {
        None => false,
        Some(text) => text == "true",
    }
}

/// Where the text is read.
fn input_given(alloc: Global, matches: &ArgMatches<'_>) -> Result<InputName, AllocError>
    ensures { IfOk result (λ n. name_of n
        ≡ spec.input_given (first_of (codes "file") (rows_of (found_of matches.now)))) }
{
    match word_given(matches, "file") {
        None => Ok(InputName::Standard),
        Some(name) => input_named(alloc, name),
    }
}

/// Where the schedule is read, if it has a word of its own.
fn schedule_given(alloc: Global, matches: &ArgMatches<'_>) -> Result<Option<InputName>, AllocError>
    ensures { IfOk result (λ s. option_map name_of s ≡ spec.schedule_given (rows_of (found_of matches.now))) }
{
    match word_given(matches, "schedule") {
        None => Ok(None),
        Some(name) => Ok(Some(input_named(alloc, name)?)),
    }
}

/// The input of a name.
fn input_named(alloc: Global, name: &str) -> Result<InputName, AllocError>
    ensures { IfOk result (λ n. name_of n ≡ spec.input_named name.now) }
{
    if name == "-" {
        Ok(InputName::Standard)
    } else {
        Ok(InputName::File(String::from_str(alloc, name)?))
    }
}

/// The word that the matches have for a name.
fn word_given<'a>(matches: &ArgMatches<'a>, name: &str) -> Option<&'a str>
    ensures { option_map (λ w. w.now) result ≡ first_of name.now (rows_of (found_of matches.now)) }
{
    matches.get_str(name)
}

/// The number that the matches have for an option.
fn number_given(matches: &ArgMatches<'_>, name: &str) -> Option<u64>
    ensures { Finds (IsNumberOf (rows_of (found_of matches.now)) name.now) result }
{
    matches.get_one::<u64>(name)
}
