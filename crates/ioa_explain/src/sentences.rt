//! What refusals ask for, in a sentence each.

ghost use Rattle.std.specs.Prelude.{◌≡◌};
ghost use Rattle.ioa_explain.specs.Sentences as spec;

use ioa_refusals::Refusal;
use ioa_text_reader::FrontFault;

/// The number and the name of a refusal of the reader.
pub(crate) fn title_of(fault: &FrontFault) -> &'static str
    ensures { result.now ≡ spec.front_title fault.now }
{
    match fault {
        FrontFault::Empty => "10 Empty",
        FrontFault::BadCharacter(_) => "11 BadCharacter",
        FrontFault::Unexpected(_) => "12 Unexpected",
        FrontFault::NumberTooLarge(_) => "13 NumberTooLarge",
        FrontFault::TooDeep(_) => "14 TooDeep",
        FrontFault::TooLong => "15 TooLong",
        FrontFault::LeftOut(_, _) => "16 LeftOut",
        FrontFault::Memory => "3 Memory",
    }
}

/// What the reader asks of a text, beside what is told of the place; empty if there is no more to say.
pub(crate) fn reading_rule(fault: &FrontFault) -> &'static str
    ensures { result.now ≡ spec.reading_rule fault.now }
{
    match fault {
        FrontFault::Empty => "The text has no token: it needs at least `system`.",
        FrontFault::NumberTooLarge(_) => "A number is at most 9223372036854775807.",
        FrontFault::TooDeep(_) => {
            "A term and a statement are at most 64 high, and at most 128 brackets are open at once."
        }
        FrontFault::TooLong => "A text has at most 1048576 bytes.",
        FrontFault::LeftOut(_, _) => {
            "The language leaves this word of I/O automata out, and keeps it: it is no name either."
        }
        FrontFault::BadCharacter(_) | FrontFault::Unexpected(_) | FrontFault::Memory => "",
    }
}

/// What the check asks of a text.
pub(crate) fn rule_of(refusal: Refusal) -> &'static str
    ensures { result.now ≡ spec.rule_text refusal }
{
    match refusal {
        Refusal::Unknown => "A name is used only where it is declared and in view.",
        Refusal::Twice => "Two things that have to differ have two names, or two numbers.",
        Refusal::Sorts => {
            "A part has the sort that its operator, function or place takes, and no part is missing or too much."
        }
        Refusal::NoInitial =>
            "A state variable and a variable of a schedule have an initial value.",
        Refusal::InputPre => "An input has no `pre`: it is enabled in each state.",
        Refusal::NoTransition => "Each entry of a signature has a transition.",
        Refusal::ScheduleAssignsState =>
            "A schedule assigns its own variables, and no state variable.",
        Refusal::ChannelSorts => {
            "The messages that a channel's sender sends have the sort that its receiver takes."
        }
        Refusal::InputMissing => "A channel's receiver has a `receive` that takes from the sender.",
        Refusal::SelfChannel => "A channel goes from one node to another.",
        Refusal::NodeGap => "The nodes of a system have the numbers 0 to n - 1.",
        Refusal::Limit => {
            "A sort and a type are at most 64 high, and a system has at most 64 nodes and 256 channels."
        }
        Refusal::EmptyOfWhat =>
            "The sort of a display is told by what stands beside it, or by its place.",
        Refusal::InputWhere => "An input has no `where`: it takes each value of its sorts.",
        Refusal::BadArgument => {
            "What is constant has a value, a transition repeats its entry, and `send` and `receive` are their node's."
        }
        Refusal::Memory => "",
    }
}
