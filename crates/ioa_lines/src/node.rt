//! The node of the action that a line spells, by the action's end: it tells which rules the arguments are read by.

ghost use Rattle.std.specs.Prelude.{◌≡◌, ◌≤◌};
ghost use Rattle.std.specs.Option.{option_copied, option_map};
ghost use Rattle.ioa_terms.specs.Bindings.{same_word};
ghost use Rattle.ioa_actions.specs.ActionParts.{receive_name, send_name};
ghost use Rattle.ioa_lines.specs.Lines.{tokens_of};
ghost use Rattle.ioa_lines.specs.Reading as spec;
ghost use Rattle.ioa_value_reader.specs.Grammar.{minus_amount};

use ioa_actions::{RECEIVE, SEND};
use ioa_tokens::{LocatedToken, Mark, Token};

/// Whether a name is that of sends.
fn is_send(name: &[u8]) -> bool
    ensures { result ≡ same_word name.now send_name }
{
    name == SEND.as_bytes()
}

/// Whether a name is that of receives.
fn is_receive(name: &[u8]) -> bool
    ensures { result ≡ same_word name.now receive_name }
{
    name == RECEIVE.as_bytes()
}

/// The token at a place that is counted from the end: the last one is at 1.
fn from_end<'t, 'a>(tokens: &'t [LocatedToken<'a>], place: usize) -> Option<&'t LocatedToken<'a>>
    ensures { option_map (λ t. t.token) (option_copied result) ≡ spec.from_end place (tokens_of tokens.now) }
{
    tokens.get(tokens.len().saturating_sub(place))
}

/// Whether a token is there and is the sign `-`.
fn is_minus(located: Option<&LocatedToken<'_>>) -> bool
    ensures { result ≡ spec.is_minus (option_map (λ t. t.now.token) located.entry) }
{
    match located {
        Some(located) => match &located.token {
            Token::Mark(mark) => *mark == Mark::Minus,
            Token::Word(_) | Token::Number(_) | Token::LeftOut(_) => false,
        },
        None => false,
    }
}

/// Minus the amount of a number.
fn minus_amount(number: i64) -> i64
    ensures { result ≡ minus_amount number }
{
    if number < 0 { number } else { -number }
}

/// The number that a token is, if it is there and is one; behind a `-` it is minus the amount.
fn signed_number(minus: bool, located: Option<&LocatedToken<'_>>) -> Option<i64>
    ensures { result ≡ spec.signed_number minus (option_map (λ t. t.now.token) located.entry) }
{
    match located {
        Some(located) => match &located.token {
            Token::Number(number) => Some(if minus {
                minus_amount(*number)
            } else {
                *number
            }),
            Token::Mark(_) | Token::Word(_) | Token::LeftOut(_) => None,
        },
        None => None,
    }
}

/// The number at a place that is counted from the end.
#[tactic(auto, unfolding(crate::specs::Reading::number_at))]
fn number_at(tokens: &[LocatedToken<'_>], place: usize) -> Option<i64>
    requires { place ≤ 5 }
    ensures { result ≡ spec.number_at place (tokens_of tokens.now) }
{
    let minus = is_minus(from_end(tokens, place + 1));
    signed_number(minus, from_end(tokens, place))
}

/// Where the number of the node is behind an action's name, counted from the end.
pub(crate) fn node_place(name: &[u8], tokens: &[LocatedToken<'_>]) -> usize
    ensures place { result ≡ spec.node_place name.now (tokens_of tokens.now) }
    ensures near { result ≤ 5 }
{
    if is_send(name) {
        if is_minus(from_end(tokens, 3)) { 5 } else { 4 }
    } else if is_receive(name) {
        2
    } else {
        1
    }
}

/// The node of an action of this name, by the end of the tokens behind the name. It is that of the action if they
/// spell one; otherwise it is any number.
#[tactic(auto, unfolding(crate::specs::Reading::node_at_end))]
pub(crate) fn node_at_end(name: &[u8], tokens: &[LocatedToken<'_>]) -> Option<i64>
    ensures { result ≡ spec.node_at_end name.now (tokens_of tokens.now) }
{
    let place = node_place(name, tokens);
    number_at(tokens, place)
}
