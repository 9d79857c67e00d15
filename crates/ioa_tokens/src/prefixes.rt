//! The characters of one kind that a text begins with.

ghost use Rattle.std.specs.Prelude.{◌≡◌, ◌<◌, All, length};
ghost use Rattle.std.specs.List.{prefix_len, take_while};
ghost use Rattle.std.specs.Char.{is_ascii_alphabetic, is_ascii_digit, IsAsciiDigit};
ghost use Rattle.ioa_tokens.specs.Lexeme as spec;

/// Whether a character is white space.
pub(crate) fn is_space(c: u8) -> bool
    ensures { result ≡ spec.is_space c }
{
    matches!(c, b' ' | b'\t' | b'\r' | b'\n')
}

/// Whether a character may be in a word behind its first letter.
fn is_in_word(c: u8) -> bool
    ensures { result ≡ spec.is_in_word c }
{
    c.is_ascii_alphanumeric() || c == b'_'
}

/// How many bytes come before the end of the line.
pub(crate) fn line_length(text: &[u8]) -> usize
    ensures { result ≡ prefix_len spec.is_in_line text.now }
{
    text.iter().take_while(|c| **c != b'\n').count()
}

/// How many bytes the word at the head of a text has.
fn word_length(text: &[u8]) -> usize
    ensures { result ≡ prefix_len spec.is_in_word text.now }
{
    text.iter().take_while(|c| is_in_word(**c)).count()
}

/// How many digits the text begins with.
fn digits_length(text: &[u8]) -> usize
    ensures { result ≡ prefix_len is_ascii_digit text.now }
{
    text.iter().take_while(|c| c.is_ascii_digit()).count()
}

/// How many letters the text begins with.
fn letters_length(text: &[u8]) -> usize
    ensures { result ≡ prefix_len is_ascii_alphabetic text.now }
{
    text.iter().take_while(|c| c.is_ascii_alphabetic()).count()
}

/// The word that a text begins with.
#[tactic(auto, using(crate::proofs::PrefixLemmas::prefix_lemmas))]
pub(crate) fn word_at(text: &[u8]) -> &[u8]
    ensures value { result.now ≡ take_while spec.is_in_word text.now }
    ensures ascii { All (λ c. c < 128) result.now }
{
    &text[..word_length(text)]
}

/// The digits that a text begins with.
#[tactic(auto, using(crate::proofs::PrefixLemmas::prefix_lemmas))]
pub(crate) fn digits_at(text: &[u8]) -> &[u8]
    ensures value { result.now ≡ take_while is_ascii_digit text.now }
    ensures digits { All IsAsciiDigit result.now }
{
    &text[..digits_length(text)]
}

/// The backslash that a text begins with, and the letters after it.
#[tactic(auto, using(crate::proofs::PrefixLemmas::prefix_lemmas))]
pub(crate) fn backslash_word(text: &[u8]) -> &[u8]
    requires { 0 < length text.now }
    ensures { result.now ≡ spec.backslash_word text.now }
{
    let letters = letters_length(&text[1..]);
    &text[..1 + letters]
}
