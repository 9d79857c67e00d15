//! An input of two parts: a text, and the lines behind a mark.

ghost use Rattle.std.specs.Prelude.{◌≡◌, ◌<◌, ◌==◌, length, take, drop, slice_index};
ghost use Rattle.std.specs.List.{after_first, prefix_len, take_while};
ghost use Rattle.std.specs.Str.{byte};
ghost use Rattle.ioa_streams.specs.Parts as spec;
ghost use Rattle.ioa_streams.specs.Parts.{is_in_line};

/// The line that stands between the two parts of an input.
const MARK: &[u8] = b"---";

/// The same line, with a carriage return at its end.
const MARK_WITH_RETURN: &[u8] = b"---\r";

/// The two parts of an input (profile): the text before the first line that is `---`, with the line feed before that
/// line, and the lines behind it. A carriage return may stand at the end of the mark. Without a mark all of the input
/// is the text, and there are no lines.
pub fn parts(input: &str) -> (&str, &str)
    ensures text { result.0.now ≡ spec.text_part input.now }
    ensures lines { result.1.now ≡ spec.lines_part input.now }
{
    match mark_in(input.as_bytes()) {
        None => (input, ""),
        Some(place) => parts_at(input, place),
    }
}

/// The parts of an input whose mark begins at a place.
fn parts_at(input: &str, place: usize) -> (&str, &str)
    requires within { place < length input.now }
    requires hyphen { slice_index input.now place ≡ byte "-" }
    ensures text { result.0.now ≡ take place input.now }
    ensures lines { result.1.now ≡ after_first (λ c. c == 10) (drop place input.now) }
{
    let (text, rest) = input.split_at(place);
    match rest.split_once('\n') {
        None => (text, ""),
        Some((_, lines)) => (text, lines),
    }
}

/// Where the first line begins that is the mark, if there is one.
fn mark_in(input: &[u8]) -> Option<usize>
    ensures { result ≡ spec.mark_in input.now }
{
    let mut fresh = true;
    for (place, byte) in input.iter().enumerate() {
        if fresh && begins_with_mark(&input[place..]) {
            return Some(place);
        }
        fresh = *byte == b'\n';
    }
    None
}

/// Whether the first line of a text is the mark.
fn begins_with_mark(text: &[u8]) -> bool
    ensures { result ≡ spec.is_mark (take_while is_in_line text.now) }
{
    is_mark(first_line(text))
}

/// Whether a line is the mark.
fn is_mark(line: &[u8]) -> bool
    ensures { result ≡ spec.is_mark line.now }
{
    line == MARK || line == MARK_WITH_RETURN
}

/// The first line of a text, without its line feed.
#[tactic(auto, using(crate::proofs::Marks::line_lemmas))]
fn first_line(text: &[u8]) -> &[u8]
    ensures { result.now ≡ take_while is_in_line text.now }
{
    &text[..line_length(text)]
}

/// How many bytes come before the end of the first line.
fn line_length(text: &[u8]) -> usize
    ensures { result ≡ prefix_len is_in_line text.now }
{
    text.iter().take_while(|byte| **byte != b'\n').count()
}
