//! The lines of a schedule in what is given as one: a whole report, or the lines alone.

ghost use Rattle.std.specs.Prelude.{◌≡◌, ◌<◌, length, take, slice_index};
ghost use Rattle.ioa_streams.specs.ScheduleParts as spec;

/// How a report begins.
const REPORT: &[u8] = b"schedule ";

/// Whether a text is a report (profile): it begins with `schedule `.
pub fn is_report(text: &str) -> bool
    ensures { result ≡ spec.is_report text.now }
{
    text.as_bytes().starts_with(REPORT)
}

/// The lines of a schedule (profile). Of a report they are the lines behind the first one that begin with a digit, up to
/// the first that does not. Of any other text they are all of it.
pub fn schedule_part(text: &str) -> &str
    ensures { result.now ≡ spec.schedule_part text.now }
{
    if is_report(text) {
        behind_first_line(text)
    } else {
        text
    }
}

/// The lines behind the first one that begin with a digit.
fn behind_first_line(text: &str) -> &str
    ensures { result.now ≡ spec.behind_first_line text.now }
{
    match text.split_once('\n') {
        None => "",
        Some((_, lines)) => numbered(lines),
    }
}

/// The first lines of a text, as far as each begins with a digit.
fn numbered(lines: &str) -> &str
    ensures { result.now ≡ spec.numbered lines.now }
{
    if begins_with_digit(lines.as_bytes()) {
        before_end(lines)
    } else {
        ""
    }
}

/// What stands before the first line feed behind which no digit stands.
fn before_end(lines: &str) -> &str
    ensures { result.now ≡ spec.before_end lines.now }
{
    match end_in(lines.as_bytes()) {
        None => lines,
        Some(place) => before(lines, place),
    }
}

/// What stands before a line feed.
fn before(lines: &str, place: usize) -> &str
    requires within { place < length lines.now }
    requires feed { slice_index lines.now place ≡ 10 }
    ensures { result.now ≡ take place lines.now }
{
    lines.split_at(place).0
}

/// Where the first line feed stands behind which no digit stands.
fn end_in(lines: &[u8]) -> Option<usize>
    ensures { result ≡ spec.end_in lines.now }
{
    for (place, byte) in lines.iter().enumerate() {
        if *byte == b'\n' && !begins_with_digit(&lines[place + 1..]) {
            return Some(place);
        }
    }
    None
}

/// Whether a text begins with a digit.
fn begins_with_digit(text: &[u8]) -> bool
    ensures { result ≡ spec.begins_with_digit text.now }
{
    match text.first() {
        None => false,
        Some(byte) => b'0' <= *byte && *byte <= b'9',
    }
}
