//! Formats by their names.

ghost use Rattle.std.specs.Prelude.{◌≡◌};
ghost use Rattle.ioa_command.specs.CommandLine as spec;

use ioa_pipeline::Format;

/// The format of a name; nothing if there is none.
pub(crate) fn format_named(name: &str) -> Option<Format>
    ensures { result ≡ spec.format_named name.now }
{
    if name == "text" {
        Some(Format::Text)
    } else if name == "json" {
        Some(Format::Json)
    } else if name == "itf" {
        Some(Format::States)
    } else if name == "svg" {
        Some(Format::Diagram)
    } else if name == "mermaid" {
        Some(Format::Sequence)
    } else {
        None
    }
}
