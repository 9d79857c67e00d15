//! The tree of a text.

ghost use Rattle.std.specs.Prelude.{◌≡◌};
ghost use Rattle.ioa_text_reader.specs.Texts.{IsSource};
ghost use Rattle.ioa_source.specs.TextView.{text_of};

use ioa_source::Text;

/// The tree of a text. Some text spells each value; `parse` makes them. Source: profile.
#[derive(Drop)]
pub struct Source {
    text: Text<(), (), ()>,
    ghost spelled: { ∥ IsSource (text_of text) ∥₁ },
}

impl Source {
    /// The source with a tree that some text spells.
    pub(crate) fn new(text: Text<(), (), ()>) -> Self
        requires { ∥ IsSource (text_of text) ∥₁ }
        ensures { result.text ≡ text }
    {
        Source { text }
    }

    /// The tree.
    pub fn text(&self) -> &Text<(), (), ()>
        ensures same { result.now ≡ self.now.text }
        ensures spelled { ∥ IsSource (text_of result.now) ∥₁ }
    {
        &self.text
    }
}
