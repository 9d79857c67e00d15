//! Texts that are kept.

ghost use Rattle.std.specs.Prelude.{◌≡◌, string_bytes};
ghost use Rattle.ioa_terms.specs.Bindings.{same_word};

use std::marker::Model;

/// A text that is kept. A contract sees its bytes.
#[derive(Debug)]
pub struct KeptText {
    text: String,
}

/// By hand, so that crates above do not prove again how the text is let go (DECISIONS).
impl Drop for KeptText {
    fn drop(self) {
        let KeptText { text: _ } = self;
    }
}

impl Model for KeptText {
    ghost use Rattle.std.specs.Prelude.{ℕ, List, string_bytes};

    ghost Value = { List ℕ };

    ghost view = { λ t. string_bytes t.text };
}

impl KeptText {
    /// This text, kept.
    pub(crate) fn new(text: String) -> Self
        ensures { result ≡ string_bytes text }
    {
        KeptText { text }
    }

    /// The text.
    pub fn as_str(&self) -> &str
        ensures { result.now ≡ self.now }
    {
        self.text.as_str()
    }

    /// Whether two texts are the same.
    pub(crate) fn is_same(&self, other: &KeptText) -> bool
        ensures { result ≡ same_word self.now other.now }
    {
        self.as_str() == other.as_str()
    }
}
