//! Names as the language writes them.

ghost use lib.Pointwise.{pointwise};
ghost use Rattle.std.specs.Prelude.{◌≡◌, IfOk, ℕ, ◌<◌, ◌≤◌, All, length, nat_eq, string_bytes};

use arrayvec::ArrayString;
use std::alloc::{AllocError, Global};
use std::cmp::Ordering;
use std::fmt;
use std::hash::{Hash, Hasher};
use std::marker::Model;

/// As many bytes as a word can have without memory of its own.
const SHORT: usize = 16;

/// A name: of an automaton, an action, a variable or a constant. A contract sees its bytes. A short one lies in the
/// word itself, so that it takes no memory, and neither does its copy.
#[derive(Debug)]
pub struct Word {
    text: WordText,
}

/// By hand, so that crates above do not prove again how the parts are let go (DECISIONS).
impl Drop for Word {
    #[inline(always)]
    fn drop(self) {
        let Word { text: _ } = self;
    }
}

/// The text of a word.
#[derive(Debug, Drop)]
enum WordText {
    /// One that is short.
    Short(ArrayString<SHORT>),
    /// Any other.
    Long(String),
}

impl Model for Word {
    ghost use Rattle.std.specs.Prelude.{ℕ, List};
    ghost use Rattle.ioa_values.specs.Words.{text_bytes};

    ghost Value = { List ℕ };

    ghost view = { λ w. text_bytes w.text };
}

impl Word {
    /// A word with the bytes of an ASCII text, as a tokenizer cuts it.
    pub fn from_ascii(alloc: Global, bytes: &[u8]) -> Result<Self, AllocError>
        requires { All (λ b. b < 128) bytes.now }
        ensures { IfOk result (λ w. w ≡ bytes.now) }
    {
        if bytes.len() <= SHORT {
            return Ok(Word {
                text: WordText::Short(short_text(bytes)),
            });
        }
        Ok(Word {
            text: WordText::Long(long_text(alloc, bytes)?),
        })
    }

    /// The text of the word.
    #[inline(always)]
    pub fn as_str(&self) -> &str
        ensures { result.now ≡ self.now }
    {
        match &self.text {
            WordText::Short(text) => text.as_str(),
            WordText::Long(text) => text.as_str(),
        }
    }

    /// Whether this is the text of the word.
    #[inline(always)]
    pub fn spells(&self, text: &str) -> bool
        ensures { result ≡ pointwise nat_eq self.now text.now }
    {
        let word = self.as_str();
        if word.len() < 8 {
            are_same(word.as_bytes(), text.as_bytes())
        } else {
            word == text
        }
    }

    /// An equal word. A long one gets memory of its own.
    pub fn try_copy(&self, alloc: Global) -> Result<Self, AllocError>
        ensures { IfOk result (λ w. w ≡ self.now) }
    {
        let text = match &self.text {
            WordText::Short(text) => WordText::Short(*text),
            WordText::Long(text) => WordText::Long(String::from_str(alloc, text.as_str())?),
        };
        Ok(Word { text })
    }
}

/// The text of a few ASCII bytes.
fn short_text(bytes: &[u8]) -> ArrayString<SHORT>
    requires ascii { All (λ b. b < 128) bytes.now }
    requires few { length bytes.now ≤ 16 }
    ensures { result.bytes ≡ bytes.now }
{
    let mut text = ArrayString::new();
    for byte in bytes {
        text.push(char::from(*byte));
    }
    text
}

/// The text of ASCII bytes.
fn long_text(alloc: Global, bytes: &[u8]) -> Result<String, AllocError>
    requires { All (λ b. b < 128) bytes.now }
    ensures { IfOk result (λ t. string_bytes t ≡ bytes.now) }
{
    let mut text = String::new(alloc);
    for byte in bytes {
        text.push(char::from(*byte))?;
    }
    Ok(text)
}

/// Whether bytes are the same, one by one. It is quicker than std's comparison of texts if there are only a few.
fn are_same(bytes: &[u8], others: &[u8]) -> bool
    ensures { result ≡ pointwise nat_eq bytes.now others.now }
{
    for position in 0..bytes.len().min(others.len()) {
        if bytes[position] != others[position] {
            return false;
        }
    }
    bytes.len() == others.len()
}

impl PartialEq for Word {
    ghost use Rattle.std.specs.Prelude.{nat_eq};
    ghost use Rattle.std.specs.Cmp.Rules.{comparing};
    ghost use Rattle.std.proofs.Common.{rules};
    ghost use lib.Pointwise.{pointwise};

    ghost eq = { pointwise nat_eq };

    ghost laws = { Prim.search (comparing, rules) };

    fn eq(&self, other: &Self) -> bool {
        self.spells(other.as_str())
    }
}

impl Eq for Word {
    ghost use Rattle.std.specs.Cmp.Rules.{comparing};
    ghost use Rattle.std.proofs.Common.{rules};

    ghost laws = { Prim.search (comparing, rules) };
}

impl Hash for Word {
    ghost use Rattle.std.specs.Hash as fed;
    ghost use Rattle.std.specs.Cmp.Rules.{hashing};
    ghost use Rattle.std.proofs.Common.{rules};

    ghost hash_input = { fed.str };

    ghost respects_eq = { Prim.search (hashing, rules) };

    fn hash<H: Hasher>(&self, state: &mut H) {
        self.as_str().hash(state)
    }
}

impl PartialOrd for Word {
    ghost use Rattle.std.specs.Ordering.{nat_cmp, as_partial_cmp};
    ghost use Rattle.std.specs.Cmp.Lexicographic.{slice_cmp, texts_po};

    ghost partial_cmp = { as_partial_cmp (slice_cmp nat_cmp) };

    ghost laws = { texts_po };

    fn partial_cmp(&self, other: &Self) -> Option<Ordering> {
        self.as_str().partial_cmp(&other.as_str())
    }
}

impl Ord for Word {
    ghost use Rattle.std.specs.Prelude.{refl};
    ghost use Rattle.std.specs.Ordering.{nat_cmp};
    ghost use Rattle.std.specs.Cmp.Lexicographic.{slice_cmp, nat_list_cmp_total, texts_ties};

    ghost cmp = { slice_cmp nat_cmp };

    ghost total = { nat_list_cmp_total };

    ghost matches_partial_cmp = { λ x y. refl };

    ghost matches_eq = { texts_ties };

    fn cmp(&self, other: &Self) -> Ordering {
        self.as_str().cmp(&other.as_str())
    }
}

impl fmt::Display for Word {
    ghost use Rattle.std.specs.Prelude.{Some};

    ghost output = { λ w. Some w };

    fn fmt<W: fmt::Write>(&self, f: &mut fmt::Formatter<W>) -> fmt::Result {
        f.write_str(self.as_str())
    }
}
