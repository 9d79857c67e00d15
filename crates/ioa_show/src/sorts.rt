//! Sorts, written on a paper.

ghost use Rattle.std.specs.Prelude.{◌≡◌};
ghost use Rattle.ioa_paper.specs.Papers.{and_text};
ghost use Rattle.ioa_show.specs.Sorts.{sort_text};

use ioa_paper::Paper;
use ioa_streams::Out;
use ioa_terms::{Shape, ShapeForm};

/// Writes a sort as texts spell it.
#[cycle(spelling)]
pub fn put_sort<O: Out>(paper: &mut Paper<'_, O>, shape: &Shape)
    ensures { paper.new ≡ and_text paper.old (sort_text shape.now) }
{
    match &shape.form {
        ShapeForm::Truths => paper.put("Bool"),
        ShapeForm::Integers => paper.put("Int"),
        ShapeForm::Naturals => paper.put("Nat"),
        ShapeForm::Constants(name, _, _) => paper.put(name.as_str()),
        ShapeForm::Tuples(name, _, _) => paper.put(name.as_str()),
        ShapeForm::Sequences(item) => {
            paper.put("Seq[");
            put_sort(paper, item);
            paper.put("]");
        }
        ShapeForm::Sets(member) => {
            paper.put("Set[");
            put_sort(paper, member);
            paper.put("]");
        }
        ShapeForm::Maps(key, value) => {
            paper.put("Map[");
            put_sort(paper, key);
            paper.put(", ");
            put_sort(paper, value);
            paper.put("]");
        }
    }
}
