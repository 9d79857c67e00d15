//! What stands between a text and those in front of it.

ghost use Rattle.std.specs.Prelude.{◌≡◌};
ghost use Rattle.ioa_paper.specs.Papers.{and_text};
ghost use Rattle.ioa_show.specs.Behind.{between};

use ioa_paper::Paper;
use ioa_streams::Out;

/// Writes a comma and a space if there are texts in front.
pub fn put_between<O: Out>(paper: &mut Paper<'_, O>, behind: bool)
    ensures { paper.new ≡ and_text paper.old (between behind) }
{
    if behind {
        paper.put(", ");
    }
}
