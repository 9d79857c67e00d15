//! What a look shows of a component.

ghost use Rattle.std.specs.Prelude.{◌≡◌};
ghost use Rattle.std.specs.Option.{option_copied};
ghost use Rattle.ioa_commits.specs.Versions.{read_confs};
ghost use Rattle.ioa_compose.specs.Composition.{find_conf};
ghost use Rattle.ioa_compose.specs.Participants.{participants_of};
ghost use Rattle.ioa_reasons.specs.Reasons.{queue_among};

use ioa_actions::{Action, Component};
use ioa_book::Snapshot;
use ioa_compose::{Conf, Parties, participants};
use ioa_sharing::Origin;

/// What a look shows of a component. None if it shows nothing of it.
pub fn conf_of<O: Origin>(look: &Snapshot<O>, component: Component) -> Option<&Conf>
    ensures { option_copied result ≡ find_conf component (read_confs look.now.reads) }
{
    for read in look.reads() {
        if component == read.component() {
            return Some(read.conf());
        }
    }
    None
}

/// What a look shows of the queue that takes part in an action. None if no queue does, or if the look shows nothing of
/// it.
pub fn queue_of<'a, O: Origin>(look: &'a Snapshot<O>, action: &Action) -> Option<&'a Conf>
    ensures { option_copied result ≡ queue_among (participants_of action.now) (read_confs look.now.reads) }
{
    match participants(action) {
        Parties::One(_) => None,
        Parties::Two(queue, _) => conf_of(look, queue),
    }
}
