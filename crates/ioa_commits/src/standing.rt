//! Whether what was read of a component still stands.

ghost use Rattle.std.specs.Prelude.{◌≡◌, Some};
ghost use Rattle.std.specs.Option.{option_copied};
ghost use Rattle.ioa_compose.specs.SameConfs.{same_conf};
ghost use Rattle.ioa_commits.specs.Commits as spec;

use crate::outcome::CommitRefusal;
use crate::versioned::VersionedConf;
use ioa_sharing::Origin;

/// What is tested of a component that was read. The definition of a refusal goes through these tests.
#[derive(Clone, Copy, Debug)]
pub enum Test {
    /// That the book has it.
    Known,
    /// That its version is the one that was read.
    Current,
    /// That its configuration is the one that was read.
    Same,
}

/// What a test has against what was read of a component, by what is held of it.
pub(crate) fn refusal_by<O: Origin>(
    test: Test,
    read: &VersionedConf<O>,
    held: Option<&VersionedConf<O>>,
) -> Option<CommitRefusal>
    ensures { result ≡ spec.refusal_by test read.now (option_copied held.entry) }
{
    match test {
        Test::Known => unknown_by(read, held),
        Test::Current => stale_by(read, held?),
        Test::Same => differs_by(read, held?),
    }
}

/// `Unknown` (53) if nothing is held of the component.
fn unknown_by<O: Origin>(
    read: &VersionedConf<O>,
    held: Option<&VersionedConf<O>>,
) -> Option<CommitRefusal>
    ensures { result ≡ spec.unknown_by read.now (option_copied held.entry) }
{
    match held {
        None => Some(CommitRefusal::Unknown(read.component())),
        Some(_) => None,
    }
}

/// `Stale` (50) if the version is another one now.
fn stale_by<O: Origin>(read: &VersionedConf<O>, held: &VersionedConf<O>) -> Option<CommitRefusal>
    ensures { result ≡ spec.stale_by read.now (Some held.now) }
{
    if read.version() == held.version() {
        None
    } else {
        Some(CommitRefusal::Stale {
            component: read.component(),
            read: read.version(),
            held: held.version(),
        })
    }
}

/// `Differs` (51) if the configuration is another one than was read.
fn differs_by<O: Origin>(read: &VersionedConf<O>, held: &VersionedConf<O>) -> Option<CommitRefusal>
    ensures { result ≡ spec.differs_by read.now (Some held.now) }
{
    if is_same(read, held) {
        None
    } else {
        Some(CommitRefusal::Differs(read.component()))
    }
}

/// Whether a configuration is held as it was read. Mostly both own the same one, and then this takes constant time;
/// only configurations that were made apart are compared by value.
fn is_same<O: Origin>(read: &VersionedConf<O>, held: &VersionedConf<O>) -> bool
    ensures { result ≡ same_conf read.now.conf held.now.conf }
{
    if read.shares_conf(held) {
        return true;
    }
    read.conf().equals(held.conf())
}
