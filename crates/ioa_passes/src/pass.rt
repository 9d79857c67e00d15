//! Passes: what a worker has seen of a book.

ghost use Rattle.std.specs.Prelude.{◌≡◌, ◌<◌, IfOk, IsFalse, IsSome, IsTrue, None, Some};
ghost use Rattle.std.specs.Prelude.{get_or, length, map, max, set, slice_get};
ghost use Rattle.ioa_actions.specs.declared.component.Component.{Component};
ghost use Rattle.ioa_compose.specs.Composition.{component_names};
ghost use Rattle.ioa_compose.specs.Start.{start};
ghost use Rattle.ioa_commits.specs.Proposals.{participants_read};
ghost use Rattle.ioa_commits.specs.Versions.{read_component};
ghost use Rattle.ioa_passes.specs.Passes as spec;

use crate::outcome::{Aged, Older};
use ioa_actions::Component;
use ioa_book::{Participant, Snapshot, VersionedConf};
use ioa_compose::{Conf, start};
use ioa_index::Index;
use ioa_sharing::Origin;
use ioa_system::System;
use std::alloc::{AllocError, Global};
use std::marker::Model;

/// A component with the version at which it was seen.
#[derive(Clone, Copy, Debug, PartialEq, Eq)]
pub struct Seen {
    /// The component.
    pub component: Component,
    /// Its version.
    pub version: usize,
}

/// What a worker has seen of a book: how long the log was, and of each component the greatest version. Who shows it
/// something older is refused. A pass never falls, and a component that it lacks is not added: it counts as seen at 0.
/// What was read of a book of the pass's own system says in which slot it stands, so it is found in constant time.
pub struct Pass {
    seen: Vec<Seen>,
    index: Index,
    length: usize,
}

/// By hand, so that crates above do not prove again how the parts are let go (DECISIONS).
impl Drop for Pass {
    fn drop(self) {
        let Pass {
            seen: _,
            index: _,
            length: _,
        } = self;
    }
}

impl Model for Pass {
    ghost use Rattle.ioa_passes.specs.Passes.{PlainPass, plain_pass, plain_pass_code};

    ghost Value = { PlainPass };

    ghost coded = { plain_pass_code };

    ghost view = { λ p. plain_pass p.seen.items p.length };

    ghost use Rattle.std.specs.Prelude.{◌≡◌};
    ghost use Rattle.ioa_passes.specs.Passes.{components_seen};

    ghost invariant = { λ p. p.index ≡ components_seen p.seen.items };
}

/// Components at which nothing was seen yet.
fn unseen(alloc: Global, confs: &[Conf]) -> Result<Vec<Seen>, AllocError>
    ensures { IfOk result (λ v. v.items ≡ map spec.unseen (component_names confs.now)) }
{
    let mut seen = Vec::new(alloc);
    for conf in confs {
        let component = conf.component();
        seen.push(Seen {
            component,
            version: 0,
        })?;
    }
    Ok(seen)
}

/// The components of what was seen.
fn components_of(alloc: Global, seen: &[Seen]) -> Result<Vec<Component>, AllocError>
    ensures { IfOk result (λ v. v.items ≡ spec.components_seen seen.now) }
{
    let mut components = Vec::new(alloc);
    for entry in seen {
        components.push(entry.component)?;
    }
    Ok(components)
}

/// The version of the component in a place.
fn version_at(seen: &[Seen], at: usize) -> usize
    requires { at < length seen.now }
    ensures { result ≡ (spec.seen_in seen.now at).version }
{
    seen[at].version
}

/// Raises the component in a place to a version, if it was not seen at that.
#[inline(always)]
fn raise_at(seen: &mut Vec<Seen>, at: usize, version: usize)
    requires { at < length seen.old.items }
    ensures { seen.new.items ≡ spec.raise_place version at seen.old.items }
{
    let entry = seen[at];
    seen[at] = Seen {
        component: entry.component,
        version: entry.version.max(version),
    };
}

/// Whether what was seen in a slot is what was read, at its version.
#[inline(always)]
fn stands_at<O: Origin>(seen: &[Seen], slot: usize, read: &VersionedConf<O>) -> bool
    ensures { IsTrue result →
        slice_get seen.now slot ≡ Some (spec.seen_at (read_component read.now) read.now.version) }
{
    match seen.get(slot) {
        Some(seen) => seen.version == read.version() && seen.component == read.component(),
        None => false,
    }
}

impl Pass {
    /// The pass of a worker that has seen nothing yet of a book of the system.
    pub fn new(alloc: Global, system: &System) -> Result<Self, AllocError>
        ensures { IfOk result (λ p. p ≡ spec.first_pass (start system.now)) }
    {
        let start = start(alloc, system)?;
        let seen = unseen(alloc, &start)?;
        let components = components_of(alloc, &seen)?;
        let index = Index::new(alloc, components)?;
        Ok(Pass {
            seen,
            index,
            length: 0,
        })
    }

    /// How long the log was when it was seen last.
    pub fn length(&self) -> usize
        ensures { result ≡ self.now.length }
    {
        self.length
    }

    /// The version at which a component was seen last: 0, if it is not in the pass.
    pub fn seen(&self, component: Component) -> usize
        ensures { result ≡ spec.seen_of component self.now.seen }
    {
        self.seen_near(component, 0)
    }

    /// The same, in constant time if the component stands in the slot `near`.
    fn seen_near(&self, component: Component, near: usize) -> usize
        ensures { result ≡ spec.seen_of component self.now.seen }
    {
        match self.index.slot_of(component, near) {
            Some(slot) => version_at(&self.seen, slot),
            None => 0,
        }
    }

    /// Raises what was seen of a component, in constant time if it stands in the slot `near`.
    #[inline(always)]
    fn raise(&mut self, component: Component, version: usize, near: usize)
        ensures { self.new ≡ spec.plain_pass (spec.raise_seen component version self.old.seen) self.old.length }
    {
        match self.index.slot_of(component, near) {
            Some(slot) => raise_at(&mut self.seen, slot, version),
            None => (),
        }
    }

    /// Raises what was seen of what was read.
    fn raise_read<O: Origin>(&mut self, read: &VersionedConf<O>)
        ensures { self.new ≡ spec.plain_pass (spec.raise_read read.now self.old.seen) self.old.length }
    {
        self.raise(read.component(), read.version(), read.slot());
    }

    /// Raises what was seen of what was read and has taken a step since.
    #[inline(always)]
    fn raise_next<O: Origin>(&mut self, read: &VersionedConf<O>)
        ensures { self.new ≡ spec.plain_pass (spec.raise_next read.now self.old.seen) self.old.length }
    {
        self.raise(
            read.component(),
            read.version().saturating_add(1),
            read.slot(),
        );
    }

    /// Rises to a look, and gives nothing, unless the look is older than what was seen. Then it gives what of the look
    /// is older, the first such component or else the length, and the pass is as it was.
    #[inline(always)]
    pub fn rise_unless_older<O: Origin>(&mut self, look: &Snapshot<O>) -> Option<Older>
        ensures older { result ≡ spec.older self.old look.now }
        ensures risen { result ≡ None → self.new ≡ spec.risen_by_look look.now self.old }
        ensures kept { IsSome result → self.new ≡ self.old }
    {
        if self.rise_quickly(look) {
            return None;
        }
        self.rise_slowly(look)
    }

    /// The same of a look to which the pass did not rise quickly.
    #[inline(never)]
    fn rise_slowly<O: Origin>(&mut self, look: &Snapshot<O>) -> Option<Older>
        ensures older { result ≡ spec.older self.old look.now }
        ensures risen { result ≡ None → self.new ≡ spec.risen_by_look look.now self.old }
        ensures kept { IsSome result → self.new ≡ self.old }
    {
        let older = self.older(look);
        if older.is_none() {
            self.rise_by_look(look);
        }
        older
    }

    /// Rises to a look, if each component that it shows has the very version at which it was seen: then no version
    /// changes. If not, it says so, and the pass is as it was.
    #[inline(always)]
    fn rise_quickly<O: Origin>(&mut self, look: &Snapshot<O>) -> bool
        ensures risen { IsTrue result → self.new ≡ spec.risen_by_look look.now self.old }
        ensures fresh { IsTrue result → spec.older self.old look.now ≡ None }
        ensures kept { IsFalse result → self.new ≡ self.old }
    {
        if look.length() < self.length {
            return false;
        }
        if self.shows_seen(look) {
            self.length = look.length();
            true
        } else {
            false
        }
    }

    /// Whether each component that a look shows has the very version at which it was seen.
    #[inline(always)]
    fn shows_seen<O: Origin>(&self, look: &Snapshot<O>) -> bool
        ensures { IsTrue result → spec.AreSeen self.now.seen look.now.reads }
    {
        for read in look.reads() {
            if !self.is_seen(read) {
                return false;
            }
        }
        true
    }

    /// Whether what was read of a component has the very version at which it was seen, by what stands in its slot.
    #[inline(always)]
    fn is_seen<O: Origin>(&self, read: &VersionedConf<O>) -> bool
        ensures { IsTrue result → spec.IsSeen self.now.seen read.now }
    {
        let slot = read.slot();
        if self.index.is_first(slot) {
            stands_at(&self.seen, slot, read)
        } else {
            false
        }
    }

    /// What of a look is older than what was seen: the first component, or else the length.
    fn older<O: Origin>(&self, look: &Snapshot<O>) -> Option<Older>
        ensures { result ≡ spec.older self.now look.now }
    {
        let older = self.first_older(look);
        if older.is_some() {
            return older;
        }
        self.older_length(look.length())
    }

    /// The first component of a look that is older than it was seen.
    fn first_older<O: Origin>(&self, look: &Snapshot<O>) -> Option<Older>
        ensures { result ≡ spec.first_older self.now.seen look.now.reads }
    {
        for read in look.reads() {
            let older = self.older_read(read);
            if older.is_some() {
                return older;
            }
        }
        None
    }

    /// Whether what was read of a component is older than it was seen.
    fn older_read<O: Origin>(&self, read: &VersionedConf<O>) -> Option<Older>
        ensures { result ≡ spec.older_read self.now.seen read.now }
    {
        let seen = self.seen_near(read.component(), read.slot());
        if read.version() < seen {
            Some(Older {
                of: Aged::Component(read.component()),
                seen,
                held: read.version(),
            })
        } else {
            None
        }
    }

    /// Whether a log of this length is older than it was seen.
    #[inline(always)]
    pub fn older_length(&self, held: usize) -> Option<Older>
        ensures { result ≡ spec.older_length self.now.length held }
    {
        if held < self.length {
            Some(Older {
                of: Aged::Length,
                seen: self.length,
                held,
            })
        } else {
            None
        }
    }

    /// Rises to what a look shows.
    fn rise_by_look<O: Origin>(&mut self, look: &Snapshot<O>)
        ensures { self.new ≡ spec.risen_by_look look.now self.old }
    {
        self.raise_reads(look);
        self.length = self.length.max(look.length());
    }

    /// Rises to what a look has read.
    fn raise_reads<O: Origin>(&mut self, look: &Snapshot<O>)
        ensures { self.new ≡ spec.plain_pass (spec.raise_all look.now.reads self.old.seen) self.old.length }
    {
        for read in look.reads() {
            self.raise_read(read);
        }
    }

    /// Rises to what a commit leaves: a log of this length, and the participants with their next versions.
    #[inline(always)]
    pub fn rise_by_commit<O: Origin>(
        &mut self,
        queue: &Option<Participant<O>>,
        node: &Participant<O>,
        length: usize,
    )
        ensures { self.new ≡ spec.risen_by_commit (participants_read queue.now node.now) length self.old }
    {
        if let Some(queue) = queue {
            self.raise_next(queue.read());
        }
        self.raise_next(node.read());
        self.length = self.length.max(length);
    }

    /// Rises to the version that a stale proposal met.
    pub fn rise_to(&mut self, component: Component, version: usize)
        ensures { self.new ≡ spec.plain_pass (spec.raise_seen component version self.old.seen) self.old.length }
    {
        self.raise(component, version, 0);
    }
}
