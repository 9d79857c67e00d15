//! Configurations with their versions.

ghost use Rattle.std.specs.Prelude.{◌≡◌, [], IfOk, IsTrue, OnOk};
ghost use Rattle.std.specs.Arc.{arc_value};
ghost use Rattle.ioa_commits.specs.Slots.{next_version};
ghost use Rattle.ioa_commits.specs.Versions.{read_component, versioned_conf, with_version};

use ioa_actions::Component;
use ioa_compose::Conf;
use ioa_sharing::{MakerOf, Origin, SharedOf};
use std::alloc::{AllocError, Global};
use std::marker::Model;
use std::sync::Arc;

/// A configuration with the version of its component: how many steps the component has taken. The configuration is
/// shared: the book holds it, and whoever has looked at it. Its number tells at once that two own the same one. It also
/// says in which slot the book that gave it holds it. That is a hint, of which no contract speaks.
pub struct VersionedConf<O: Origin> {
    conf: SharedOf<O, Conf, Global>,
    version: usize,
    slot: usize,
}

/// By hand, so that crates above do not prove again how the parts are let go (DECISIONS).
impl<O: Origin> Drop for VersionedConf<O> {
    #[inline(always)]
    fn drop(self) {
        let VersionedConf {
            conf: _,
            version: _,
            slot: _,
        } = self;
    }
}

impl<O: Origin> Model for VersionedConf<O> {
    ghost use Rattle.ioa_commits.specs.Versions.{PlainVersionedConf, versioned_conf, versioned_conf_code};

    ghost Value = { PlainVersionedConf };

    ghost coded = { versioned_conf_code };

    ghost use Rattle.ioa_sharing.specs.Named.{shared_of_value};

    ghost view = { λ r. versioned_conf (shared_of_value r.conf) r.version };
}

impl<O: Origin> VersionedConf<O> {
    /// A configuration before any action, which is held in a slot.
    pub(crate) fn first(maker: &mut MakerOf<O>, conf: Arc<Conf>, slot: usize) -> Self
        ensures { result ≡ with_version [] (arc_value conf) }
    {
        VersionedConf {
            conf: maker.share(conf),
            version: 0,
            slot,
        }
    }

    /// The configuration.
    pub fn conf(&self) -> &Conf
        ensures { result.now ≡ self.now.conf }
    {
        self.conf.get()
    }

    /// The version of its component.
    pub fn version(&self) -> usize
        ensures { result ≡ self.now.version }
    {
        self.version
    }

    /// The component.
    pub fn component(&self) -> Component
        ensures { result ≡ read_component self.now }
    {
        self.conf().component()
    }

    /// The slot in which the book that gave it holds it, counted from 0 in the order of the components. A hint for who
    /// keeps something beside each component: no contract speaks of it.
    pub fn slot(&self) -> usize {
        self.slot
    }

    /// The same once more, which owns the same configuration. Takes no memory; fails if the count of owners is full.
    pub fn try_copy(&self) -> Result<Self, AllocError>
        ensures { IfOk result (λ r. r ≡ self.now) }
    {
        Ok(VersionedConf {
            conf: self.conf.try_clone()?,
            version: self.version,
            slot: self.slot,
        })
    }

    /// Makes it what is held now. Takes no memory, and one owner more only if the two do not share one configuration;
    /// fails if the count of owners is full.
    #[inline(always)]
    pub fn refresh(&mut self, held: &VersionedConf<O>) -> Result<(), AllocError>
        ensures { OnOk result (self.new ≡ held.now) }
    {
        if !self.shares_conf(held) {
            self.conf = held.conf.try_clone()?;
        }
        self.version = held.version;
        self.slot = held.slot;
        Ok(())
    }

    /// Whether this is the very one that is held, with its version: in constant time. It is false of equal ones made
    /// apart.
    #[inline(always)]
    pub fn is_held(&self, held: &VersionedConf<O>) -> bool
        ensures { IsTrue result → self.now ≡ held.now }
    {
        self.version == held.version && self.shares_conf(held)
    }

    /// Whether both own one configuration, in constant time. It is false of equal configurations made apart.
    #[inline(always)]
    pub(crate) fn shares_conf(&self, other: &VersionedConf<O>) -> bool
        ensures { IsTrue result → self.now.conf ≡ other.now.conf }
    {
        self.conf.is_shared(&other.conf)
    }

    /// Raises the version by one, within the runtime's numbers.
    pub(crate) fn raise(&mut self)
        ensures { self.new ≡ versioned_conf self.old.conf (next_version self.old.version) }
    {
        self.version = self.version.saturating_add(1);
    }

    /// Puts the configuration after a step in place of this one, which comes out, and raises the version by one.
    #[inline(always)]
    pub(crate) fn advance(&mut self, maker: &mut MakerOf<O>, conf: &mut Arc<Conf>)
        ensures { self.new ≡ versioned_conf (arc_value conf.old) (next_version self.old.version) }
    {
        self.exchange(maker, conf);
        self.raise();
    }

    /// Puts another configuration in place of this one, which comes out; the version stays as it is.
    #[inline(always)]
    pub(crate) fn exchange(&mut self, maker: &mut MakerOf<O>, conf: &mut Arc<Conf>)
        ensures { self.new ≡ versioned_conf (arc_value conf.old) self.old.version }
    {
        maker.exchange(&mut self.conf, conf);
    }
}
