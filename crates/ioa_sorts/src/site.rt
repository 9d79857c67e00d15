//! Where statements are written.

ghost use Rattle.std.specs.Prelude.{◌≡◌, [], take};
ghost use Rattle.ioa_sorts.specs.SiteView.{site_of};
ghost use Rattle.ioa_sorts.specs.StatementSites.{block_site, effect_site};

use ioa_names::{RuleTable, View};
use ioa_types::Types;

/// Where statements are written: in an effect, which may choose values of these types, or in a schedule block.
#[derive(Clone, Copy)]
pub(crate) enum Place<'a> {
    Effect(&'a Types),
    Block,
}

/// Where statements are written (profile): in the effect of a transition or in a schedule block. The variables that
/// they may assign come first among the names in view, and in a schedule block the state variables come next.
#[derive(Drop)]
pub struct StatementSite<'a> {
    pub(crate) view: &'a View<'a>,
    pub(crate) variables: usize,
    pub(crate) all_variables: usize,
    pub(crate) place: Place<'a>,
    pub(crate) rules: &'a RuleTable,
}

impl<'a> StatementSite<'a> {
    /// An effect, which may choose values of the text's types, and assign the first `variables` names in view. `none`
    /// are no rules: an effect fires nothing.
    pub fn effect(
        types: &'a Types,
        view: &'a View<'a>,
        variables: usize,
        none: &'a RuleTable,
    ) -> Self
        requires { none.now ≡ [] }
        ensures { site_of result ≡ effect_site types.now (take variables view.now) view.now }
    {
        StatementSite {
            view,
            variables,
            all_variables: variables,
            place: Place::Effect(types),
            rules: none,
        }
    }

    /// A schedule block, which may assign the first `variables` names in view, and fire the actions of these rules. The
    /// first `all_variables` names are its variables and those of the state.
    pub fn block(
        view: &'a View<'a>,
        variables: usize,
        all_variables: usize,
        rules: &'a RuleTable,
    ) -> Self
        ensures { site_of result ≡ block_site (take variables view.now) (take all_variables view.now) view.now
            rules.now }
    {
        StatementSite {
            view,
            variables,
            all_variables,
            place: Place::Block,
            rules,
        }
    }
}
