//! What a look has read, one after the other.

ghost use Rattle.std.specs.Prelude.{◌≡◌, length};
ghost use Rattle.std.specs.Iterator.{at_most};
ghost use Rattle.std.specs.Map.Iter.{TakesFirst, deref};
ghost use Rattle.ioa_book.specs.Slots.{those_there};

use ioa_commits::VersionedConf;
use ioa_sharing::Origin;
use std::marker::Model;

/// What a look has read, in the order of the components. To a clause it is the list of what is left.
#[derive(Drop)]
pub struct Reads<'a, O: Origin> {
    places: &'a [Option<VersionedConf<O>>],
}

impl<'a, O: Origin> Model for Reads<'a, O> {
    ghost use Rattle.std.specs.Coded.{coded_list};
    ghost use Rattle.std.specs.Prelude.{List};
    ghost use Rattle.ioa_book.specs.Slots.{those_there};
    ghost use Rattle.ioa_commits.specs.Versions.{PlainVersionedConf, versioned_conf_code};

    ghost Value = { List PlainVersionedConf };

    ghost coded = { coded_list versioned_conf_code };

    ghost view = { λ r. those_there r.places.now };
}

impl<'a, O: Origin> Reads<'a, O> {
    /// All that there is in these places.
    pub(crate) fn over(places: &'a [Option<VersionedConf<O>>]) -> Self
        ensures { result ≡ those_there places.now }
    {
        Reads { places }
    }
}

impl<'a, O: Origin> Iterator for Reads<'a, O> {
    type Item = &'a VersionedConf<O>;

    ghost next_gives = { TakesFirst deref };

    ghost remaining = { λ s. at_most (length s) };

    fn next(&mut self) -> Option<&'a VersionedConf<O>> {
        while let Some((first, rest)) = self.places.split_first() {
            self.places = rest;
            if let Some(read) = first {
                return Some(read);
            }
        }
        None
    }
}
