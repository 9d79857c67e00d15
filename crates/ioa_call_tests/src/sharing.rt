//! Shared values and their numbers.

ghost use Rattle.std.specs.Prelude.{◌≡◌};
ghost use Rattle.ioa_sharing.specs.Shared.{maker_name};

use ioa_sharing::{Maker, MakerOf, Origin};
use std::alloc::{AllocError, Global};
use std::marker::Brand;
use std::sync::Arc;
use std::test::Fail;

#[test]
fn owners_of_one_value_are_told_from_owners_of_equal_ones(rt: HostRuntime) -> Result<(), Fail> {
    let tells = tells_owners::<Brand>(rt.alloc(), Maker::new())?;
    assert!(rt; tells);
    Ok(())
}

/// Whether two owners of one value share it, and an owner of an equal value does not, by a maker of this origin.
fn tells_owners<O: Origin>(alloc: Global, maker: Maker) -> Result<bool, AllocError>
    requires { maker_name maker ≡ O.name }
{
    let mut maker: MakerOf<O> = MakerOf::of(maker);
    let first = maker.share(Arc::new(alloc, 7)?);
    let second = first.try_clone()?;
    let apart = maker.share(Arc::new(alloc, 7)?);
    Ok(
        first.is_shared(&second)
            && second.is_shared(&first)
            && !first.is_shared(&apart)
            && *second.get() == 7
            && *apart.get() == 7,
    )
}
