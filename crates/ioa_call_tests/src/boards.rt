//! Boards whose book is not of the system that a worker is given.

ghost use Rattle.std.specs.Prelude.{◌≡◌};
ghost use Rattle.std.specs.Arc.{arc_value};
ghost use Rattle.ioa_sharing.specs.Named.{shared_of_value};
ghost use Rattle.ioa_sharing.specs.Shared.{maker_name};

use crate::texts::{LEAP, TICK, system};
use ioa_boards::Open;
use ioa_passes::Pass;
use ioa_receipts::Receipts;
use ioa_record::{Ending, NodeFault};
use ioa_shared::{Opening, Solo};
use ioa_sharing::{Maker, MakerOf, SharedOf};
use ioa_solo::{Endings, Hand, work};
use ioa_system::System;
use std::alloc::Global;
use std::marker::Brand;
use std::sync::Arc;
use std::sync::ledger::{Blank, Ledger};
use std::test::Fail;

/// What a worker leaves that worked alone.
struct Left {
    endings: Endings,
    pass: Pass,
    commits: u64,
}

/// By hand, so that no test proves again how the parts are let go.
impl Drop for Left {
    fn drop(self) {
        let Left {
            endings: _,
            pass: _,
            commits: _,
        } = self;
    }
}

impl Left {
    /// Whether it is that many commits, and these endings.
    fn is(&self, commits: u64, endings: &[Ending]) -> bool {
        self.commits == commits && self.endings.as_slice() == endings
    }

    /// The pass alone.
    fn into_pass(self) -> Pass {
        let Left {
            endings: _,
            pass,
            commits: _,
        } = self;
        pass
    }
}

#[test]
fn a_worker_is_refused_by_another_book(rt: HostRuntime) -> Result<(), Fail> {
    let alloc = rt.alloc();
    let tick = system(alloc, TICK)?;
    let leap = system(alloc, LEAP)?;
    let pass = Pass::new(alloc, &tick)?;
    let left = left_by_another::<Brand, Brand>(
        alloc,
        Maker::new(),
        Blank::new(1),
        &tick,
        &leap,
        pass,
    )?;
    let differs = left.is(
        5,
        &[
            fault(NodeFault::Differs),
            Ending::Done,
            fault(NodeFault::Unknown),
        ],
    );
    let pass = left.into_pass();
    let left = left_by_own::<Brand, Brand>(alloc, Maker::new(), Blank::new(1), &tick, pass)?;
    let older = left.is(
        0,
        &[
            fault(NodeFault::Older),
            fault(NodeFault::Older),
            fault(NodeFault::Unknown),
        ],
    );
    assert!(rt; differs && older);
    Ok(())
}

/// The ending by a fault.
fn fault(fault: NodeFault) -> Ending {
    Ending::Fault(fault)
}

/// What a worker leaves that is given another system than its board's.
fn left_by_another<O: Opening, L: Ledger>(
    alloc: Global,
    maker: Maker,
    blank: Blank,
    held: &Arc<System>,
    given: &Arc<System>,
    pass: Pass,
) -> Result<Left, Fail>
    requires maker { maker_name maker ≡ O.name }
    requires opened { (arc_value held.now ≡ O.system) × (100 ≡ O.limit) }
    requires name { blank.name ≡ L.name }
    requires parts { (blank.parts ≡ L.parts) × (L.parts ≡ 1) }
{
    let mut maker: MakerOf<O> = MakerOf::of(maker);
    let held = maker.share(Arc::try_clone(held)?);
    let given = maker.share(Arc::try_clone(given)?);
    left_by::<O, L>(alloc, maker, blank, &held, &given, pass)
}

/// What a worker leaves that is given its board's own system.
fn left_by_own<O: Opening, L: Ledger>(
    alloc: Global,
    maker: Maker,
    blank: Blank,
    system: &Arc<System>,
    pass: Pass,
) -> Result<Left, Fail>
    requires maker { maker_name maker ≡ O.name }
    requires opened { (arc_value system.now ≡ O.system) × (100 ≡ O.limit) }
    requires name { blank.name ≡ L.name }
    requires parts { (blank.parts ≡ L.parts) × (L.parts ≡ 1) }
{
    let mut maker: MakerOf<O> = MakerOf::of(maker);
    let system = maker.share(Arc::try_clone(system)?);
    left_by::<O, L>(alloc, maker, blank, &system, &system, pass)
}

/// What a worker leaves that is given the first two nodes of a system and one that it lacks, at a book of another or of
/// the same.
fn left_by<O: Opening, L: Ledger>(
    alloc: Global,
    maker: MakerOf<O>,
    blank: Blank,
    held: &SharedOf<O, System, Global>,
    given: &SharedOf<O, System, Global>,
    pass: Pass,
) -> Result<Left, Fail>
    requires opened { (shared_of_value held.now ≡ O.system) × (100 ≡ O.limit) }
    requires name { blank.name ≡ L.name }
    requires parts { (blank.parts ≡ L.parts) × (L.parts ≡ 1) }
{
    let (mut solo, share) = Solo::<O, L>::open(alloc, maker, blank, held, 100)?;
    let receipts = Receipts::new(alloc);
    let mut hand = Hand {
        share,
        pass,
        receipts,
    };
    let endings = work(
        alloc,
        given,
        &mut solo,
        &Open,
        0,
        &[0, 1, 2],
        100,
        &mut hand,
    );
    let Hand { share, pass, .. } = hand;
    Ok(Left {
        endings,
        pass,
        commits: share.count(),
    })
}
