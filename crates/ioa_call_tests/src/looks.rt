//! A system of 64 nodes, in which node 0 has a channel to each other node and one from it, and looks at all of them.

ghost use Rattle.std.specs.Prelude.{◌≡◌};
ghost use Rattle.ioa_sharing.specs.Shared.{maker_name};

use crate::texts::system;
use ioa_book::{Book, LookFault, Snapshot};
use ioa_sharing::{Maker, MakerOf, Origin};
use ioa_system::System;
use std::alloc::{AllocError, Global};
use std::marker::Brand;
use std::sync::Arc;
use std::test::Fail;

/// An automaton that takes each message to its node, and the beginning of the system.
const AUTOMATON: &str = "automaton A(k: Nat)
        signature input receive(m: Int, i: Nat, const k)
        transitions input receive(m, i, k)
      system";

/// The text of the system.
fn star_text(alloc: Global) -> Result<String, AllocError> {
    let mut text = String::from_str(alloc, AUTOMATON)?;
    for node in 0..64 {
        write!(text, " node {node}: A({node})")?;
    }
    for node in 1..64 {
        write!(text, " channel 0 -> {node} channel {node} -> 0")?;
    }
    Ok(text)
}

/// The system.
fn star(alloc: Global) -> Result<Arc<System>, Fail> {
    system(alloc, &star_text(alloc)?)
}

// The program of the gate runs this test and the next one. Both ask for memory equally often, so the looks ask for
// none.
#[test]
fn a_book_of_the_largest_star_is_opened(rt: HostRuntime) -> Result<(), Fail> {
    let system = star(rt.alloc())?;
    let opened = opens::<Brand>(rt.alloc(), Maker::new(), &system).is_ok();
    assert!(rt; opened);
    Ok(())
}

#[test]
fn each_node_of_the_largest_star_is_looked_at_twice(rt: HostRuntime) -> Result<(), Fail> {
    let system = star(rt.alloc())?;
    let shown = shows_all::<Brand>(rt.alloc(), Maker::new(), &system) == Ok(true);
    assert!(rt; shown);
    Ok(())
}

/// Opens a book of the system.
fn opens<O: Origin>(alloc: Global, maker: Maker, system: &System) -> Result<(), LookFault>
    requires { maker_name maker ≡ O.name }
{
    let _book = book_of::<O>(alloc, maker, system)?;
    Ok(())
}

/// Whether a book of the system shows of each node what it has to do with, and shows it again: 128 components of node
/// 0, and four of each other node.
fn shows_all<O: Origin>(alloc: Global, maker: Maker, system: &System) -> Result<bool, LookFault>
    requires { maker_name maker ≡ O.name }
{
    let book = book_of::<O>(alloc, maker, system)?;
    for node in 0..64 {
        if !shows(alloc, &book, node)? {
            return Ok(false);
        }
    }
    Ok(true)
}

/// The book of the system, by a maker of this origin.
fn book_of<O: Origin>(
    alloc: Global,
    maker: Maker,
    system: &System,
) -> Result<Box<Book<O>>, AllocError>
    requires { maker_name maker ≡ O.name }
{
    let maker: MakerOf<O> = MakerOf::of(maker);
    Ok(Box::new(alloc, Book::new(alloc, maker, system, 10)?)?)
}

/// Whether a look at a node, and the same look again, read as many components as the node has to do with.
fn shows<O: Origin>(alloc: Global, book: &Book<O>, node: i64) -> Result<bool, LookFault> {
    let wanted = if node == 0 { 128 } else { 4 };
    let mut look = book.look(alloc, node)?;
    let first = has_reads(&look, wanted);
    book.look_again(&mut look)?;
    Ok(first && has_reads(&look, wanted))
}

/// Whether a look has read so many components.
fn has_reads<O: Origin>(look: &Snapshot<O>, count: usize) -> bool {
    let mut left = count;
    for _read in look.reads() {
        if left == 0 {
            return false;
        }
        left -= 1;
    }
    left == 0
}
