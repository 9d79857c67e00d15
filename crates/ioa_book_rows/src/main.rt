//! The program of rows for books of commits: looks, proposals and commits on a book of a text, in any order; hands of
//! the core machine; and a book as it stands under the commit lock, with passes, attempts and its finish.
//!
//! **A crate of its own**, since it is proved once for all rows of `checks/book/`.
//!
//! **Must not know**: how a commit is tested, and what an event of a hand comes to.
#![tactic(auto)]

ghost use Rattle.std.specs.Prelude.{◌≡◌};
ghost use Rattle.ioa_sharing.specs.Shared.{maker_name};

mod answers;
mod blank;
mod desk;
mod reading;
mod session;

use blank::BlankOf;
use ioa_rows::answer_script;
use ioa_sharing::{Maker, MakerOf, Origin};
use session::BookRows;
use std::alloc::Global;
use std::io::Stdout;
use std::marker::Brand;
use std::sync::ledger::{Blank, Ledger};
use std::{env, io};

fn main(rt: HostRuntime) -> io::Result<()> {
    let words: Vec<String> = env::args(&rt)?.skip(1).collect(rt.alloc())?;
    let script = io::read_to_string(rt.alloc(), rt.reader())?;
    answer_once(rt.alloc(), &words, &script, &mut rt.stdout())
}

/// Answers a script with books of one maker.
fn answer_once(
    alloc: Global,
    words: &[String],
    script: &String,
    out: &mut Stdout,
) -> io::Result<()> {
    answer_by::<Brand, Brand>(alloc, Maker::new(), Blank::new(1), words, script, out)
}

/// The same by a maker of this origin and a blank of this ledger. It takes no `&str`, since its caller could not say
/// then what the two are.
fn answer_by<O: Origin, L: Ledger>(
    alloc: Global,
    maker: Maker,
    blank: Blank,
    words: &[String],
    script: &String,
    out: &mut Stdout,
) -> io::Result<()>
    requires maker { maker_name maker ≡ O.name }
    requires name { blank.name ≡ L.name }
    requires parts { (blank.parts ≡ L.parts) × (L.parts ≡ 1) }
{
    let maker: MakerOf<O> = MakerOf::of(maker);
    let blank: BlankOf<L> = BlankOf::of(blank);
    let mut session = BookRows::new(alloc, maker, blank);
    answer_script(words, script, &mut session, out)
}
