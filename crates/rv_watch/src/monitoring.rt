//! From the file of formulas and standard input to an answer.

ghost use Rattle.std.specs.Prelude.{◌≡◌, ◌<◌, [], List, ℕ};
ghost use Rattle.hy_base.specs.Shelf.{KeepsShelf};
ghost use Rattle.hy_base.specs.Sink.{KeepsSink};
ghost use Rattle.rv_watch.specs.At.{IsFresh, IsWatchedBy};
ghost use Rattle.rv_watch.specs.Runs.{Follows, ReceivesAll};

use crate::course::Terms;
use crate::input::watch_input;
use crate::verdict::WatchAnswer;
use crate::words::Order;
use hy_base::{Shelf, Sink, Steps};
use hy_files::specs_in;
use hy_formula::NameTable;
use hy_run::file_refusal;
use rv_core::Rv;
use rv_tool::new_refusal;
use std::alloc::Global;
use std::marker::Brand;
use std::sync::ledger::{Blank, Ledger};

/// Most quantifiers of a formula.
const MOST_QUANTIFIERS: u8 = 4;

/// Whether the traces that standard input brings violate the formulas of a file. The names of these
/// are added to the empty table, and the lines of counts that are due are written to `err`.
pub fn monitor<S: Shelf, E: Sink>(
    alloc: Global,
    shelf: &mut S,
    order: &Order<'_>,
    names: &mut NameTable,
    err: &mut E,
) -> WatchAnswer
    requires { names.old ≡ [] }
    ensures keeps_shelf { KeepsShelf S.Shelf shelf.old shelf.new }
    ensures keeps_err { KeepsSink E.Sink err.old err.new }
    ensures follows { (said : List (List ℕ))
        × Follows S.Shelf shelf.old shelf.new order.now.question order.now.file.now said result
        × ReceivesAll E.Sink err.old err.new said }
{
    let specs = match specs_in(alloc, shelf, order.file, MOST_QUANTIFIERS, names) {
        Ok(specs) => specs,
        Err(fault) => return Err(file_refusal(0, fault)),
    };
    let question = order.question;
    match Rv::new(alloc, specs.as_slice(), question.lengths, question.drop) {
        Ok(rv) => {
            let terms = Terms { question, names };
            watch_on::<S, Brand, E>(alloc, shelf, rv, &terms, Blank::new(1), err)
        }
        Err(error) => Err(new_refusal(error)),
    }
}

/// Watches standard input, on a ledger of its own, on which the steps are counted.
fn watch_on<S: Shelf, L: Ledger, E: Sink>(
    alloc: Global,
    shelf: &mut S,
    rv: Rv,
    terms: &Terms<'_>,
    blank: Blank,
    err: &mut E,
) -> WatchAnswer
    requires fresh { IsFresh terms.now rv }
    requires name { blank.name ≡ L.name }
    requires parts { blank.parts ≡ L.parts }
    requires some { 0 < blank.parts }
    ensures { KeepsShelf S.Shelf shelf.old shelf.new × KeepsSink E.Sink err.old err.new
        × IsWatchedBy terms.now rv E.Sink err.old S.Shelf shelf.old shelf.new err.new result }
{
    let mut steps = Steps::<L>::new(blank);
    watch_input(alloc, shelf, rv, terms, &mut steps, err)
}
