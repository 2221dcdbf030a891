//! Joint letters that tell all that the atoms of a body ask.

ghost use Rattle.std.specs.Prelude.{◌≡◌, ◌<◌, ◌≤◌, ◌++◌, map, length, IfOk, OnOk, List as Sequence};
ghost use Rattle.fin_monitor.specs.Seen.{machine_of};
ghost use Rattle.dominance.specs.Choices.{AreRows, with_name, row_code, turned_code};

use fin_monitor::Monitor;
use hy_base::{List, M, NumList};
use hy_bits::LetterMask;
use hy_formula::Atom;
use std::alloc::Global;

/// A letter for each of four variables.
pub(crate) type Row = [LetterMask; 4];

/// The rows for all that the atoms of variables other than `place` ask: for each set of these atoms
/// one that says these alone. There are 2 to the number of these atoms.
pub(crate) fn rows(alloc: Global, m: &Monitor, place: u8) -> M<List<Row>>
    ensures { IfOk result (AreRows (machine_of m.now).atoms place) }
{
    let mut rows = List::new(alloc);
    rows.push([LetterMask::empty(); 4])?;
    for a in m.atoms() {
        if a.var != place {
            double(&mut rows, *a)?;
        }
    }
    Ok(rows)
}

/// Adds to the rows each of them with the name of an atom besides.
fn double(rows: &mut List<Row>, a: Atom) -> M<()>
    requires { a.var < 4 }
    ensures { OnOk result (rows.new ≡ rows.old ++ map (with_name a.name a.var) rows.old) }
{
    for k in 0..rows.len() {
        let row = with_atom(rows.at(k), a);
        rows.push(row)?;
    }
    Ok(())
}

/// The row with the name of an atom besides.
fn with_atom(row: &Row, a: Atom) -> Row
    requires { a.var < 4 }
    ensures { result ≡ with_name a.name a.var row.now }
{
    let mut row = *row;
    let variable = a.var as usize;
    row[variable] = row[variable].with(a.name as usize);
    row
}

/// The codes of what the rows say for the variables.
pub(crate) fn row_codes(alloc: Global, m: &Monitor, rows: &[Row]) -> M<NumList>
    ensures { IfOk result (λ made. made ≡ map (row_code (machine_of m.now)) rows.now) }
{
    let mut made = List::new(alloc);
    for row in rows {
        made.push(m.joint(&row[..m.vars() as usize]))?;
    }
    Ok(made)
}

/// The codes of what the rows say with the letters of the two variables exchanged.
pub(crate) fn turned_codes(alloc: Global, m: &Monitor, rows: &[Row]) -> M<NumList>
    requires { (machine_of m.now).variables ≡ 2 }
    ensures { IfOk result (λ made. made ≡ map (turned_code (machine_of m.now)) rows.now) }
{
    let mut made = List::new(alloc);
    for row in rows {
        made.push(m.joint(&[row[1], row[0]]))?;
    }
    Ok(made)
}
