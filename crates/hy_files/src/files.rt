//! Files of formulas, and bytes whose text is still to be read.

ghost use Rattle.std.specs.Prelude.{◌≡◌, ◌++◌, ◌≤◌, ℕ, List, Ok, Err, length, IfOk, IfErr};
ghost use Rattle.hy_base.specs.Shelf.{KeepsShelf, ReadsFile};
ghost use Rattle.hy_base.specs.declared.reading.TheConstants.{BYTES_LIMIT};
ghost use Rattle.hy_formula.specs.Formulas.{plain_formula, plain_formulas};
ghost use Rattle.hy_files.specs.Contents.{AreNoSpecs, AreSpecs, IsFormula, IsNoFormula};
ghost use Rattle.hy_files.specs.Faults.{read_fault};
ghost use Rattle.hy_files.specs.Steps.{Takes, Fails};

use crate::fault::FileFault;
use hy_base::{FileError, Shelf, Text, read_all};
use hy_formula::{Formula, NameTable};
use hy_read::{SpecList, read_formula, read_specs};
use std::alloc::Global;

/// The formula of at most so many quantifiers that the file is. Its names are added to the table,
/// which has its old ones and maybe new ones behind them after a refusal.
pub fn formula_in<S: Shelf>(
    alloc: Global,
    shelf: &mut S,
    name: &str,
    quantifiers: u8,
    names: &mut NameTable,
) -> Result<Formula, FileFault>
    requires { quantifiers ≤ 8 }
    ensures keeps { KeepsShelf S.Shelf shelf.old shelf.new }
    ensures kept { (more : List (List ℕ)) × (names.new ≡ names.old ++ more) }
    ensures taken { IfOk result (λ f. Takes S.Shelf shelf.old shelf.new name.now
        (λ bytes. IsFormula quantifiers names.old bytes (plain_formula f) names.new)) }
    ensures failed { IfErr result (λ fault. Fails S.Shelf shelf.old shelf.new name.now
        (IsNoFormula quantifiers names.old) fault) }
{
    let bytes = read_all(alloc, shelf, name)?;
    Ok(read_formula(alloc, bytes.as_slice(), quantifiers, names)?)
}

/// The formulas of at most so many quantifiers that the file is, joined by semicolons. Their names
/// are added to the table, which has its old ones and maybe new ones behind them after a refusal.
pub fn specs_in<S: Shelf>(
    alloc: Global,
    shelf: &mut S,
    name: &str,
    quantifiers: u8,
    names: &mut NameTable,
) -> Result<SpecList, FileFault>
    requires { quantifiers ≤ 8 }
    ensures keeps { KeepsShelf S.Shelf shelf.old shelf.new }
    ensures kept { (more : List (List ℕ)) × (names.new ≡ names.old ++ more) }
    ensures taken { IfOk result (λ specs. Takes S.Shelf shelf.old shelf.new name.now
        (λ bytes. AreSpecs quantifiers names.old bytes (plain_formulas specs) names.new)) }
    ensures failed { IfErr result (λ fault. Fails S.Shelf shelf.old shelf.new name.now
        (AreNoSpecs quantifiers names.old) fault) }
{
    let bytes = read_all(alloc, shelf, name)?;
    Ok(read_specs(alloc, bytes.as_slice(), quantifiers, names)?)
}

/// The bytes of a file, whose text is still to be read, as one of events that are taken in turn.
pub fn bytes_in<S: Shelf>(alloc: Global, shelf: &mut S, name: &str) -> Result<Text, FileFault>
    ensures keeps { KeepsShelf S.Shelf shelf.old shelf.new }
    ensures read { IfOk result (λ bytes. ReadsFile S.Shelf shelf.old shelf.new name.now (Ok bytes)) }
    ensures few { IfOk result (λ bytes. length bytes ≤ BYTES_LIMIT) }
    ensures failed { IfErr result (λ fault. (error : FileError)
        × ReadsFile S.Shelf shelf.old shelf.new name.now (Err error) × (fault ≡ read_fault error)) }
{
    Ok(read_all(alloc, shelf, name)?)
}
