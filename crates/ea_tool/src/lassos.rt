//! Files of lassos.

ghost use Rattle.std.specs.Prelude.{◌<◌, ◌^◌, length, IfOk, IfErr};
ghost use Rattle.hy_base.specs.Shelf.{KeepsShelf};
ghost use Rattle.hy_files.specs.Steps.{Takes, Fails};
ghost use Rattle.ea_tool.specs.Lassos.{AreLassos, AreNoLassos};

use hy_base::{Shelf, read_all};
use hy_files::FileFault;
use hy_formula::NameTable;
use hy_lasso::{LassoList, read_lassos};
use std::alloc::Global;

/// The lassos that the file has. Names that the table lacks are passed over.
pub fn lassos_in<S: Shelf>(
    alloc: Global,
    shelf: &mut S,
    name: &str,
    names: &NameTable,
) -> Result<LassoList, FileFault>
    ensures keeps { KeepsShelf S.Shelf shelf.old shelf.new }
    ensures taken { IfOk result (λ list. Takes S.Shelf shelf.old shelf.new name.now
        (λ bytes. AreLassos names.now bytes list)) }
    ensures some { IfOk result (λ list. 0 < length list) }
    ensures countable { IfOk result (λ list. length list < 2 ^ 32) }
    ensures failed { IfErr result (λ fault. Fails S.Shelf shelf.old shelf.new name.now
        (AreNoLassos names.now) fault) }
{
    let bytes = read_all(alloc, shelf, name)?;
    Ok(read_lassos(alloc, bytes.as_slice(), names)?)
}
