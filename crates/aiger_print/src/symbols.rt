//! Symbol lines.

ghost use Rattle.std.specs.Prelude.{◌≡◌, ◌++◌, ◌∷◌, [], ◌<◌, length, OnOk};
ghost use Rattle.std.specs.List.{flat_map, range_with_len};
ghost use Rattle.aiger_print.specs.Printed.{symbol_line, symbols_text};

use aig_net::NameList;
use hy_base::{M, Text};
use itoa::Buffer;

/// Adds a line for each name of a kind, which has this letter.
#[tactic(auto, using(crate::proofs::Listing::listed_more))]
pub fn push_symbols(text: &mut Text, letter: u8, names: &NameList) -> M<()>
    ensures { OnOk result (text.new ≡ text.old ++ symbols_text letter names.now) }
{
    for n in 0..names.len() {
        push_symbol(text, letter, n, names.at(n).as_slice())?;
    }
    Ok(())
}

/// Adds the line of the name, where there is one.
fn push_symbol(text: &mut Text, letter: u8, n: usize, name: &[u8]) -> M<()>
    ensures { OnOk result (text.new ≡ text.old ++ symbol_line letter n name.now) }
{
    if name.is_empty() {
        return Ok(());
    }
    let mut buffer = Buffer::new();
    text.push(letter)?;
    text.extend(buffer.format(n).as_bytes())?;
    text.push(b' ')?;
    text.extend(name)?;
    text.push(b'\n')
}
