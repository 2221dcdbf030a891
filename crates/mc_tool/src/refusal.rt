//! Refusals of a check, with a strategy and without.

ghost use Rattle.std.specs.Prelude.{◌≡◌, ◌⊎◌, IfOk};
ghost use Rattle.net_names.specs.Names.{name_at};

use crate::verdict::McFault;
use hy_base::{Limit, M, Memory, Text};
use hy_formula::NameTable;
use hy_run::Refusal;
use std::alloc::Global;

/// A count is past this limit.
pub fn past(limit: Limit) -> Refusal<McFault>
    ensures { result ≡ Refusal.Limit limit.kind limit.limit }
{
    Refusal::Limit {
        kind: limit.kind,
        limit: limit.limit,
    }
}

/// The name with this number is bad, or memory ran out over its text.
pub fn bad_name(alloc: Global, names: &NameTable, name: u8, twice: bool) -> Refusal<McFault>
    ensures { (result ≡ Refusal.Own (McFault.Name (name_at names.now name) twice))
        ⊎ (result ≡ Refusal.Memory) }
{
    match name_text(alloc, names, name) {
        Ok(name) => Refusal::Own(McFault::Name { name, twice }),
        Err(Memory) => Refusal::Memory,
    }
}

/// The name with a number.
fn name_text(alloc: Global, names: &NameTable, name: u8) -> M<Text>
    ensures { IfOk result (λ text. text ≡ name_at names.now name) }
{
    let mut text = Text::new(alloc);
    text.extend(names.text(name))?;
    Ok(text)
}
