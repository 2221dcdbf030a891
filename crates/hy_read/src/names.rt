//! The names of the atoms of a text.

ghost use Rattle.std.specs.Prelude.{◌≡◌, ◌≤◌, ◌<◌, ◌++◌, ◌∷◌, [], ℕ, List, length, OnOk, OnErr};
ghost use Rattle.hy_read.specs.Parses.{AreLeft};
ghost use Rattle.hy_read.specs.Results.{names_of};
ghost use Rattle.hy_read.specs.Scans.{plain};
ghost use Rattle.hy_read.specs.Tokens.{Token as PlainToken};

use crate::scan::next_token;
use crate::token::Token;
use hy_formula::{NameError, NameTable};
use std::alloc::Global;

/// Adds the names of the atoms of `text` to the table, in the order of their first occurrence. In
/// time linear in the text. A refusal may leave new names in the table, behind the old ones.
pub fn collect_names(alloc: Global, text: &[u8], names: &mut NameTable) -> Result<(), NameError>
    ensures collected { OnOk result ((tokens : List PlainToken) → AreLeft text.now 0 tokens
        → (names.new ≡ names_of names.old tokens) × (length names.new ≤ 64)) }
    ensures limit { result ≡ Err NameError.Limit → (tokens : List PlainToken)
        → AreLeft text.now 0 tokens → 64 < length (names_of names.old tokens) }
    ensures kept { (more : List (List ℕ)) × (names.new ≡ names.old ++ more) }
{
    let mut at = 0;
    while let Some(next) = next_token(text, at) {
        add_name(alloc, next.token, names)?;
        at = next.behind;
    }
    prove!(names.len() <= 64);
    Ok(())
}

/// Adds the name of a token, where it is an atom. A refusal leaves the table.
fn add_name(alloc: Global, token: Token<'_>, names: &mut NameTable) -> Result<(), NameError>
    ensures added { OnOk result (names.new ≡ names_of names.old (plain token.entry ∷ [])) }
    ensures limit { result ≡ Err NameError.Limit
        → 64 < length (names_of names.old (plain token.entry ∷ [])) }
    ensures refused { OnErr result (names.new ≡ names.old) }
{
    match token {
        Token::Atom { name, .. } => {
            names.add(alloc, name)?;
            Ok(())
        }
        _ => Ok(()),
    }
}
