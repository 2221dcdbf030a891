//! The first pass over a text: each token is scanned once, none is kept. It settles the syntax, looks
//! for an unbound atom, and counts what can be counted without building.

ghost use Rattle.std.specs.Prelude.{◌<◌, ◌^◌, ℕ, List, length};
ghost use Rattle.hy_read.specs.Surveys.{IsSurveyed};

use crate::counts::Counts;
use crate::error::ReadError;
use crate::scan::next_token;
use crate::scope::Scope;
use crate::table::{Stage, may_end, next_stage};
use std::alloc::Global;

/// The counts of a text; `many`: whether several formulas may stand in it. In time linear in the
/// text times the quantifiers of a formula; the memory of the variables of one formula.
///
/// Syntax and Unbound: where no text of the grammar goes on so, and else where an atom is unbound.
pub fn survey(alloc: Global, text: &[u8], many: bool) -> Result<Counts, ReadError>
    requires { length text.now < 2 ^ 32 }
    ensures { (limit : ℕ) (old : List (List ℕ)) → IsSurveyed many limit old text.now result }
{
    let mut scope = Scope::new(alloc);
    let mut counts = Counts::new();
    let mut stage = Stage::Start;
    let mut tokens = 0;
    let mut at = 0;
    while let Some(next) = next_token(text, at) {
        let kind = next.token.kind();
        let Some(after) = next_stage(many, stage, counts.parens, kind) else {
            return Err(ReadError::Syntax {
                token: tokens,
                byte: next.first as u32,
            });
        };
        scope.pass(next)?;
        counts = counts.behind(kind);
        stage = after;
        tokens += 1;
        at = next.behind;
    }
    if !may_end(stage, counts.parens) {
        return Err(ReadError::Syntax {
            token: tokens,
            byte: text.len() as u32,
        });
    }
    match scope.unbound {
        Some(byte) => Err(ReadError::Unbound { byte }),
        None => Ok(counts),
    }
}
