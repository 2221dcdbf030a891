//! By which engine the words ask to decide.

ghost use Rattle.std.specs.Prelude.{List, IfSome, IfNone};
ghost use Rattle.hy_words.specs.Found.{Tells};
ghost use Rattle.hy_words.specs.Words.{Item};
ghost use Rattle.ea_tool.specs.Words.{IsEngine, ea_syntax};

use crate::verdict::Engine;
use hy_words::{Found, number_in, number_or};
use mc_core::Ask;

/// The engine that the words ask for, if what was found says one.
pub fn engine_in(found: &Found<'_>) -> Option<Engine>
    ensures some { IfSome result (λ engine. (items : List Item) → Tells ea_syntax items found.now
        → IsEngine items engine) }
    ensures none { IfNone result ((items : List Item) (engine : Engine)
        → Tells ea_syntax items found.now → ¬ IsEngine items engine) }
{
    let calls = found.value("ic3");
    let depth = found.value("depth");
    let conflicts = found.value("conflicts");
    let states = found.value("states");
    match (calls, states, depth, conflicts) {
        (None, _, None, None) => Some(Engine::Branches {
            states: number_or(100_000, states, 1, 4_194_304)?,
        }),
        (Some(calls), None, _, _) => Some(Engine::Circuit {
            ask: Ask {
                calls: number_in(calls, 1, 1_000_000)?,
                depth: number_or(10, depth, 0, 100_000)?,
                conflicts: number_or(100_000, conflicts, 0, 1_000_000_000)?,
                plain: false,
            },
        }),
        _ => None,
    }
}
