//! The signals of the names of a formula.

ghost use Rattle.std.specs.Prelude.{IfErr, IfOk};
ghost use Rattle.hy_formula.specs.Trees.{tree_of};
ghost use Rattle.net_names.specs.Names.{AreSignals, IsNameRefusal};

use crate::meaning::{Meaning, meaning_of};
use crate::name_error::NameError;
use aig_net::{Net, Signal, Signals};
use hy_formula::{Body, NameTable, names_of};
use std::alloc::Global;

/// The signals of the names of a body, those of variable 0, in the order of the names' numbers. In
/// time linear in the names of the net, for each name of the body.
///
/// # Errors
///
/// As `NameError` says.
#[tactic(auto, using(crate::proofs::SignalTables::fresh_name, crate::proofs::SignalTables::first_none, crate::proofs::SignalTables::first_several, crate::proofs::SignalTables::literal_only))]
pub fn signals_of(
    alloc: Global,
    net: &Net,
    body: &Body,
    names: &NameTable,
) -> Result<Signals, NameError>
    ensures signals { IfOk result (AreSignals net.now names.now (tree_of body.now)) }
    ensures refused { IfErr result (IsNameRefusal net.now names.now (tree_of body.now)) }
{
    let used = names_of(body);
    used.names_below(); // each below 64
    let mut signals = Signals::new(alloc);
    for k in 0..64u8 {
        if used.has(usize::from(k)) {
            let literal = match meaning_of(net, names.text(k)) {
                Meaning::Literal(literal) => literal,
                Meaning::Nothing => {
                    return Err(NameError::Bad {
                        name: k,
                        twice: false,
                    });
                }
                Meaning::Several => {
                    return Err(NameError::Bad {
                        name: k,
                        twice: true,
                    });
                }
            };
            signals.push(Signal {
                name: k,
                var: 0,
                literal,
            })?;
        }
    }
    signals.len(); // what signals keep
    Ok(signals)
}
