//! What `mchyper` brings to a run.

use crate::check::check;
use crate::strategy::check_by_strategy;
use crate::texts::{
    checked_status, checked_text, line_text, shows_proof, with_lassos, write_shape,
};
use crate::verdict::{McFault, McVerdict, Question};
use crate::words::order_of;
use circuit_files::circuit_in;
use hy_base::{M, Shelf, Sink, SinkFailed, Text};
use hy_files::{formula_in, name_of_file, write_limit, write_name};
use hy_formula::NameTable;
use hy_run::{Order, Refusal, Tool, file_refusal};
use std::alloc::Global;

/// Most quantifiers of a formula.
const MOST_QUANTIFIERS: u8 = 4;

/// `mchyper`: checks formulas on the executions of a circuit.
#[derive(Clone, Copy)]
pub struct McHyper;

impl Tool for McHyper {
    ghost use Rattle.mc_tool.specs.Rules.{mc_rules};

    type Question = Question;

    type Verdict = McVerdict;

    type Fault = McFault;

    ghost rules = { mc_rules };

    fn order_of<'a>(&self, alloc: Global, words: &'a [String]) -> M<Option<Order<'a, Question>>> {
        order_of(alloc, words)
    }

    fn answer<S: Shelf>(
        &self,
        alloc: Global,
        shelf: &mut S,
        order: &Order<'_, Question>,
        names: &mut NameTable,
    ) -> Result<McVerdict, Refusal<McFault>> {
        let files = &order.files;
        let net = match circuit_in(alloc, shelf, files.name(0)) {
            Ok(net) => net,
            Err(fault) => return Err(file_refusal(0, fault)),
        };
        let formula = match formula_in(alloc, shelf, files.name(1), MOST_QUANTIFIERS, names) {
            Ok(formula) => formula,
            Err(fault) => return Err(file_refusal(1, fault)),
        };
        match order.question {
            Question::Check { ask, .. } => check(alloc, &net, &formula, names, &ask),
            Question::CheckByStrategy { ask } => match circuit_in(alloc, shelf, files.name(2)) {
                Ok(strategy) => check_by_strategy(alloc, &net, &strategy, &formula, names, &ask),
                Err(fault) => Err(file_refusal(2, fault)),
            },
        }
    }

    fn text(
        &self,
        alloc: Global,
        question: Question,
        names: &NameTable,
        verdict: &McVerdict,
    ) -> M<Text> {
        match verdict {
            McVerdict::Checked(checked) => {
                checked_text(alloc, shows_proof(question), names, checked)
            }
            McVerdict::StrategyHolds => line_text(alloc, b"holds with strategy\n"),
            McVerdict::StrategyFails { traces, .. } => {
                with_lassos(alloc, b"strategy fails\n", traces, names)
            }
        }
    }

    fn status(&self, verdict: &McVerdict) -> u8 {
        match verdict {
            McVerdict::Checked(checked) => checked_status(checked),
            McVerdict::StrategyHolds => 0,
            McVerdict::StrategyFails { .. } => 1,
        }
    }

    fn write_fault<E: Sink>(
        &self,
        fault: &McFault,
        files: &[&str],
        err: &mut E,
    ) -> Result<(), SinkFailed> {
        match fault {
            McFault::Name { name, twice } => write_name(err, name.as_slice(), *twice),
            McFault::Strategy { inputs, outputs } => {
                write_shape(err, name_of_file(files, 2), *inputs, *outputs)
            }
            McFault::CnfLimit { kind, limit, .. } => write_limit(err, *kind, *limit),
        }
    }

    fn fault_status(&self, fault: &McFault) -> u8 {
        match fault {
            McFault::Name { .. } | McFault::Strategy { .. } => 2,
            McFault::CnfLimit { .. } => 5,
        }
    }
}
