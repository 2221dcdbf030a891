//! What the checker brings to a run.

use crate::answer::{CertFault, CheckFault, CheckVerdict};
use crate::judging::{judge_circuit, judge_formula, judge_two};
use crate::texts::{text_of, write_certificate};
use crate::words::order_of;
use cert_text::Question;
use hy_base::{M, Shelf, Sink, SinkFailed, Text};
use hy_files::write_name;
use hy_formula::NameTable;
use hy_run::{Order, Tool};
use std::alloc::Global;

/// `hycheck`: judges certificates.
#[derive(Clone, Copy)]
pub struct HyCheck;

impl Tool for HyCheck {
    ghost use Rattle.hy_check.specs.Rules.{check_rules};

    type Question = Question;

    type Verdict = CheckVerdict;

    type Fault = CertFault;

    ghost rules = { check_rules };

    fn order_of<'a>(&self, _alloc: Global, words: &'a [String]) -> M<Option<Order<'a, Question>>> {
        Ok(order_of(words))
    }

    fn answer<S: Shelf>(
        &self,
        alloc: Global,
        shelf: &mut S,
        order: &Order<'_, Question>,
        names: &mut NameTable,
    ) -> Result<CheckVerdict, CheckFault> {
        let first = order.files.name(0);
        let second = order.files.name(1);
        let third = order.files.name(2);
        match order.question {
            Question::Formula => judge_formula(alloc, shelf, first, second, names),
            Question::Implication => {
                judge_two(alloc, shelf, false, (first, second), third, names)
            }
            Question::Equivalence => judge_two(alloc, shelf, true, (first, second), third, names),
            Question::Circuit => judge_circuit(alloc, shelf, first, second, third, names),
        }
    }

    fn text(
        &self,
        alloc: Global,
        _question: Question,
        _names: &NameTable,
        verdict: &CheckVerdict,
    ) -> M<Text> {
        let mut text = Text::new(alloc);
        text.extend(text_of(*verdict))?;
        Ok(text)
    }

    fn status(&self, verdict: &CheckVerdict) -> u8 {
        match verdict {
            CheckVerdict::Accepted => 0,
            CheckVerdict::Rejected => 1,
        }
    }

    fn write_fault<E: Sink>(
        &self,
        fault: &CertFault,
        files: &[&str],
        err: &mut E,
    ) -> Result<(), SinkFailed> {
        match fault {
            CertFault::Name { name, twice } => write_name(err, name.as_slice(), *twice),
            CertFault::Certificate { line } => write_certificate(err, files, *line),
        }
    }

    fn fault_status(&self, _fault: &CertFault) -> u8 {
        2
    }
}
