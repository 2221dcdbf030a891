//! What `eahyper` brings to a run.

use crate::deciding::decide;
use crate::finding::find;
use crate::judging::judge;
use crate::relating::relate;
use crate::texts::{shows_proof, status_of, verdict_text};
use crate::verdict::{EaFault, EaVerdict, Question};
use crate::words::order_of;
use hy_base::{M, Shelf, Sink, SinkFailed, Text, write_pieces};
use hy_formula::NameTable;
use hy_run::{Order, Refusal, Tool};
use itoa::Buffer;
use std::alloc::Global;

/// `eahyper`: decides formulas, finds lassos for them, and checks them on given lassos.
#[derive(Clone, Copy)]
pub struct EaHyper;

impl Tool for EaHyper {
    ghost use Rattle.ea_tool.specs.Rules.{ea_rules};

    type Question = Question;

    type Verdict = EaVerdict;

    type Fault = EaFault;

    ghost rules = { ea_rules };

    fn order_of<'a>(&self, alloc: Global, words: &'a [String]) -> M<Option<Order<'a, Question>>> {
        order_of(alloc, words)
    }

    fn answer<S: Shelf>(
        &self,
        alloc: Global,
        shelf: &mut S,
        order: &Order<'_, Question>,
        names: &mut NameTable,
    ) -> Result<EaVerdict, Refusal<EaFault>> {
        let first = order.files.name(0);
        let second = order.files.name(1);
        match order.question {
            Question::Judge => judge(alloc, shelf, first, second, names),
            Question::Decide { engine, .. } => decide(alloc, shelf, first, engine, names),
            Question::Relate {
                relation,
                engine,
                ..
            } => { relate(alloc, shelf, relation, (first, second), engine, names) }
            Question::Find { bound, conflicts } => {
                find(alloc, shelf, first, bound, conflicts, names)
            }
        }
    }

    fn text(
        &self,
        alloc: Global,
        question: Question,
        names: &NameTable,
        verdict: &EaVerdict,
    ) -> M<Text> {
        verdict_text(alloc, shows_proof(question), names, verdict)
    }

    fn status(&self, verdict: &EaVerdict) -> u8 {
        status_of(verdict)
    }

    fn write_fault<E: Sink>(
        &self,
        fault: &EaFault,
        _files: &[&str],
        err: &mut E,
    ) -> Result<(), SinkFailed> {
        let EaFault::States { n } = fault;
        let mut buffer = Buffer::new();
        write_pieces(
            err,
            &[b"error E13: states ", buffer.format(*n).as_bytes(), b"\n"],
        )
    }

    fn fault_status(&self, _fault: &EaFault) -> u8 {
        5
    }
}
