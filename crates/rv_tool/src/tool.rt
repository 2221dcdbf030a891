//! What `rvhyper` brings to a run.

use crate::monitoring::{monitor, monitor_made};
use crate::texts::text_of;
use crate::verdict::{Question, RvFault, RvVerdict};
use crate::words::order_of;
use hy_base::{M, Shelf, Sink, SinkFailed, Text, write_pieces};
use hy_formula::NameTable;
use hy_run::{Order, Refusal, Tool};
use itoa::Buffer;
use std::alloc::Global;

/// `rvhyper`: monitors the traces of a file, or made ones.
#[derive(Clone, Copy)]
pub struct RvHyper;

impl Tool for RvHyper {
    ghost use Rattle.rv_tool.specs.Rules.{rv_rules};

    type Question = Question;

    type Verdict = RvVerdict;

    type Fault = RvFault;

    ghost rules = { rv_rules };

    fn order_of<'a>(&self, alloc: Global, words: &'a [String]) -> M<Option<Order<'a, Question>>> {
        order_of(alloc, words)
    }

    fn answer<S: Shelf>(
        &self,
        alloc: Global,
        shelf: &mut S,
        order: &Order<'_, Question>,
        names: &mut NameTable,
    ) -> Result<RvVerdict, Refusal<RvFault>> {
        let specs = order.files.name(0);
        match order.question {
            Question::Monitor { lengths, drop } => {
                let traces = order.files.name(1);
                monitor(alloc, shelf, specs, traces, lengths, drop, names)
            }
            Question::MonitorMade {
                count,
                lengths,
                drop,
            } => monitor_made(alloc, shelf, specs, count, lengths, drop, names),
        }
    }

    fn text(
        &self,
        alloc: Global,
        question: Question,
        _names: &NameTable,
        verdict: &RvVerdict,
    ) -> M<Text> {
        text_of(alloc, question, verdict)
    }

    fn status(&self, verdict: &RvVerdict) -> u8 {
        match verdict {
            RvVerdict::NoViolation { .. } => 0,
            RvVerdict::Violation { .. } => 1,
        }
    }

    fn write_fault<E: Sink>(
        &self,
        fault: &RvFault,
        _files: &[&str],
        err: &mut E,
    ) -> Result<(), SinkFailed> {
        let RvFault::Session { line } = fault;
        let mut buffer = Buffer::new();
        write_pieces(
            err,
            &[b"error E10: line ", buffer.format(*line).as_bytes(), b"\n"],
        )
    }

    fn fault_status(&self, _fault: &RvFault) -> u8 {
        2
    }
}
