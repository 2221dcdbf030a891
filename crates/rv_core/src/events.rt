//! What a monitor does at an event.

ghost use Rattle.std.specs.Prelude.{◌≡◌, ◌↔◌, ◌+◌, ◌<◌, ◌≤◌, ◌^◌, ℕ, List, Some, None, sum, OnErr, IsTrue, length};
ghost use Rattle.hy_finite.specs.declared.event.Event.TheVariants as occurs;
ghost use Rattle.hy_finite.specs.Traces.{Trace as Letters};
ghost use Rattle.rv_core.specs.Held.{StandsFor};
ghost use Rattle.rv_core.specs.Histories.{History, BringsTrace};
ghost use Rattle.rv_core.specs.Opened.{letters_in};
ghost use Rattle.rv_core.specs.StepBounds.{AreBounds, Brings};

use crate::reply::Reply;
use crate::rv::Rv;
use crate::rv_error::RvError;
use crate::saved::Saved;
use hy_base::{Kind, Steps};
use hy_bits::LetterMask;
use hy_finite::{Event, Trace};
use std::alloc::Global;
use std::sync::ledger::Ledger;

/// The most saves.
const MOST_SAVES: usize = 64;

/// How many traces may have arrived where one more does.
const MOST_TRACES: u32 = 2_147_483_648;

impl Rv {
    ghost use Rattle.rv_core.specs.Replies.{Answers};
    ghost use Rattle.rv_core.specs.Seen.{held};

    /// Whether a trace arrives by an event: a whole one, or that of a session which is open. Then it
    /// is not refused but for want of memory. In constant time.
    pub fn brings_trace(&self, event: &Event) -> bool
        ensures brings { IsTrue result ↔ ((t : Letters) × Brings (held self.now) event.now t) }
        ensures leads { (h : History) → StandsFor (held self.now) h
            → IsTrue result ↔ BringsTrace h event.now }
    {
        match event {
            Event::Whole(_) => true,
            Event::End { session } => self.sessions.letters(*session).is_some(),
            Event::Letter { .. } | Event::Save | Event::Back => false,
        }
    }

    /// Takes the next event of a run.
    ///
    /// A whole trace arrives. A letter opens its session or goes last in it. An end closes its
    /// session, and its letters are a trace that arrives. A save puts aside the traces that have
    /// arrived and the open sessions, and a back brings those that were put aside last. A trace
    /// that arrives is judged for each spec up to the first that is violated, by the names alone that
    /// stand in its body: where an equal one is kept nothing comes of it; else its tuples with what
    /// is kept are walked, and it is kept too or, where dominated traces are dropped, compared with
    /// what is kept. With one variable it is judged by itself, and no more than one trace is kept.
    ///
    /// `NoLetter` where the session that ends is not open, `NoSave` where there is nothing put
    /// aside; `Limit` where a session has 1,024 letters already, 1,024 sessions are open, or 64
    /// saves are put aside. Where it is refused, for memory too, all is as before, what is kept too.
    /// A back takes no memory. After a violation the monitor takes no more events, and where 2^31
    /// traces have arrived none that brings another one.
    ///
    /// Where it brings a trace the steps grow at most by a bound for each spec, and by none for a
    /// spec that keeps an equal one; else they do not grow, also where the event is refused. The
    /// newest trace waits to be put with those that are kept until the next trace arrives or a save
    /// comes, which pay for it. Apart from that a whole trace that each spec keeps already takes no
    /// memory, and for each time linear in its letters, times the spec's names where it has others. A
    /// save takes time linear in the number of specs, and memory for them where there is more than
    /// one: it shares what is kept and the open sessions. So the first letter or end after it takes
    /// time and memory linear in the open sessions, the first letter of a session in its letters too,
    /// and any other letter constant time but for growth. A back frees what no save shares.
    pub fn event<L: Ledger>(
        &mut self,
        alloc: Global,
        event: &Event,
        steps: &mut Steps<L>,
    ) -> Result<Reply, RvError>
        requires clean { IsTrue (held self.old).clean }
        requires few { (t : Letters) → Brings (held self.old) event.now t
            → (held self.old).arrived < 2 ^ 31 }
        ensures answers { Answers (held self.old) (held self.new) event.now result }
        ensures dropping { (held self.new).drop ≡ (held self.old).drop }
        ensures refused { OnErr result (held self.new ≡ held self.old) }
        ensures counted { steps.old ≤ steps.new }
        ensures bounded { (t : Letters) (bounds : List ℕ) → Brings (held self.old) event.now t
            → AreBounds (held self.old) t bounds → steps.new ≤ steps.old + sum bounds }
        ensures none { ((t : Letters) → ¬ Brings (held self.old) event.now t)
            → steps.new ≡ steps.old }
    {
        match event {
            Event::Whole(trace) => self.take_whole(alloc, trace, steps),
            Event::Letter { session, letter } => self.take_letter(alloc, *session, *letter),
            Event::End { session } => self.take_end(alloc, *session, steps),
            Event::Save => self.take_save(alloc),
            Event::Back => self.take_back(),
        }
    }

    /// A trace arrives.
    fn take_whole<L: Ledger>(
        &mut self,
        alloc: Global,
        trace: &Trace,
        steps: &mut Steps<L>,
    ) -> Result<Reply, RvError>
        requires clean { IsTrue (held self.old).clean }
        requires few { (held self.old).arrived < 2 ^ 31 }
        ensures answers { Answers (held self.old) (held self.new) (occurs.Whole trace.now) result }
        ensures dropping { (held self.new).drop ≡ (held self.old).drop }
        ensures refused { OnErr result (held self.new ≡ held self.old) }
        ensures counted { steps.old ≤ steps.new }
        ensures bounded { (bounds : List ℕ) → AreBounds (held self.old) trace.now bounds
            → steps.new ≤ steps.old + sum bounds }
    {
        prove!(trace.len() > 0);
        if self.all_hold(trace.as_slice()) {
            return Ok(self.take_same());
        }
        self.kept.settle()?;
        let arrival = self.arrival(alloc, trace, steps)?;
        Ok(self.take_arrival(arrival))
    }

    /// A letter more of a session.
    fn take_letter(
        &mut self,
        alloc: Global,
        session: u32,
        letter: LetterMask,
    ) -> Result<Reply, RvError>
        requires clean { IsTrue (held self.old).clean }
        ensures answers { Answers (held self.old) (held self.new) (occurs.Letter session letter)
            result }
        ensures dropping { (held self.new).drop ≡ (held self.old).drop }
        ensures refused { OnErr result (held self.new ≡ held self.old) }
    {
        self.sessions.extend(alloc, session, letter)?;
        Ok(Reply::Quiet)
    }

    /// A session ends, and arrives as a trace.
    fn take_end<L: Ledger>(
        &mut self,
        alloc: Global,
        session: u32,
        steps: &mut Steps<L>,
    ) -> Result<Reply, RvError>
        requires clean { IsTrue (held self.old).clean }
        requires few { (t : Letters) → letters_in session (held self.old).sessions ≡ Some t
            → (held self.old).arrived < 2 ^ 31 }
        ensures answers { Answers (held self.old) (held self.new) (occurs.End session) result }
        ensures dropping { (held self.new).drop ≡ (held self.old).drop }
        ensures refused { OnErr result (held self.new ≡ held self.old) }
        ensures counted { steps.old ≤ steps.new }
        ensures bounded { (t : Letters) (bounds : List ℕ)
            → letters_in session (held self.old).sessions ≡ Some t
            → AreBounds (held self.old) t bounds → steps.new ≤ steps.old + sum bounds }
        ensures none { letters_in session (held self.old).sessions ≡ None
            → steps.new ≡ steps.old }
    {
        let Some(letters) = self.sessions.letters(session) else {
            return Err(RvError::NoLetter);
        };
        prove!(self.traces < MOST_TRACES);
        let trace = Trace::new(letters.copy(alloc)?).unwrap();
        if self.all_hold(trace.as_slice()) {
            self.sessions.close(session)?;
            return Ok(self.take_same());
        }
        self.kept.settle()?;
        let arrival = self.arrival(alloc, &trace, steps)?;
        self.sessions.close(session)?;
        Ok(self.take_arrival(arrival))
    }

    /// The present is put aside.
    fn take_save(&mut self, alloc: Global) -> Result<Reply, RvError>
        requires clean { IsTrue (held self.old).clean }
        ensures answers { Answers (held self.old) (held self.new) occurs.Save result }
        ensures dropping { (held self.new).drop ≡ (held self.old).drop }
        ensures refused { OnErr result (held self.new ≡ held self.old) }
    {
        if self.saves.len() >= MOST_SAVES {
            return Err(RvError::Limit(Kind::Saves));
        }
        self.kept.settle()?;
        let kept = self.kept.share(alloc)?;
        let sessions = self.sessions.share()?;
        self.saves.push(Saved {
            arrived: self.traces,
            kept,
            sessions,
        })?;
        Ok(Reply::Quiet)
    }

    /// What was put aside last comes back.
    fn take_back(&mut self) -> Result<Reply, RvError>
        requires clean { IsTrue (held self.old).clean }
        ensures answers { Answers (held self.old) (held self.new) occurs.Back result }
        ensures dropping { (held self.new).drop ≡ (held self.old).drop }
        ensures refused { OnErr result (held self.new ≡ held self.old) }
    {
        if self.saves.is_empty() {
            return Err(RvError::NoSave);
        }
        let Saved {
            arrived,
            kept,
            sessions,
        } = self.saves.pop().unwrap();
        self.traces = arrived;
        self.kept = kept;
        self.sessions = sessions;
        Ok(Reply::Quiet)
    }
}
