//! Two runs of a monitor side by side, where each may differ from the other.

ghost use Rattle.std.specs.Prelude.{IfOk};
ghost use Rattle.dominance.specs.Runs.{IsPairing, IsInside, Differ, exchanged, IsLeft, IsLeftAt};
ghost use Rattle.dominance.specs.Seen.{AreEndsOf, pairing_of};

use crate::order::Order;
use crate::pairing::{Ends, Pairing};
use crate::reached::{Node, Reached};
use hy_base::{M, Memory, Steps};
use std::alloc::Global;
use std::sync::ledger::Ledger;

impl Pairing<'_> {
    /// What is left of the claims that the upper run never ends in a state that accepts where the
    /// lower one ends in one that does not, and the other way round. In time as `search`, up to
    /// where no claim is left.
    pub(crate) fn order<L: Ledger>(
        &self,
        alloc: Global,
        claimed: Order,
        steps: &mut Steps<L>,
    ) -> M<Order>
        requires { IsPairing (pairing_of self.now) }
        ensures over { IfOk result (λ order. IsLeft (pairing_of self.now)
            (Differ (pairing_of self.now)) claimed.over order.over) }
        ensures under { IfOk result (λ order. IsLeft (pairing_of self.now)
            (Differ (exchanged (pairing_of self.now))) claimed.under order.under) }
    {
        let mut reached = Reached::new(alloc, self.start())?;
        let mut ends = self.ends(alloc)?;
        let mut order = claimed;
        for k in 0..usize::MAX {
            if !order.over && !order.under {
                return Ok(order);
            }
            let Some(node) = reached.node(k) else {
                return Ok(order);
            };
            order = self.order_there(node, order, &mut ends, steps);
            self.follow(&mut reached, k, node, steps)?;
        }
        Err(Memory)
    }

    /// What is left of the claims, if the other places end at the node.
    fn order_there<L: Ledger>(
        &self,
        node: Node,
        claimed: Order,
        ends: &mut Ends,
        steps: &mut Steps<L>,
    ) -> Order
        requires pairing { IsPairing (pairing_of self.now) }
        requires node { IsInside (pairing_of self.now) node }
        requires ends { AreEndsOf (pairing_of self.now) ends.old }
        ensures ends { AreEndsOf (pairing_of self.now) ends.new }
        ensures over { IsLeftAt (pairing_of self.now) (Differ (pairing_of self.now)) node
            claimed.over result.over }
        ensures under { IsLeftAt (pairing_of self.now)
            (Differ (exchanged (pairing_of self.now))) node claimed.under result.under }
    {
        if !self.is_told(node.at) {
            return claimed;
        }
        let upper = self.at_end(self.upper, node.at, node.upper, &mut ends.upper, steps);
        let lower = self.at_end(self.lower, node.at, node.lower, &mut ends.lower, steps);
        let upper_accepts = self.monitor.accepts(upper);
        let lower_accepts = self.monitor.accepts(lower);
        Order {
            over: claimed.over && (!upper_accepts || lower_accepts),
            under: claimed.under && (!lower_accepts || upper_accepts),
        }
    }
}
