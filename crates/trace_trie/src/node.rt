//! Nodes, and nodes with a trace more or less: only those of its path are built.

ghost use Rattle.std.specs.Prelude.{◌≡◌, ℕ, ◌<◌, ◌≤◌, List, [], ◌∷◌, ◌++◌, length, drop, IfOk, OnOk, OnErr};
ghost use Rattle.hy_formula.specs.Quantifiers.{Each};
ghost use Rattle.trace_trie.specs.Numbered.{Numbered, in_order, without_number};
ghost use Rattle.trace_trie.specs.Newests.{waiting, IsLast};
ghost use Rattle.trace_trie.specs.Kids.{IsMore};
ghost use Rattle.trace_trie.specs.Forests.{passing};
ghost use Rattle.trace_trie.specs.Grown.{left_in};

use crate::forest::Forest;
use crate::grown::Grown;
use crate::newest::Newest;
use crate::numbers::Numbers;
use hy_base::M;
use hy_finite::Trace;
use std::alloc::Global;
use std::rc::Rc;

/// A node: the numbers of the traces that end there, and its children.
#[derive(Drop)]
pub(crate) struct Node {
    pub(crate) ends: Numbers,
    pub(crate) children: Forest,
}

impl Node {
    /// A node that no trace passes.
    pub(crate) fn new() -> Node
        ensures { passing result.ends result.children ≡ [] }
    {
        Node {
            ends: Numbers::new(),
            children: Forest::new(),
        }
    }

    /// An equal node that shares what is below it, in constant time but for a bucket of its ends.
    pub(crate) fn share(&self) -> M<Node>
        ensures { IfOk result (λ made. passing made.ends made.children
            ≡ passing self.now.ends self.now.children) }
    {
        let ends = self.ends.share()?;
        let children = self.children.share()?;
        Ok(Node { ends, children })
    }

    /// A node as it stands behind a letter. As `share`.
    pub(crate) fn behind(grown: Grown<'_>) -> M<Node>
        ensures { IfOk result (λ node. passing node.ends node.children ≡ left_in grown.entry) }
    {
        match grown {
            Grown::Node(ends, children) => Ok(Node {
                ends: ends.share()?,
                children: children.share()?,
            }),
            Grown::Tail(number, trace, at) => Ok(Node::alone(number, trace.clone()?, at)),
        }
    }

    /// Puts in a trace more, whose number is above all. In time and memory as `Forest::plant`.
    /// Refused it changes nothing.
    pub(crate) fn plant(&mut self, alloc: Global, number: u32, trace: &Rc<Trace>) -> M<()>
        requires above { Each (λ (p : Numbered). p.0 < number)
            (passing self.old.ends self.old.children) }
        requires some { 0 < length trace.now.value }
        ensures planted { OnOk result (in_order (passing self.new.ends self.new.children)
            ≡ in_order (passing self.old.ends self.old.children) ++ (number, trace.now.value) ∷ []) }
        ensures unchanged { OnErr result (self.new ≡ self.old) }
    {
        self.children.plant(alloc, number, trace, 0)
    }

    /// Puts in the trace that waits, if there is one. As `plant`.
    pub(crate) fn take_in(&mut self, alloc: Global, newest: &Option<Newest>) -> M<()>
        requires { IsLast newest.now (in_order (passing self.old.ends self.old.children)) }
        ensures taken { OnOk result (in_order (passing self.new.ends self.new.children)
            ≡ in_order (passing self.old.ends self.old.children) ++ waiting newest.now) }
        ensures unchanged { OnErr result (self.new ≡ self.old) }
    {
        match newest {
            None => Ok(()),
            Some(newest) => {
                newest.trace.len();
                self.plant(alloc, newest.number, &newest.trace)
            }
        }
    }

    /// A node that one trace alone passes, from a place on.
    fn alone(number: u32, trace: Rc<Trace>, at: usize) -> Node
        ensures { passing result.ends result.children ≡ (number, drop at trace.value) ∷ [] }
    {
        if at < trace.len() {
            Node {
                ends: Numbers::new(),
                children: Forest::tail(number, trace, at),
            }
        } else {
            Node {
                ends: Numbers::one(number, trace),
                children: Forest::new(),
            }
        }
    }
}

/// A node with one trace less, of which this is left from place `at` on. In time and memory
/// linear in how much of it another trace has too; the other nodes are shared.
pub(crate) fn uprooted(alloc: Global, node: Node, number: u32, trace: &Trace, at: usize) -> M<Node>
    requires within { at ≤ length trace.now }
    requires only { Each (λ (p : Numbered). p.0 ≡ number → p.1 ≡ drop at trace.now)
        (passing node.ends node.children) }
    ensures { IfOk result (λ made. passing made.ends made.children
        ≡ without_number number (passing node.ends node.children)) }
{
    let Node { ends, children } = node;
    if at == trace.len() {
        let ends = ends.without(alloc, number)?;
        return Ok(Node { ends, children });
    }
    let letter = trace.at(at);
    match children.get_other(letter, number) {
        None => {
            let children = children.without(alloc, letter)?;
            Ok(Node { ends, children })
        }
        Some(grown) => {
            let below = uprooted(alloc, Node::behind(grown)?, number, trace, at + 1)?;
            let children = children.swap(alloc, letter, below.ends, below.children)?;
            Ok(Node { ends, children })
        }
    }
}
