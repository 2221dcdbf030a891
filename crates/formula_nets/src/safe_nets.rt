//! The safe net of a closure over copies of a net, and that of a formula.

ghost use Rattle.std.specs.Prelude.{All, ◌≡◌, ◌+◌, ◌*◌, ◌/◌, ◌<◌, ◌≤◌, ◌^◌, IfOk};
ghost use Rattle.hy_formula.specs.Trees.{tree_of};
ghost use Rattle.aig_net.specs.Nets.{variables};
ghost use Rattle.ltl_closure.specs.Bodies.{body_closure};
ghost use Rattle.self_compose.specs.Copies.{copy_literal as literal_in_copy};
ghost use Rattle.cnf_frames.specs.Facts.{IsSafe};
ghost use Rattle.wit_lasso.specs.FormulaNets.{AreOwn, copy_signals as signals_of_copies, formula_net, formula_safe};
ghost use Rattle.formula_nets.specs.SafeNets as of_closure;

use aig_net::{Net, Signal, Signals};
use hy_base::M;
use hy_formula::Body;
use live_safe::{SafeNet, paths_are_lassos, to_safe};
use ltl_closure::Closure;
use self_compose::compose;
use std::alloc::Global;
use sym_tableau::attach;

/// `n` copies of a net with the oracles of a closure, whose variables are the copies. In time and
/// memory linear in the net and the closure.
pub fn net_over(alloc: Global, net: &Net, n: u8, closure: &Closure, signals: &Signals) -> M<Net>
    requires some { 0 < n }
    requires own { AreOwn net.now signals.now }
    requires room { variables (of_closure.net_over net.now signals.now n closure.now) ≤ 2 ^ 31 }
    ensures { IfOk result (λ made.
        made ≡ of_closure.net_over net.now signals.now n closure.now) }
{
    net.variables(); // what each net keeps
    let copies = compose(alloc, net, n)?;
    let own = copy_signals(alloc, signals, n)?;
    attach(alloc, &copies, closure, &own)
}

/// The safe net of these. In time and memory linear in the net and the closure.
pub fn safe_over(
    alloc: Global,
    net: &Net,
    n: u8,
    closure: &Closure,
    signals: &Signals,
) -> M<SafeNet>
    requires some { 0 < n }
    requires own { AreOwn net.now signals.now }
    requires room { variables (of_closure.safe_over net.now signals.now n closure.now).net
        ≤ 2 ^ 31 }
    ensures made { IfOk result (λ made.
        made ≡ of_closure.safe_over net.now signals.now n closure.now) }
    ensures safe { IfOk result IsSafe }
{
    net.variables(); // what each net keeps
    closure.len(); // and each closure
    paths_are_lassos(); // and each safe net
    let whole = net_over(alloc, net, n, closure, signals)?;
    to_safe(alloc, &whole)
}

/// The copies of a net with the oracles of a formula of `n` variables, whose closure and signals
/// these are. In time and memory linear in the net and the closure.
pub fn net_for(
    alloc: Global,
    net: &Net,
    n: u8,
    body: &Body,
    positive: bool,
    closure: &Closure,
    signals: &Signals,
) -> M<Net>
    requires some { 0 < n }
    requires closure { closure.now ≡ body_closure (tree_of body.now) positive }
    requires own { AreOwn net.now signals.now }
    requires room { variables (formula_net net.now signals.now n (tree_of body.now) positive)
        ≤ 2 ^ 31 }
    ensures { IfOk result (λ made.
        made ≡ formula_net net.now signals.now n (tree_of body.now) positive) }
{
    net_over(alloc, net, n, closure, signals)
}

/// The safe net of a formula of `n` variables, whose closure and signals these are. In time and
/// memory linear in the net and the closure.
pub fn safe_for(
    alloc: Global,
    net: &Net,
    n: u8,
    body: &Body,
    positive: bool,
    closure: &Closure,
    signals: &Signals,
) -> M<SafeNet>
    requires some { 0 < n }
    requires closure { closure.now ≡ body_closure (tree_of body.now) positive }
    requires own { AreOwn net.now signals.now }
    requires room { variables (formula_safe net.now signals.now n (tree_of body.now) positive).net
        ≤ 2 ^ 31 }
    ensures made { IfOk result (λ made.
        made ≡ formula_safe net.now signals.now n (tree_of body.now) positive) }
    ensures safe { IfOk result IsSafe }
{
    safe_over(alloc, net, n, closure, signals)
}

/// The signals of the copies: each of them in each copy.
#[tactic(auto, using(aig_net::proofs::Copying::one_copy, crate::proofs::Copied::copy_new, wit_lasso::proofs::Letters::small_name))]
fn copy_signals(alloc: Global, signals: &Signals, n: u8) -> M<Signals>
    requires own { All (λ s. s.var ≡ 0) signals.now }
    requires small { All (λ s. s.literal / 2 * n < 2 ^ 31) signals.now }
    ensures { IfOk result (λ made. made ≡ signals_of_copies n signals.now) }
{
    let mut made = Signals::new(alloc);
    for i in 0..signals.len() {
        let signal = *signals.at(i);
        for c in 0..n {
            made.push(Signal {
                name: signal.name,
                var: c,
                literal: copy_literal(signal.literal, u32::from(n), u32::from(c)),
            })?;
        }
    }
    Ok(made)
}

/// The literal in copy `c` of `n`.
fn copy_literal(literal: u32, n: u32, c: u32) -> u32
    requires few { c < n }
    requires room { literal / 2 * n < 2 ^ 31 }
    ensures { result ≡ literal_in_copy n c literal }
{
    let variable = literal / 2;
    if variable == 0 {
        literal
    } else {
        2 * ((variable - 1) * n + c + 1) + literal % 2
    }
}
