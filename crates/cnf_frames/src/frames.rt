//! The clauses of the frames of a path.

ghost use Rattle.std.specs.Prelude.{◌≡◌, suc, ◌*◌, ◌<◌, ◌≤◌, ◌++◌, length, OnOk};
ghost use Rattle.aig_net.specs.Nets.{variables};
ghost use Rattle.cnf_frames.specs.Queries.{constraint_clauses, frame_gates, frame_step, frames, gate_clauses, latch_clauses, start_clauses};
ghost use Rattle.chain_check.specs.FewClauses.{for_each};

use crate::writing::{add_alone, add_and, add_next, latch_number, number_of, opposite};
use aig_net::Net;
use chain_check::Cnf;
use hy_base::M;

/// Adds that an and is right in a frame.
fn add_gate(cnf: &mut Cnf, net: &Net, frame: u32, i: u32) -> M<()>
    requires room { suc frame * variables net.now ≤ cnf.old.variables }
    requires few { i < length net.now.ands }
    ensures variables { cnf.new.variables ≡ cnf.old.variables }
    ensures added { OnOk result (cnf.new.clauses ≡ cnf.old.clauses
        ++ gate_clauses net.now frame i) }
{
    net.variables(); // what each net keeps
    let first = 1 + net.inputs() + net.latches().len() as u32;
    let gate = *net.ands().at(i as usize);
    let l = number_of(net, frame, 2 * (first + i));
    let a = number_of(net, frame, gate.left);
    let b = number_of(net, frame, gate.right);
    add_and(cnf, l, a, b)
}

/// Adds that the constant is false and all ands are right in a frame.
#[tactic(auto, using(crate::proofs::Adding::loops))]
fn add_gates(cnf: &mut Cnf, net: &Net, frame: u32) -> M<()>
    requires room { suc frame * variables net.now ≤ cnf.old.variables }
    ensures variables { cnf.new.variables ≡ cnf.old.variables }
    ensures added { OnOk result (cnf.new.clauses ≡ cnf.old.clauses
        ++ frame_gates net.now frame) }
{
    net.variables(); // what each net keeps
    let constant = number_of(net, frame, 1);
    add_alone(cnf, constant)?;
    for i in 0..net.ands().len() as u32 {
        add_gate(cnf, net, frame, i)?;
    }
    Ok(())
}

/// Adds that a constraint is true in a frame.
fn add_constraint(cnf: &mut Cnf, net: &Net, frame: u32, i: usize) -> M<()>
    requires room { suc frame * variables net.now ≤ cnf.old.variables }
    requires few { i < length net.now.constraints }
    ensures variables { cnf.new.variables ≡ cnf.old.variables }
    ensures added { OnOk result (cnf.new.clauses ≡ cnf.old.clauses
        ++ constraint_clauses net.now frame i) }
{
    net.variables(); // what each net keeps
    let constraint = *net.constraints().at(i);
    add_alone(cnf, number_of(net, frame, constraint))
}

/// Adds that all constraints are true in a frame.
#[tactic(auto, using(crate::proofs::Adding::loops))]
fn add_constraints(cnf: &mut Cnf, net: &Net, frame: u32) -> M<()>
    requires { suc frame * variables net.now ≤ cnf.old.variables }
    ensures variables { cnf.new.variables ≡ cnf.old.variables }
    ensures added { OnOk result (cnf.new.clauses ≡ cnf.old.clauses
        ++ for_each (constraint_clauses net.now frame) (length net.now.constraints)) }
{
    for i in 0..net.constraints().len() {
        add_constraint(cnf, net, frame, i)?;
    }
    Ok(())
}

/// Adds that a latch has in the next frame what its next literal has in this one.
fn add_latch(cnf: &mut Cnf, net: &Net, frame: u32, i: u32) -> M<()>
    requires room { suc (suc frame) * variables net.now ≤ cnf.old.variables }
    requires few { i < length net.now.latches }
    ensures variables { cnf.new.variables ≡ cnf.old.variables }
    ensures added { OnOk result (cnf.new.clauses ≡ cnf.old.clauses
        ++ latch_clauses net.now frame i) }
{
    net.variables(); // what each net keeps
    let next = *net.latches().at(i as usize);
    let y = latch_number(net, frame + 1, i);
    let n = number_of(net, frame, next);
    add_next(cnf, y, n)
}

/// Adds what a frame says that a step leaves.
#[tactic(auto, using(crate::proofs::Adding::loops))]
fn add_step(cnf: &mut Cnf, net: &Net, frame: u32) -> M<()>
    requires { suc (suc frame) * variables net.now ≤ cnf.old.variables }
    ensures variables { cnf.new.variables ≡ cnf.old.variables }
    ensures added { OnOk result (cnf.new.clauses ≡ cnf.old.clauses ++ frame_step net.now frame) }
{
    net.variables(); // what each net keeps
    add_gates(cnf, net, frame)?;
    add_constraints(cnf, net, frame)?;
    for i in 0..net.latches().len() as u32 {
        add_latch(cnf, net, frame, i)?;
    }
    Ok(())
}

/// Adds the frames of a path of `k` steps.
#[tactic(auto, using(crate::proofs::Adding::loops))]
pub fn add_frames(cnf: &mut Cnf, net: &Net, k: u32) -> M<()>
    requires { suc k * variables net.now ≤ cnf.old.variables }
    ensures variables { cnf.new.variables ≡ cnf.old.variables }
    ensures added { OnOk result (cnf.new.clauses ≡ cnf.old.clauses ++ frames net.now k) }
{
    for frame in 0..k {
        add_step(cnf, net, frame)?;
    }
    add_gates(cnf, net, k)
}

/// Adds that all latches are false in frame 0.
#[tactic(auto, using(crate::proofs::Adding::loops))]
pub fn add_start(cnf: &mut Cnf, net: &Net) -> M<()>
    requires { variables net.now ≤ cnf.old.variables }
    ensures variables { cnf.new.variables ≡ cnf.old.variables }
    ensures added { OnOk result (cnf.new.clauses ≡ cnf.old.clauses ++ start_clauses net.now) }
{
    net.variables(); // what each net keeps
    for i in 0..net.latches().len() as u32 {
        let latch = latch_number(net, 0, i);
        add_alone(cnf, opposite(latch))?;
    }
    Ok(())
}
