//! What plans of formulas are, and what paths of their safe nets say.

ghost use Rattle.std.specs.Prelude.{◌≡◌, ◌↔◌, ℕ, ◌<◌, ◌≤◌, ◌^◌, List, length, IsTrue};
ghost use Rattle.hy_bits.specs.Letter.{Letter};
ghost use Rattle.hy_formula.specs.Lassos as letters;
ghost use Rattle.hy_lasso.specs.Words.{lasso_words};
ghost use Rattle.ltl_closure.specs.Jobs.{task_nodes};
ghost use Rattle.ea_reduce.specs.Fulfilled.{Fulfils, IsFulfillable};
ghost use Rattle.ea_reduce.specs.Plans.{PlainPlan, plan_tasks};
ghost use Rattle.ea_reduce.specs.Refused.{HasFewMaps};
ghost use Rattle.aig_net.specs.declared.run.Run.{Run};
ghost use Rattle.aig_net.specs.Executions.{Word};
ghost use Rattle.aig_net.specs.Nets.{variables};
ghost use Rattle.live_safe.specs.Paths.{IsBadPath};
ghost use Rattle.wit_lasso.specs.Unfoldings.{AreUnfolded};
ghost use Rattle.formula_nets.specs.Witnesses.{AreTraces};
ghost use Rattle.free_net.specs.FreeNets.{HasName, plan_inputs, plan_safe, plan_signals, plan_tableau};
ghost use Rattle.free_net.specs.Reduced.{IsOfFormulas, IsReduced};

use aig_net::one_execution;
use formula_nets::safe_nets_over_are_small;

/// What the plans of formulas are.
pub fn formulas_are_reduced()
    ensures { (plan : PlainPlan) → IsOfFormulas plan → IsReduced plan }
{}

/// There is room for the safe net of a plan of few lassos, maps and members.
pub fn plans_have_room()
    ensures { (plan : PlainPlan) → IsReduced plan → plan.vars < 2 ^ 8 → HasFewMaps plan
        → length (task_nodes (plan_tasks plan)) ≤ 1024
        → variables (plan_safe plan).net ≤ 2 ^ 31 }
{
    safe_nets_over_are_small();
}

/// Some path from the start reaches bad in the plan's safe net exactly where some tuple of lassos
/// fulfils the plan; and the visible traces of the runs of such a path do, with no other names than
/// those of the plan's closure.
pub fn paths_fulfil()
    ensures exactly { (plan : PlainPlan) → IsReduced plan → IsFulfillable plan
        ↔ ((k : ℕ) × (word : Word) × IsBadPath (plan_safe plan) k word) }
    ensures traces { (plan : PlainPlan) → IsReduced plan
        → (k : ℕ) (word : Word) (runs : List Run) (traces : List (letters.Lasso Letter))
        → IsBadPath (plan_safe plan) k word
        → AreUnfolded (plan_inputs plan) plan.vars (plan_tableau plan) k word runs
        → AreTraces (plan_inputs plan) (plan_signals plan) runs traces → Fulfils plan traces }
    ensures named { (plan : PlainPlan) (runs : List Run) (traces : List (letters.Lasso Letter))
        → AreTraces (plan_inputs plan) (plan_signals plan) runs traces → (name v i : ℕ)
        → IsTrue (lasso_words traces name v i)
        → HasName (task_nodes (plan_tasks plan)) name }
{
    one_execution();
}
