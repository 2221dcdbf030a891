//! What a rank proof says.

ghost use Rattle.std.specs.Prelude.{◌≡◌, ◌↔◌, All, List, length};
ghost use Rattle.std.specs.List.{Contains};
ghost use Rattle.std.specs.Option.{ForSome};
ghost use Rattle.hy_formula.specs.Lassos.{Lasso};
ghost use Rattle.ltl_closure.specs.Nodes.{Node};
ghost use Rattle.ltl_tableau.specs.Branches.{Members, Branch};
ghost use Rattle.ltl_tableau.specs.Ranks.{Ranked, RankProof, IsUntilNode, IsRankProof};
ghost use Rattle.ltl_tableau.specs.Walks.{IsWalk, IsAccepting};
ghost use Rattle.ea_reduce.specs.Plans.{PlainPlan};
ghost use Rattle.ea_reduce.specs.Fulfilled.{IsFulfillable};
ghost use Rattle.rank_proofs.specs.Proofs.{plan_nodes, plan_roots};
ghost use Rattle.rank_proofs.specs.Edges.{ArePlaced};
ghost use Rattle.rank_proofs.specs.Readings.{MayBeEntry};

/// Under a rank proof no walk is accepting, so that no lassos fulfil the plan.
pub fn refuting()
    ensures walks { (nodes : List Node) (roots : Members) (proof : RankProof)
        → IsRankProof nodes roots proof → (walk : Lasso Branch) → IsWalk nodes roots walk
        → ¬ IsAccepting nodes walk }
    ensures plans { (plan : PlainPlan) (proof : RankProof)
        → IsRankProof (plan_nodes plan) (plan_roots plan) proof → ¬ IsFulfillable plan }
{}

/// What is asked of a rank proof is asked of its reasons, and of its entries one by one.
pub fn by_entries()
    ensures { (nodes : List Node) (roots : Members) (proof : RankProof)
        → IsRankProof nodes roots proof ↔ (All (λ reason. ForSome reason (IsUntilNode nodes))
        proof.reasons × ArePlaced nodes roots proof) }
{}

/// Each entry of a rank proof has numbers of members, and a rank that has a reason. So an entry
/// that is not read is one of no rank proof.
pub fn readable()
    ensures { (nodes : List Node) (roots : Members) (proof : RankProof)
        → IsRankProof nodes roots proof
        → All (MayBeEntry nodes (length proof.reasons)) proof.entries }
{}

/// Neither the order of the entries nor how often each is there is asked of a rank proof.
pub fn same_entries()
    ensures { (nodes : List Node) (roots : Members) (p q : RankProof) → p.reasons ≡ q.reasons
        → ((e : Ranked) → Contains p.entries e ↔ Contains q.entries e)
        → IsRankProof nodes roots p → IsRankProof nodes roots q }
{}
