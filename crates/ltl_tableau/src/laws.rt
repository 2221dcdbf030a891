//! Laws of branches: walks stand for words, and ranks rule walks out.

ghost use Rattle.std.specs.Prelude.{◌≡◌, ℕ, ◌<◌, ◌≤◌, List, length, IsSome};
ghost use Rattle.std.specs.List.{Contains};
ghost use Rattle.hy_bits.specs.Letter.{Letter};
ghost use Rattle.hy_formula.specs.Temporal.{Words, endless, IsDecided, Repeats};
ghost use Rattle.hy_formula.specs.Normals.{Normal, HoldsAt};
ghost use Rattle.hy_formula.specs.Lassos.{Lasso};
ghost use Rattle.hy_lasso.specs.Words.{AreLassos, lasso_words};
ghost use Rattle.rank_check.specs.Graphs as graphs;
ghost use Rattle.rank_check.specs.Graphs.{Shape, IsWhole};
ghost use Rattle.rank_check.specs.Ranking.{rank_of, IsRanked};
ghost use Rattle.rank_check.specs.declared.ranks.Ranks.{Ranks};
ghost use Rattle.ltl_closure.specs.Nodes.{Node, Numbers, PartsBelow, node_at};
ghost use Rattle.ltl_closure.specs.Jobs.{Task, AreMappedBelow, AllHold, task_nodes};
ghost use Rattle.ltl_tableau.specs.Branches.{Members, Has, Branch, IsBranch, IsRun, IsFair, branches};
ghost use Rattle.ltl_tableau.specs.GraphWalks.{walk_of, HasRanks};
ghost use Rattle.ltl_tableau.specs.Ranks.{RankProof, IsRankProof};
ghost use Rattle.ltl_tableau.specs.Reached.{IsTableau};
ghost use Rattle.ltl_tableau.specs.Tasks.{root_set};
ghost use Rattle.ltl_tableau.specs.Walks.{IsWalk, IsAccepting};
ghost use Rattle.ltl_tableau.specs.WalkWords.{VariablesBelow, lassos_of};

/// Words on which the roots hold have a fair run of branches.
pub fn fair_run()
    ensures { (nodes : List Node) (form : ℕ → Normal) (words : Words) (roots : Members)
        → IsDecided endless words → Numbers nodes form
        → ((k : ℕ) → Has roots k → HoldsAt endless words (form k) 0 × (k < length nodes))
        → (run : ℕ → Branch) × IsRun nodes roots run × IsFair nodes run }
{}

/// Under a rank proof no run is fair.
pub fn refuted()
    ensures { (nodes : List Node) (roots : Members) (proof : RankProof)
        → IsRankProof nodes roots proof → (run : ℕ → Branch) → IsRun nodes roots run
        → ¬ IsFair nodes run }
{}

/// Words that repeat and on which the roots hold have an accepting walk.
pub fn accepting_walk()
    ensures { (nodes : List Node) (form : ℕ → Normal) (words : Words) (s c : ℕ) (roots : Members)
        → Repeats words s c → Numbers nodes form
        → ((k : ℕ) → Has roots k → HoldsAt endless words (form k) 0 × (k < length nodes))
        → (walk : Lasso Branch) × IsWalk nodes roots walk × IsAccepting nodes walk }
{}

/// On the lassos of letters of an accepting walk the roots hold.
pub fn sound_walk()
    ensures { (nodes : List Node) (form : ℕ → Normal) (n : ℕ)
        → Numbers nodes form → VariablesBelow n nodes
        → (roots : Members) (walk : Lasso Branch)
        → IsWalk nodes roots walk → IsAccepting nodes walk
        → (k : ℕ) → k < length nodes → Has roots k
        → HoldsAt endless (lasso_words (lassos_of nodes walk n)) (form k) 0 }
{}

/// Some tuple of lassos satisfies all tasks exactly where there is an accepting walk of their
/// branches, and none does under a rank proof.
pub fn together()
    ensures walk { (tasks : List Task) (tuple : List (Lasso Letter)) → AreLassos tuple
        → AllHold endless (lasso_words tuple) tasks
        → (walk : Lasso Branch) × IsWalk (task_nodes tasks) (root_set tasks) walk
        × IsAccepting (task_nodes tasks) walk }
    ensures tuple { (tasks : List Task) (n : ℕ) → AreMappedBelow n tasks → (walk : Lasso Branch)
        → IsWalk (task_nodes tasks) (root_set tasks) walk → IsAccepting (task_nodes tasks) walk
        → AllHold endless (lasso_words (lassos_of (task_nodes tasks) walk n)) tasks }
    ensures never { (tasks : List Task) (proof : RankProof)
        → IsRankProof (task_nodes tasks) (root_set tasks) proof
        → (words : Words) → IsDecided endless words → ¬ AllHold endless words tasks }
{}

/// A fair walk of the graph of a tableau is an accepting walk of its branches, and each accepting
/// walk is one. Ranks of the graph that pass give each branch a rank, and are a rank proof.
pub fn graph_walks()
    ensures accepting { (nodes : List Node) (roots : Members) (list : List Branch) (graph : Shape)
        → IsTableau nodes roots list graph → (stem cycle : List ℕ)
        → graphs.IsWalk graph stem cycle → graphs.IsFair graph cycle
        → IsWalk nodes roots (walk_of list stem cycle)
        × IsAccepting nodes (walk_of list stem cycle) }
    ensures fair { (nodes : List Node) (roots : Members) (list : List Branch) (graph : Shape)
        → IsTableau nodes roots list graph → IsWhole graph → (walk : Lasso Branch)
        → IsWalk nodes roots walk → IsAccepting nodes walk
        → (stem : List ℕ) × (cycle : List ℕ) × (walk_of list stem cycle ≡ walk)
        × graphs.IsWalk graph stem cycle × graphs.IsFair graph cycle }
    ensures ranked { (nodes : List Node) (roots : Members) (list : List Branch) (graph : Shape)
        → IsTableau nodes roots list graph → IsWhole graph → (ranks : Ranks)
        → IsRanked graph ranks → (v : ℕ) → v < length list → IsSome (rank_of ranks v) }
    ensures proof { (nodes : List Node) (roots : Members) (list : List Branch) (graph : Shape)
        → IsTableau nodes roots list graph → IsWhole graph → (ranks : Ranks)
        → IsRanked graph ranks → ((k : ℕ) → k < length nodes → PartsBelow k (node_at nodes k))
        → (proof : RankProof) → HasRanks nodes list ranks proof
        → IsRankProof nodes roots proof }
{}

/// A set has no more branches than a list in which all of them are.
pub fn few_branches()
    ensures { (nodes : List Node) (set : Members) (list : List Branch)
        → ((b : Branch) → IsBranch nodes set b → Contains list b)
        → length (branches nodes set) ≤ length list }
{}
