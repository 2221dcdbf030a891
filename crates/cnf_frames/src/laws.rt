//! What answers and refutations of queries say of the paths of a safe net.

ghost use Rattle.std.specs.Prelude.{◌≡◌, ℕ, suc, ◌+◌, ◌<◌, ◌≤◌, ◌^◌, ◌++◌, Bool, List, length};
ghost use Rattle.aig_net.specs.Nets.{IsNet, IsStart, Net, Valuation};
ghost use Rattle.aig_net.specs.Executions.{Word};
ghost use Rattle.chain_check.specs.Clauses.{AreClauses, SatisfiesAll};
ghost use Rattle.chain_check.specs.declared.logs.Learned.{Learned};
ghost use Rattle.live_safe.specs.Paths.{IsBadPath, IsPath};
ghost use Rattle.live_safe.specs.declared.safe_net.SafeNet.{SafeNet};
ghost use Rattle.cnf_frames.specs.declared.facts.Fact.{Fact};
ghost use Rattle.cnf_frames.specs.declared.queries.Asked.{Asked};
ghost use Rattle.cnf_frames.specs.declared.inductions.InductionProof.{InductionProof};
ghost use Rattle.cnf_frames.specs.Facts.{AllHold, AllIn, AreAmong, IsInductive, IsSafe};
ghost use Rattle.cnf_frames.specs.Queries.{clauses_of, variables_of};
ghost use Rattle.chain_check.specs.FewClauses.{literals_in};
ghost use Rattle.cnf_frames.specs.QueryPaths.{Answers, CanAsk, IsStepPath, word_of};
ghost use Rattle.cnf_frames.specs.Proofs.{AreKept, IsInductionProof, IsRefuted};

/// What makes all clauses of a query true is a path that answers it, and each such path is made by
/// some assignment.
pub fn queries_are_paths()
    ensures path { (safe : SafeNet) (asked : Asked) (values : List Bool) → IsSafe safe →
        SatisfiesAll values (clauses_of safe asked) → Answers safe asked (word_of safe values) }
    ensures assignment { (safe : SafeNet) (asked : Asked) (word : Word) → IsSafe safe →
        CanAsk safe asked → Answers safe asked word →
        (values : List Bool) × (length values ≡ variables_of safe asked)
        × SatisfiesAll values (clauses_of safe asked) }
    ensures literals { (safe : SafeNet) (asked : Asked) → IsSafe safe → CanAsk safe asked →
        AreClauses (variables_of safe asked) (clauses_of safe asked) }
{}

/// No path answers a query that a log refutes.
pub fn refuted_queries()
    ensures { (safe : SafeNet) (asked : Asked) (log : List Learned) → IsSafe safe →
        CanAsk safe asked → IsRefuted safe asked log → (word : Word) → ¬ Answers safe asked word }
{}

/// Under inductive facts, where no path from the start of at most k steps is bad and no k + 1
/// distinct good states with these facts lead to a bad one, no path from the start is bad.
pub fn induction()
    ensures { (safe : SafeNet) (facts : List Fact) (k : ℕ) → IsInductive safe.net facts →
        ((i : ℕ) → i ≤ k → (word : Word) → ¬ IsBadPath safe i word) →
        ((word : Word) → ¬ IsStepPath safe facts k word) →
        (n : ℕ) (word : Word) → ¬ IsBadPath safe n word }
{}

/// An induction proof shows that no path from the start is bad.
pub fn induction_proof()
    ensures { (safe : SafeNet) (proof : InductionProof) → IsSafe safe → IsInductionProof safe proof →
        (n : ℕ) (word : Word) → ¬ IsBadPath safe n word }
{}

/// Facts are inductive that are true at the start and that no group's query breaks, and so are two
/// inductive lists together.
pub fn inductive_facts()
    ensures kept { (safe : SafeNet) (facts : List Fact) (logs : List (List Learned)) → IsSafe safe →
        AllIn (length safe.net.latches) facts →
        ((v : Valuation) → IsStart safe.net v → AllHold safe.net facts v) →
        AreKept safe facts logs → IsInductive safe.net facts }
    ensures together { (net : Net) (some more : List Fact) → IsInductive net some →
        IsInductive net more → IsInductive net (some ++ more) }
{}

/// A step from a state with all facts breaks none of an inductive list among them.
pub fn facts_survive()
    ensures { (net : Net) (facts some : List Fact) → IsInductive net some → AreAmong some facts →
        (word : Word) → IsPath net 1 word → AllHold net facts (word 0) →
        AllHold net some (word 1) }
{}

/// A query that can be asked, of a net that has a latch, has no more clauses than literals.
pub fn clauses_are_few()
    ensures { (safe : SafeNet) (asked : Asked) → CanAsk safe asked → 0 < length safe.net.latches →
        length (clauses_of safe asked) ≤ literals_in (clauses_of safe asked) }
{}

/// So many distinct states a net has.
pub fn step_paths_are_short()
    ensures { (safe : SafeNet) (facts : List Fact) (k : ℕ) (word : Word) →
        IsStepPath safe facts k word → k < 2 ^ length safe.net.latches }
{}
