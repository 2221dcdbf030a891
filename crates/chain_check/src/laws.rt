//! What a log that passes says, and how long a log of new clauses is at most.

ghost use Rattle.std.specs.Prelude.{ℕ, ◌<◌, ◌≤◌, ◌^◌, ◌++◌, Bool, List, [], Contains, length};
ghost use Rattle.chain_check.specs.declared.logs.Learned.{Learned};
ghost use Rattle.chain_check.specs.Clauses.{Clause, AreClauses, SatisfiesAll};
ghost use Rattle.chain_check.specs.Logs.{IsPassed, AreNew, clauses_of};
ghost use Rattle.chain_check.specs.Rows.{AreRows, IsWithoutRepeats};

/// What makes the given clauses true makes those of a passed log true.
pub fn passed_clauses()
    ensures { (variables : ℕ) (given : List Clause) (log : List Learned) (values : List Bool) →
        AreClauses variables given → IsPassed variables given log → SatisfiesAll values given →
        SatisfiesAll values (given ++ clauses_of log) }
{}

/// With an empty clause in a passed log, nothing makes the given clauses true.
pub fn refuted()
    ensures { (variables : ℕ) (given : List Clause) (log : List Learned) (values : List Bool) →
        AreClauses variables given → IsPassed variables given log → Contains (clauses_of log) [] →
        ¬ SatisfiesAll values given }
{}

/// There are at most b to the power n rows of n values below b.
pub fn counted()
    ensures { (n b : ℕ) (rows : List (List ℕ)) → AreRows n b rows → IsWithoutRepeats rows →
        length rows ≤ b ^ n }
{}

/// A passed log of new clauses has fewer than 3 to the power of the variables.
pub fn new_clauses()
    ensures { (variables : ℕ) (given : List Clause) (log : List Learned) →
        IsPassed variables given log → AreNew given log → length log < 3 ^ variables }
{}
