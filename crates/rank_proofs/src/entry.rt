//! Rank proofs whose sets are rows.

ghost use Rattle.std.specs.Prelude.{◌≡◌, ◌↔◌, ◌≤◌, ◌⊎◌, ◌++◌, ◌∷◌, [], OnOk};
ghost use Rattle.std.specs.List.{Contains};
ghost use Rattle.ltl_tableau.specs.Ranks.{Ranked};

use hy_base::{List, M};
use indexmap::IndexSet;
use ltl_tableau::Branch;
use std::alloc::Global;
use std::marker::Model;

/// A branch with its rank.
#[derive(Clone, Copy, Debug, PartialEq, Eq, Hash)]
pub struct Entry<const W: usize> {
    pub branch: Branch<W>,
    pub rank: u32,
}

impl<const W: usize> Model for Entry<W> {
    ghost use Rattle.ltl_tableau.specs.Ranks.{Ranked};
    ghost use Rattle.rank_proofs.specs.Codes.{ranked_code};

    ghost Value = { Ranked };

    ghost coded = { ranked_code };

    ghost view = { λ e. record { branch = e.branch; rank = e.rank } };

    ghost inverse = { λ e. record { branch = e.branch; rank = e.rank } };
}

/// Entries, each kept once, and for each rank from 0 an until of the closure or none.
#[derive(Drop)]
pub struct RowProof<const W: usize> {
    pub entries: IndexSet<Entry<W>>,
    pub reasons: List<Option<u16>>,
}

impl<const W: usize> Model for RowProof<W> {
    ghost use Rattle.ltl_tableau.specs.Ranks.{RankProof};
    ghost use Rattle.rank_proofs.specs.Codes.{proof_code};

    ghost Value = { RankProof };

    ghost coded = { proof_code };

    ghost view = { λ p. record { entries = p.entries.keys; reasons = p.reasons } };
}

impl<const W: usize> RowProof<W> {
    /// No entries, and no reasons.
    pub fn new(alloc: Global) -> RowProof<W>
        requires { W ≤ 16 }
        ensures { result ≡ record { entries = []; reasons = [] } }
    {
        RowProof {
            entries: IndexSet::new(alloc),
            reasons: List::new(alloc),
        }
    }

    /// Adds an entry, where it is new.
    pub fn add(&mut self, entry: Entry<W>) -> M<()>
        ensures entries { OnOk result ((e : Ranked)
            → Contains self.new.entries e ↔ (Contains self.old.entries e ⊎ (entry.entry ≡ e))) }
        ensures reasons { self.new.reasons ≡ self.old.reasons }
    {
        self.entries.insert(entry)?;
        Ok(())
    }

    /// Adds the reason of the next rank.
    pub fn add_reason(&mut self, reason: Option<u16>) -> M<()>
        ensures entries { self.new.entries ≡ self.old.entries }
        ensures reasons { OnOk result (self.new.reasons ≡ self.old.reasons ++ reason ∷ []) }
    {
        self.reasons.push(reason)
    }
}
