//! What is kept of the traces that arrived, for each spec.

ghost use Rattle.std.specs.Prelude.{◌≡◌, ◌<◌, ◌++◌, ◌∷◌, [], length, replicate, slice_get, slice_set, Some, IfOk, OnOk, OnErr};

use hy_base::M;
use std::alloc::Global;
use std::marker::Model;
use trace_trie::Version;

/// For each spec the traces that are kept, by their numbers. Contracts see the list of these. Where
/// there is one spec, as mostly, it takes no memory of its own.
#[derive(Drop)]
pub(crate) struct Kept {
    first: Option<Version>,
    others: Vec<Version>,
}

impl Model for Kept {
    ghost use Rattle.std.specs.Prelude.{◌≡◌, ◌++◌, ℕ, List, [], None, option_to_list};
    ghost use Rattle.std.specs.Coded.{coded_ℕ, coded_list, coded×};
    ghost use Rattle.std.specs.FinSet as set;
    ghost use Rattle.hy_bits.specs.Letter.{Letter};

    ghost Value = { List (List (ℕ × List Letter)) };

    ghost coded = { coded_list (coded_list (coded× coded_ℕ (coded_list (set.code coded_ℕ)))) };

    ghost view = { λ k. option_to_list k.first ++ k.others.items };

    ghost invariant = { λ k. k.first ≡ None → k.others.items ≡ [] };
}

impl Kept {
    /// No spec. Takes no memory.
    pub(crate) fn new(alloc: Global) -> Kept
        ensures { result ≡ [] }
    {
        Kept {
            first: None,
            others: Vec::new(alloc),
        }
    }

    /// Adds what is kept for the next spec. Refused it changes nothing.
    pub(crate) fn push(&mut self, version: Version) -> M<()>
        ensures added { OnOk result (self.new ≡ self.old ++ version ∷ []) }
        ensures refused { OnErr result (self.new ≡ self.old) }
    {
        if self.first.is_none() {
            self.first = Some(version);
            return Ok(());
        }
        self.others.push(version)?;
        Ok(())
    }

    /// This is kept for a spec instead. Takes no memory.
    pub(crate) fn set(&mut self, spec: usize, version: Version)
        requires { spec < length self.old }
        ensures { self.new ≡ slice_set self.old spec version }
    {
        if spec == 0 {
            self.first = Some(version);
        } else {
            self.others[spec - 1] = version;
        }
    }

    /// No traces, for each of so many specs.
    pub(crate) fn none(alloc: Global, specs: usize) -> M<Kept>
        ensures { IfOk result (λ made. made ≡ replicate specs []) }
    {
        let mut kept = Kept::new(alloc);
        for _spec in 0..specs {
            kept.push(Version::new(alloc)?)?;
        }
        Ok(kept)
    }

    /// The same, in time linear in the number of specs, and in memory where there is more than one.
    pub(crate) fn share(&self, alloc: Global) -> M<Kept>
        ensures { IfOk result (λ made. made ≡ self.now) }
    {
        let mut kept = Kept::new(alloc);
        let Some(first) = &self.first else {
            return Ok(kept);
        };
        kept.push(first.share()?)?;
        for version in &self.others {
            kept.push(version.share()?)?;
        }
        Ok(kept)
    }

    /// Lets no trace wait to be put with the others, up to the first spec for which that is refused.
    pub(crate) fn settle(&mut self) -> M<()>
        ensures { self.new ≡ self.old }
    {
        if let Some(first) = &mut self.first {
            first.settle()?;
        }
        settle_all(&mut self.others)
    }

    /// What is kept for a spec.
    pub(crate) fn at(&self, spec: usize) -> &Version
        requires { spec < length self.now }
        ensures { slice_get self.now spec ≡ Some result.now }
    {
        match &self.first {
            Some(first) if spec == 0 => first,
            _ => &self.others[spec - 1],
        }
    }
}

/// Settles each version, up to the first that is refused.
fn settle_all(versions: &mut Vec<Version>) -> M<()>
    ensures { versions.new.items ≡ versions.old.items }
{
    for version in versions.iter_mut() {
        version.settle()?;
    }
    Ok(())
}
