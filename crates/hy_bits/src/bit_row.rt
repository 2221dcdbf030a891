//! Finite sets of numbers, in as many words of 64 bits as a const parameter says.

ghost use Rattle.std.specs.Prelude.{◌≡◌, ◌*◌, ◌<◌, ◌≤◌, nat_eq, refl, Some};
ghost use Rattle.std.specs.FinSet as set;
ghost use Rattle.std.specs.Ordering.{nat_cmp};
ghost use Rattle.std.specs.Cmp.{on_equiv, on_total, on_po, on_per, partial_equiv_from_equiv, nat_eq_equiv, unsigned_po, nat_cmp_total, unsigned_ties};
ghost use Rattle.std.specs.Hash as fed;
ghost use Rattle.hy_bits.specs.Binary.{number};
ghost use Rattle.hy_bits.specs.Rows.{words_of};
ghost use Rattle.hy_bits.specs.RowLaws.{same_input};
ghost use Rattle.hy_bits.specs.Sets.{AreBelow, IsNext};

use std::cmp::Ordering;
use std::hash::{Hash, Hasher};
use std::marker::Model;

/// A set of numbers below 64 W. W is at most 16.
#[derive(Clone, Copy, Debug)]
pub struct BitRow<const W: usize> {
    /// Number 64 j + k is a member where bit k of word j is 1.
    words: [u64; W],
}

impl<const W: usize> Model for BitRow<W> {
    ghost use Rattle.std.specs.Prelude.{◌≡◌, ◌≤◌, length};
    ghost use Rattle.std.specs.Coded.{coded_ℕ};
    ghost use Rattle.std.specs.FinSet as set;
    ghost use Rattle.hy_bits.specs.Sets.{NumberSet};
    ghost use Rattle.hy_bits.specs.Binary.{number};
    ghost use Rattle.hy_bits.specs.Rows.{members, words_of, AreWords};
    ghost use Rattle.hy_bits.specs.RowLaws.{words_of-members};

    ghost Value = { NumberSet };

    ghost coded = { set.code coded_ℕ };

    ghost view = { λ r. members r.words };

    ghost invariant = { λ r. (W ≤ 16) × (length r.words ≡ W) × AreWords r.words };

    ghost inverse = { λ s. record { words = words_of W (number s) } };

    ghost inverse_ok = { λ r h i. record { words = words_of-members W r.words h.1 h.2 i } };
}

impl<const W: usize> BitRow<W> {
    /// The set of no number.
    pub fn empty() -> Self
        requires { W ≤ 16 }
        ensures { result ≡ set.empty }
    {
        BitRow { words: [0; W] }
    }

    /// Each member is below 64 W.
    pub fn members_below(&self)
        ensures { AreBelow (64 * W) self.now }
    {
        let _words = &self.words;
    }

    /// Whether number `i` is a member.
    pub fn has(&self, i: usize) -> bool
        requires width { W ≤ 16 }
        requires within { i < 64 * W }
        ensures { result ≡ set.contains self.now i }
    {
        (self.words[i / 64] >> (i % 64)) & 1 == 1
    }

    /// The least member from a number on, in time linear in W.
    pub fn next_from(&self, from: usize) -> Option<usize>
        requires { W ≤ 16 }
        ensures { IsNext self.now from result }
    {
        let mut i = from;
        while i < 64 * W {
            let rest = self.words[i / 64] >> (i % 64);
            if rest != 0 {
                return Some(i + rest.trailing_zeros() as usize);
            }
            i = (i / 64 + 1) * 64;
        }
        None
    }

    /// This set with number `i` too.
    pub fn with(self, i: usize) -> Self
        requires width { W ≤ 16 }
        requires within { i < 64 * W }
        ensures { result ≡ set.insert self.entry i }
    {
        let mut words = self.words;
        words[i / 64] |= 1 << (i % 64);
        BitRow { words }
    }

    /// This set without number `i`.
    pub fn without(self, i: usize) -> Self
        requires width { W ≤ 16 }
        requires within { i < 64 * W }
        ensures { result ≡ set.remove self.entry i }
    {
        let mut words = self.words;
        words[i / 64] &= !(1 << (i % 64));
        BitRow { words }
    }

    /// The numbers of either set, in time linear in W.
    pub fn union(&self, other: &Self) -> Self
        requires { W ≤ 16 }
        ensures { result ≡ set.union self.now other.now }
    {
        let mut words = self.words;
        for j in 0..W {
            words[j] |= other.words[j];
        }
        BitRow { words }
    }

    /// Whether each number of this set is one of the other, in time linear in W.
    pub fn is_subset(&self, other: &Self) -> bool
        requires { W ≤ 16 }
        ensures { result ≡ set.is_subset self.now other.now }
    {
        for j in 0..W {
            if self.words[j] & other.words[j] != self.words[j] {
                return false;
            }
        }
        true
    }
}

/// Sets are equal where they have the same members.
impl<const W: usize> PartialEq for BitRow<W> {
    ghost eq = { λ s t. nat_eq (number s) (number t) };

    ghost laws = { on_per number (partial_equiv_from_equiv nat_eq_equiv) };

    fn eq(&self, other: &Self) -> bool {
        self.words == other.words
    }
}

impl<const W: usize> Eq for BitRow<W> {
    ghost laws = { on_equiv number nat_eq_equiv };
}

/// Of two sets the one with the greatest number that only one of them has is the greater.
impl<const W: usize> PartialOrd for BitRow<W> {
    ghost partial_cmp = { λ s t. Some (nat_cmp (number s) (number t)) };

    ghost laws = { on_po number unsigned_po };

    fn partial_cmp(&self, other: &Self) -> Option<Ordering> {
        Some(self.cmp(other))
    }
}

impl<const W: usize> Ord for BitRow<W> {
    ghost cmp = { λ s t. nat_cmp (number s) (number t) };

    ghost total = { on_total number nat_cmp_total };

    ghost matches_partial_cmp = { λ s t. refl };

    ghost matches_eq = { λ s t. unsigned_ties (number s) (number t) };

    fn cmp(&self, other: &Self) -> Ordering {
        let mut j = W;
        while j > 0 {
            j -= 1;
            if self.words[j] != other.words[j] {
                return self.words[j].cmp(&other.words[j]);
            }
        }
        Ordering::Equal
    }
}

impl<const W: usize> Hash for BitRow<W> {
    ghost hash_input = { λ s. fed.slice fed.u64 (words_of W (number s)) };

    ghost respects_eq = { same_input W };

    fn hash<H: Hasher>(&self, state: &mut H) {
        self.words.hash(state);
    }
}
