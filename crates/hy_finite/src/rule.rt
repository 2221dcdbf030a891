//! What a body says at a position, by what its parts say there and what is carried from the position
//! behind it; and the same for 64 positions at once, in the bits of a word, the last position lowest.

ghost use Rattle.std.specs.Prelude.{◌≡◌, ℕ, suc, ◌<◌};
ghost use Rattle.hy_bits.specs.Binary.{has_one};
ghost use Rattle.hy_finite.specs.Rules.{says, carries, carry_at, start};
ghost use Rattle.hy_finite.specs.declared.rule.Rule.TheVariants.{Until as UntilRule, Release as ReleaseRule};

/// An operator of a body.
#[derive(Clone, Copy)]
pub enum Rule {
    Not,
    Next,
    Finally,
    Globally,
    And,
    Or,
    Implies,
    Iff,
    Until,
    Release,
    Weak,
}

impl Rule {
    /// What is carried to the last position.
    pub fn start(self) -> bool
        ensures { result ≡ start self }
    {
        match self {
            Rule::Globally | Rule::Release | Rule::Weak => true,
            _ => false,
        }
    }

    /// What the body says, where `left` and `right` are what its parts say and `carry` is carried to
    /// the lowest place. An operator with one part has it at the left.
    pub fn word(self, left: u64, right: u64, carry: bool) -> u64
        ensures { (k : ℕ) → k < 64 → has_one result k
            ≡ says self (has_one left k) (has_one right k)
            (carry_at self (has_one left) (has_one right) carry k) }
    {
        match self {
            Rule::Not => !left,
            Rule::Next => (left << 1) | carry as u64,
            Rule::Finally => until_word(u64::MAX, left, carry),
            Rule::Globally => release_word(0, left, carry),
            Rule::And => left & right,
            Rule::Or => left | right,
            Rule::Implies => !left | right,
            Rule::Iff => !(left ^ right),
            Rule::Until => until_word(left, right, carry),
            Rule::Release => release_word(left, right, carry),
            Rule::Weak => release_word(right, left | right, carry),
        }
    }

    /// What is carried from the highest place of the left part and of the body's word.
    pub fn carry(self, left: u64, word: u64) -> bool
        ensures { result ≡ carries self (has_one left 63) (has_one word 63) }
    {
        match self {
            Rule::Next => has_one(left, 63),
            _ => has_one(word, 63),
        }
    }
}

/// Whether the word has a 1 at place `k`, counted from the lowest.
pub fn has_one(word: u64, k: usize) -> bool
    requires { k < 64 }
    ensures { result ≡ has_one word k }
{
    (word >> k) & 1 == 1
}

/// Until: at each place where `right` holds, and where `left` does and it holds at the place before.
/// That is what a sum carries on, where both words have a 1 as `right` does and one has as `left`
/// does.
fn until_word(left: u64, right: u64, carry: bool) -> u64
    ensures { (k : ℕ) → k < 64 → has_one result k
        ≡ carry_at UntilRule (has_one left) (has_one right) carry (suc k) }
{
    let sum = (left | right)
        .wrapping_add(right)
        .wrapping_add(carry as u64);
    right | (left & !sum)
}

/// Release, which is not until of the negations.
fn release_word(left: u64, right: u64, carry: bool) -> u64
    ensures { (k : ℕ) → k < 64 → has_one result k
        ≡ carry_at ReleaseRule (has_one left) (has_one right) carry (suc k) }
{
    !until_word(!left, !right, !carry)
}
