//! The lines of rank proofs.

ghost use Rattle.std.specs.Prelude.{◌≡◌, ◌≢◌, ◌↔◌, ℕ, List as Sequence, [], ◌∷◌, codes, MatchOption, IfOk, IsTrue};
ghost use Rattle.cert_text.specs.Lines.{words_of, Speaks};
ghost use Rattle.cert_text.specs.RankLines.{SaysRankHead, SaysBranch, SaysReason};

use crate::members::read_members;
use crate::numbers::{are_members, is_number, one_number, two_numbers};
use crate::words::{equals, past_word, two_words};
use hy_base::{List, M};
use hy_text::{cut, number};

/// How many branches and ranks a proof has that begins with the line.
pub fn rank_head(line: &[u8]) -> Option<(u64, u64)>
    ensures { MatchOption result ((b r : ℕ) → ¬ SaysRankHead line.now b r)
        (λ counts. SaysRankHead line.now counts.0 counts.1) }
{
    let Some(rest) = past_word(line, b"proof") else {
        return None;
    };
    let Some(counts) = past_word(rest, b"rank") else {
        return None;
    };
    two_numbers(counts)
}

/// The words of a branch behind its first one: its rank, and its two sets.
fn branch_words(line: &[u8]) -> Option<(&[u8], &[u8], &[u8])>
    ensures { MatchOption result
        ((rank now next : Sequence ℕ) → words_of line.now ≢ codes "b" ∷ rank ∷ now ∷ next ∷ [])
        (λ words. words_of line.now
        ≡ codes "b" ∷ words.0.now ∷ words.1.now ∷ words.2.now ∷ []) }
{
    let Some(entry) = past_word(line, b"b") else {
        return None;
    };
    let Some((rank, sets)) = cut(entry, b' ') else {
        return None;
    };
    let Some((now, next)) = two_words(sets) else {
        return None;
    };
    Some((rank, now, next))
}

/// Whether the line says a branch.
pub fn is_branch(line: &[u8]) -> bool
    ensures { IsTrue result ↔ Speaks SaysBranch line.now }
{
    let Some((rank, now, next)) = branch_words(line) else {
        return false;
    };
    is_number(rank) && are_members(now) && are_members(next)
}

/// The rank of the branch that the line says, and in the two lists its sets, in place of what they
/// had. `None` where the line says no branch. In time linear in the line.
pub fn read_branch(line: &[u8], now: &mut List<u64>, next: &mut List<u64>) -> M<Option<u64>>
    ensures { IfOk result (λ read. MatchOption read (¬ Speaks SaysBranch line.now)
        (λ rank. SaysBranch line.now
        (record { rank = rank; now = now.new; next = next.new }))) }
{
    let Some((rank, first, second)) = branch_words(line) else {
        return Ok(None);
    };
    let Some(rank) = number(rank) else {
        return Ok(None);
    };
    if !read_members(first, now)? {
        return Ok(None);
    }
    if !read_members(second, next)? {
        return Ok(None);
    }
    Ok(Some(rank))
}

/// The reason that the line says: an until, or none.
pub fn read_reason(line: &[u8]) -> Option<Option<u64>>
    ensures { MatchOption result (¬ Speaks SaysReason line.now)
        (λ reason. SaysReason line.now reason) }
{
    if equals(line, b"n") {
        return Some(None);
    }
    let Some(until) = past_word(line, b"u") else {
        return None;
    };
    match one_number(until) {
        Some(until) => Some(Some(until)),
        None => None,
    }
}

/// Whether the line says a reason.
pub fn is_reason(line: &[u8]) -> bool
    ensures { IsTrue result ↔ Speaks SaysReason line.now }
{
    match read_reason(line) {
        Some(_) => true,
        None => false,
    }
}
