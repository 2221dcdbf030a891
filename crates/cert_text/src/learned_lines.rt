//! Learned clauses and their chains, read into lists that are lent.

ghost use Rattle.std.specs.Prelude.{IfOk};
ghost use Rattle.cert_text.specs.Shortened.{IsChainRead, IsClauseRead, IsLearnedRead};

use crate::literals::{read_count, read_literal};
use crate::words::{equals, past_word};
use chain_check::Clause;
use hy_base::{M, NumList};
use hy_text::cut;

/// Whether the line says a learned clause and its chain, which are put into the lists in place of
/// what was there. A number of more than 32 bits is 0 there. In time linear in the line and in what
/// was there.
pub fn read_learned(line: &[u8], clause: &mut Clause, chain: &mut NumList) -> M<bool>
    ensures { IfOk result (λ yes. IsLearnedRead line.now yes clause.new chain.new) }
{
    let Some(entry) = past_word(line, b"c") else {
        return Ok(false);
    };
    let Some(rest) = read_clause(entry, clause)? else {
        return Ok(false);
    };
    let is_chain = read_chain(rest, chain)?;
    Ok(is_chain)
}

/// What stands behind the literals at the front of the text, the 0 that ends them and its space. The
/// literals are put into the list. In time linear in the text.
fn read_clause<'a>(text: &'a [u8], clause: &mut Clause) -> M<Option<&'a [u8]>>
    ensures { IfOk result (λ rest. IsClauseRead text.now rest clause.new) }
{
    clause.truncate(0);
    let mut left = text;
    while let Some((word, rest)) = cut(left, b' ') {
        if equals(word, b"0") {
            return Ok(Some(rest));
        }
        let Some(literal) = read_literal(word) else {
            return Ok(None);
        };
        clause.push(literal)?;
        left = rest;
    }
    Ok(None)
}

/// Whether the text is the numbers of a chain and the 0 that ends them. The numbers are put into the
/// list. In time linear in the text.
fn read_chain(text: &[u8], chain: &mut NumList) -> M<bool>
    ensures { IfOk result (λ yes. IsChainRead text.now yes chain.new) }
{
    chain.truncate(0);
    let mut left = text;
    while let Some((word, rest)) = cut(left, b' ') {
        let Some(number) = read_count(word) else {
            return Ok(false);
        };
        chain.push(number)?;
        left = rest;
    }
    Ok(equals(left, b"0"))
}
