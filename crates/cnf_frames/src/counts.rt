//! How many variables and literals a query has, counted before a clause is made. Numbers of 128 bits
//! hold each count.

ghost use Rattle.std.specs.Prelude.{◌≡◌, ◌+◌, ◌*◌, ◌^◌, ◌<◌, ◌≤◌, length, IfOk, IfErr, OnOk};
ghost use Rattle.hy_base.specs.Limits.{most};
ghost use Rattle.aig_net.specs.Nets.{variables};
ghost use Rattle.cnf_frames.specs.Counts as counts;
ghost use Rattle.cnf_frames.specs.Counts.{pairs};
ghost use Rattle.cnf_frames.specs.Queries.{IsPastBy, IsRefusalBy};

use crate::facts::Fact;
use crate::queries::FrameError;
use aig_net::Net;
use hy_base::{Kind, Limit};

/// How many variables the base query has.
pub fn base_variables(net: &Net, k: u32) -> u128
    ensures { result ≡ (k + 1) * variables net.now }
{
    (k as u128 + 1) * net.variables() as u128
}

/// How many variables the step query has.
pub fn step_variables(net: &Net, k: u32) -> u128
    ensures { result ≡ (k + 2) * variables net.now + pairs k * length net.now.latches }
{
    let frames = (k as u128 + 2) * net.variables() as u128;
    frames + pairs_of(k) * net.latches().len() as u128
}

/// How many variables a keep query has.
pub fn keep_variables(net: &Net, group: &[Fact]) -> u128
    ensures { result ≡ 2 * variables net.now + length group.now }
{
    2 * net.variables() as u128 + group.len() as u128
}

/// How many pairs of frames up to `k` there are.
fn pairs_of(k: u32) -> u128
    ensures count { result ≡ pairs k }
    ensures small { result < 2 ^ 64 }
{
    k as u128 * (k as u128 + 1) / 2
}

/// How many literals the frames of a path of `k` steps have.
fn frames_literals(net: &Net, k: u64) -> u128
    requires { k ≤ 2 ^ 32 }
    ensures count { result ≡ counts.frames_literals net.now k }
    ensures small { result < 2 ^ 110 }
{
    let gates = 1 + 7 * net.ands().len() as u128;
    let step = net.constraints().len() as u128 + 4 * net.latches().len() as u128;
    (k as u128 + 1) * gates + k as u128 * step
}

/// The number, or one past the limit of literals where it is larger.
fn capped(literals: u128) -> u128
    ensures { result ≡ counts.capped literals }
{
    literals.min(Kind::CnfLiterals.most() as u128 + 1)
}

/// How many literals the clauses of a fact have.
fn fact_literals(fact: &Fact) -> u128
    ensures count { result ≡ counts.fact_literals fact.now }
    ensures few { result < 2 ^ 64 }
{
    match fact {
        Fact::Zero(_) | Fact::One(_) => 1,
        Fact::Same(_, _) | Fact::Differ(_, _) => 4,
        Fact::AnyOf(literals) => literals.len() as u128,
    }
}

/// How many literals the clauses of facts have, as far as limits ask.
fn facts_literals(facts: &[Fact]) -> u128
    ensures count { result ≡ counts.capped (counts.facts_literals facts.now) }
    ensures small { result < 2 ^ 67 }
{
    let mut literals = 0;
    for fact in facts {
        literals = capped(literals + fact_literals(fact));
    }
    literals
}

/// How many literals the clauses have that say where a fact fails.
fn one_failing(fact: &Fact) -> u128
    ensures count { result ≡ counts.one_failing fact.now }
    ensures few { result < 2 ^ 65 }
{
    match fact {
        Fact::Zero(_) | Fact::One(_) => 2,
        Fact::Same(_, _) | Fact::Differ(_, _) => 6,
        Fact::AnyOf(literals) => 2 * literals.len() as u128,
    }
}

/// How many literals the clauses have that say where facts fail, as far as limits ask.
fn failing_literals(facts: &[Fact]) -> u128
    ensures count { result ≡ counts.capped (counts.failing_literals facts.now) }
    ensures small { result < 2 ^ 67 }
{
    let mut literals = 0;
    for fact in facts {
        literals = capped(literals + one_failing(fact));
    }
    literals
}

/// How many literals the base query has.
pub fn base_literals(net: &Net, k: u32) -> u128
    ensures { result ≡ counts.base_literals net.now k }
{
    let ends = net.latches().len() as u128 + 1;
    frames_literals(net, k as u64) + ends
}

/// How many literals the step query has.
pub fn step_literals(net: &Net, facts: &[Fact], k: u32) -> u128
    ensures { result ≡ counts.step_literals net.now facts.now k }
{
    let frames = frames_literals(net, k as u64 + 1);
    frames + (good_literals(facts, k) + (1 + apart_literals(net, k)))
}

/// How many literals the clauses have that say that the states up to `k` are good and have all facts.
fn good_literals(facts: &[Fact], k: u32) -> u128
    ensures count { result ≡ (k + 1) * (counts.capped (counts.facts_literals facts.now) + 1) }
    ensures small { result < 2 ^ 110 }
{
    (k as u128 + 1) * (facts_literals(facts) + 1)
}

/// How many literals the clauses have that say that the states up to `k` differ.
fn apart_literals(net: &Net, k: u32) -> u128
    ensures count { result ≡ pairs k * (7 * length net.now.latches) }
    ensures small { result < 2 ^ 110 }
{
    net.variables(); // what each net keeps
    pairs_of(k) * (7 * net.latches().len() as u128)
}

/// How many literals the clauses have that all keep queries of the facts begin with, as far as limits
/// ask.
pub fn front_literals(net: &Net, facts: &[Fact]) -> u128
    ensures count { result ≡ counts.front_literals net.now facts.now }
    ensures small { result < 2 ^ 111 }
{
    frames_literals(net, 1) + facts_literals(facts)
}

/// How many literals the clauses have that stand behind those, as far as limits ask.
pub fn rest_literals(group: &[Fact]) -> u128
    ensures count { result ≡ counts.rest_literals group.now }
    ensures small { result < 2 ^ 68 }
{
    failing_literals(group) + group.len() as u128
}

/// How many literals a keep query has.
pub fn keep_literals(net: &Net, facts: &[Fact], group: &[Fact]) -> u128
    ensures { result ≡ counts.keep_literals net.now facts.now group.now }
{
    front_literals(net, facts) + rest_literals(group)
}

/// The number of variables, where so many of them and so many literals are taken.
pub fn admit(variables: u128, literals: u128) -> Result<u32, FrameError>
    ensures variables { IfOk result (λ n. n ≡ variables) }
    ensures within { OnOk result ((variables ≤ most Kind.CnfVariables)
        × (literals ≤ most Kind.CnfLiterals)) }
    ensures refused { IfErr result (λ e. IsRefusalBy variables literals e) }
{
    match within_limits(variables, literals) {
        Ok(()) => Ok(variables as u32),
        Err(limit) => Err(FrameError::Limit(limit)),
    }
}

/// Whether so many variables and so many literals are taken, or which limit is passed; variables
/// come first.
pub fn within_limits(variables: u128, literals: u128) -> Result<(), Limit>
    ensures within { OnOk result ((variables ≤ most Kind.CnfVariables)
        × (literals ≤ most Kind.CnfLiterals)) }
    ensures past { IfErr result (λ limit. IsPastBy variables literals limit.kind
        × (limit.limit ≡ most limit.kind)) }
{
    if variables > Kind::CnfVariables.most() as u128 {
        Err(limit_of(Kind::CnfVariables))
    } else if literals > Kind::CnfLiterals.most() as u128 {
        Err(limit_of(Kind::CnfLiterals))
    } else {
        Ok(())
    }
}

/// The limit of this kind.
fn limit_of(kind: Kind) -> Limit
    ensures { result ≡ record { kind = kind; limit = most kind } }
{
    Limit {
        kind,
        limit: kind.most(),
    }
}
