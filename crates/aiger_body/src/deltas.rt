//! The ands of the binary form.

ghost use Rattle.std.specs.Prelude.{◌≡◌, ◌<◌, ◌≤◌, ◌^◌, length, slice_index, nat_le};
ghost use Rattle.aiger_body.specs.Texts.{is_ended};
ghost use Rattle.aiger_body.specs.Files.{ends_number, value_of};
ghost use Rattle.aiger_body.specs.Outcomes.{least as least_of, greatest as greatest_of};
ghost use Rattle.aiger_body.specs.Answers.{Fits};
ghost use Rattle.aiger_body.specs.Deltas.{IsBehind, IsNumberAt, IsDeltaAnswer, IsGatesAnswer};

use crate::error::AigerError;
use crate::header::Header;
use crate::text::Ends;
use aig_kind::AigKind;
use aig_order::Gate;
use hy_base::List;
use std::alloc::Global;

/// The ands of the binary form, whose numbers begin at byte `base`, and where they end. In time
/// linear in their bytes.
pub fn read_gates(
    alloc: Global,
    bytes: &[u8],
    header: &Header,
    base: usize,
) -> Result<(List<Gate>, usize), AigerError>
    requires fits { Fits header.now }
    requires room { length bytes.now ≤ 67108864 }
    requires base { IsBehind header.now bytes.now base }
    ensures { IsGatesAnswer header.now bytes.now result }
{
    let mut gates = List::new(alloc);
    let mut at = base;
    for k in 0..header.ands {
        let lhs = 2 * (1 + header.inputs + header.latches + k);
        let (first, next) = read_delta(bytes, header, base, at, 2 * k, 1, lhs)?;
        let left = lhs - first;
        let (second, end) = read_delta(bytes, header, base, next, 2 * k + 1, 0, left)?;
        gates.push(Gate {
            lhs: lhs as u32,
            left: left as u32,
            right: (left - second) as u32,
        })?;
        at = end;
    }
    Ok((gates, at))
}

/// Number `j` of the ands, which begins at byte `at` and is to be `least` to `greatest`, and where
/// the next one begins.
fn read_delta(
    bytes: &[u8],
    header: &Header,
    base: usize,
    at: usize,
    j: u64,
    least: u64,
    greatest: u64,
) -> Result<(u64, usize), AigerError>
    requires room { length bytes.now ≤ 67108864 }
    requires base { IsBehind header.now bytes.now base }
    requires number { IsNumberAt header.now bytes.now j at }
    requires low { least ≡ least_of j }
    requires high { greatest ≡ greatest_of header.now bytes.now j }
    ensures { IsDeltaAnswer header.now bytes.now j result }
{
    let (_, behind) = bytes.split_at(base);
    let group = Ends::Number.piece_at(behind, at - base);
    let fault = AigerError::Bad {
        kind: AigKind::Delta,
        byte: at as u32,
    };
    if is_long(group) {
        return Err(fault);
    }
    if !is_done(group) {
        return Err(AigerError::Bad {
            kind: AigKind::Truncated,
            byte: bytes.len() as u32,
        });
    }
    let value = value_of(group);
    if value < least as u128 || (greatest as u128) < value {
        return Err(fault);
    }
    Ok((value as u64, at + group.len()))
}

/// Whether the number does not end with its tenth byte.
fn is_long(group: &[u8]) -> bool
    ensures { result ≡ nat_le 128 (slice_index group.now 9) }
{
    group.len() > 9 && group[9] >= 128
}

/// Whether the number has its last byte.
fn is_done(group: &[u8]) -> bool
    ensures { result ≡ is_ended ends_number group.now }
{
    !group.is_empty() && group[group.len() - 1] < 128
}

/// The number in groups of 7 bits, least first.
fn value_of(group: &[u8]) -> u128
    requires { length group.now ≤ 10 }
    ensures value { result ≡ value_of group.now }
    ensures small { result < 128 ^ 10 }
{
    let mut value = 0u128;
    for i in 0..group.len() {
        let b = group[group.len() - 1 - i];
        value = value * 128 + u128::from(b % 128);
    }
    value
}
