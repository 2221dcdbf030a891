//! The texts of verdicts.

ghost use Rattle.std.specs.Prelude.{◌≡◌, ◌++◌, [], IfOk, OnOk, map, decimal, codes, if◌then◌else◌};
ghost use Rattle.std.specs.List.{join_with_byte};
ghost use Rattle.rv_tool.specs.Texts.{drops, kept_text, open_text, spaced, text_of};

use crate::verdict::{Question, RvVerdict};
use hy_base::{M, Text};
use itoa::Buffer;
use std::alloc::Global;

/// The text of a verdict: how many traces are kept is said where dominated ones are dropped. In time
/// linear in the text.
pub fn text_of(alloc: Global, question: Question, verdict: &RvVerdict) -> M<Text>
    ensures { IfOk result (λ text. text ≡ text_of question verdict.now) }
{
    match verdict {
        RvVerdict::NoViolation { traces, kept, live } => {
            clean_text(alloc, drops(question), *traces, kept.as_slice(), *live)
        }
        RvVerdict::Violation { spec, trace, tuple } => {
            violation_text(alloc, *spec, *trace, tuple.as_slice())
        }
    }
}

/// Whether dominated traces are dropped.
fn drops(question: Question) -> bool
    ensures { result ≡ drops question }
{
    match question {
        Question::Monitor { drop, .. } | Question::MonitorMade { drop, .. } => drop,
    }
}

/// The text of a run that met no violation.
fn clean_text(alloc: Global, shown: bool, traces: u32, kept: &[u32], live: u32) -> M<Text>
    ensures { IfOk result (λ t. t ≡ codes "no violation in " ++ decimal traces ++ codes " traces"
        ++ (if shown then kept_text kept.now else []) ++ open_text live ++ codes "\n") }
{
    let mut text = Text::new(alloc);
    text.extend(b"no violation in ")?;
    push_number(&mut text, traces)?;
    text.extend(b" traces")?;
    if shown {
        push_kept(&mut text, kept)?;
    }
    push_open(&mut text, live)?;
    text.extend(b"\n")?;
    Ok(text)
}

/// The text of a violation.
fn violation_text(alloc: Global, spec: u32, trace: u32, tuple: &[u32]) -> M<Text>
    ensures { IfOk result (λ t. t ≡ codes "violation of spec " ++ decimal spec ++ codes " at trace " ++ decimal trace ++ codes " by " ++ join_with_byte 32 (map decimal tuple.now) ++ codes "\n") }
{
    let mut text = Text::new(alloc);
    text.extend(b"violation of spec ")?;
    push_number(&mut text, spec)?;
    text.extend(b" at trace ")?;
    push_number(&mut text, trace)?;
    text.extend(b" by ")?;
    push_numbers(&mut text, tuple)?;
    text.extend(b"\n")?;
    Ok(text)
}

/// Adds how many traces were kept for each formula.
fn push_kept(text: &mut Text, kept: &[u32]) -> M<()>
    ensures { OnOk result (text.new ≡ text.old ++ kept_text kept.now) }
{
    text.extend(b", kept")?;
    push_spaced(text, kept)
}

/// Adds how many sessions are open, where some are.
fn push_open(text: &mut Text, live: u32) -> M<()>
    ensures { OnOk result (text.new ≡ text.old ++ open_text live) }
{
    if live == 0 {
        return Ok(());
    }
    text.extend(b", open ")?;
    push_number(text, live)
}

/// Adds the numbers, with a space between two.
fn push_numbers(text: &mut Text, numbers: &[u32]) -> M<()>
    ensures { OnOk result (text.new ≡ text.old ++ join_with_byte 32 (map decimal numbers.now)) }
{
    let Some((first, others)) = numbers.split_first() else {
        return Ok(());
    };
    push_number(text, *first)?;
    push_spaced(text, others)
}

/// Adds the numbers, each behind a space.
fn push_spaced(text: &mut Text, numbers: &[u32]) -> M<()>
    ensures { OnOk result (text.new ≡ text.old ++ spaced numbers.now) }
{
    for number in numbers {
        text.extend(b" ")?;
        push_number(text, *number)?;
    }
    Ok(())
}

/// Adds a number in decimal digits.
fn push_number(text: &mut Text, number: u32) -> M<()>
    ensures { OnOk result (text.new ≡ text.old ++ decimal number) }
{
    let mut buffer = Buffer::new();
    text.extend(buffer.format(number).as_bytes())
}
