//! The text of a log: a line with its length, then a line for each learned clause.

ghost use Rattle.std.specs.Prelude.{◌≡◌, ◌++◌, ◌∷◌, IfOk, OnOk, decimal};
ghost use Rattle.std.specs.List.{flat_map};
ghost use Rattle.std.specs.Fmt.{signed_decimal};
ghost use Rattle.chain_check.specs.LogTexts.{entry_text, log_text};

use crate::logs::{Learned, Log};
use hy_base::{M, Text};
use itoa::Buffer;
use std::alloc::Global;

/// The text of the log, in time linear in its literals and numbers.
pub fn print_log(alloc: Global, log: &Log) -> M<Text>
    ensures { IfOk result (λ text. text ≡ log_text log.now) }
{
    let mut text = Text::new(alloc);
    text.extend(b"log ")?;
    let mut buffer = Buffer::new();
    text.extend(buffer.format(log.len()).as_bytes())?;
    text.extend(b"\n")?;
    for entry in log.as_slice() {
        push_entry(&mut text, entry)?;
    }
    Ok(text)
}

/// Adds the line of a learned clause.
fn push_entry(text: &mut Text, entry: &Learned) -> M<()>
    ensures { OnOk result (text.new ≡ text.old ++ entry_text entry.now) }
{
    text.extend(b"c")?;
    push_literals(text, entry.clause.as_slice())?;
    text.extend(b" 0")?;
    push_numbers(text, entry.chain.as_slice())?;
    text.extend(b" 0\n")
}

/// Adds the literals, each behind a space.
fn push_literals(text: &mut Text, literals: &[i32]) -> M<()>
    ensures { OnOk result (
        text.new ≡ text.old ++ flat_map (λ l. 32 ∷ signed_decimal l) literals.now) }
{
    let mut buffer = Buffer::new();
    for literal in literals {
        text.extend(b" ")?;
        text.extend(buffer.format(*literal).as_bytes())?;
    }
    Ok(())
}

/// Adds the numbers, each behind a space.
fn push_numbers(text: &mut Text, numbers: &[u32]) -> M<()>
    ensures { OnOk result (text.new ≡ text.old ++ flat_map (λ k. 32 ∷ decimal k) numbers.now) }
{
    let mut buffer = Buffer::new();
    for number in numbers {
        text.extend(b" ")?;
        text.extend(buffer.format(*number).as_bytes())?;
    }
    Ok(())
}
