//! Whole files as text.

use anyhow::{Context, Result};
use std::fs;

/// The text of a file.
pub fn text_of(rt: &HostRuntime, name: &str) -> Result<String> {
    fs::read_to_string(rt, name).context(format_args!("{name} does not read"))
}
