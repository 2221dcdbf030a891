//! The names of flags and options.

/// The names of a tool's flags, and of its options that have a value, without their dashes.
#[derive(Clone, Copy)]
pub struct Syntax<'a> {
    pub flags: &'a [&'a str],
    pub options: &'a [&'a str],
}
