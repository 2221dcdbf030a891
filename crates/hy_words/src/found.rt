//! What is found in words.

ghost use Rattle.std.specs.Prelude.{◌≡◌, ◌≢◌, None, List, IsTrue, IfOk, IfSome, IfNone, map};
ghost use Rattle.std.specs.List.{list_all};
ghost use Rattle.clap.specs.declared.error.kind.ErrorKind.TheVariants.{OutOfMemory};
ghost use Rattle.hy_words.specs.Found.{AreProper, Tells, found_files, found_flag, found_value, listed_files, listed_slice};
ghost use Rattle.hy_words.specs.Parsers.{is_syntax};
ghost use Rattle.hy_words.specs.Words.{AreItems, HasNoItems, Item, is_filled, is_value, syntax_of, texts};

use crate::parser::{FILES, parser_of};
use crate::syntax::Syntax;
use clap::ArgMatches;
use clap::error::ErrorKind;
use hy_base::{M, Memory};
use std::alloc::Global;

/// The names of files, flags and values of options that words give, where nothing is refused among
/// them.
#[derive(Drop)]
pub struct Found<'a> {
    matches: ArgMatches<'a>,
}

impl<'a> Found<'a> {
    /// The names of files, in their order; None where there are none.
    pub fn files(&self) -> Option<&[&'a str]>
        ensures { listed_files result ≡ found_files self.now }
    {
        self.matches.get_raw(FILES)
    }

    /// What an option is given, if anything.
    pub fn value(&self, name: &str) -> Option<&'a str>
        ensures { listed_slice result ≡ found_value self.now name.now }
    {
        self.matches.get_str(name)
    }

    /// Whether a flag is given.
    pub fn has(&self, name: &str) -> bool
        ensures { result ≡ found_flag self.now name.now }
    {
        match self.matches.get_str(name) {
            None => false,
            Some(text) => text == "true",
        }
    }
}

/// What is found in words, by these names of flags and options; nothing where the words do not say
/// it, or it is refused. In time linear in the words.
///
/// Flags and options stand anywhere among the names of files, each at most once, and not behind a
/// word `--`, behind which every word is the name of a file. A value is the word behind its option,
/// or stands behind an equals sign in the same word; it is not empty, and begins with a dash only
/// where it is one. No name of a file is empty.
///
/// `Memory` where memory ran out.
pub fn found_in<'a>(alloc: Global, syntax: Syntax<'a>, words: &'a [String]) -> M<Option<Found<'a>>>
    requires { IsTrue (is_syntax (syntax_of syntax)) }
    ensures some { IfOk result (λ found. IfSome found (λ f. (items : List Item)
        × AreItems (syntax_of syntax.entry) (texts words.entry.now) items)) }
    ensures told { IfOk result (λ found. IfSome found (λ f. (items : List Item)
        → AreItems (syntax_of syntax.entry) (texts words.entry.now) items
        → Tells (syntax_of syntax.entry) items f)) }
    ensures none { IfOk result (λ found. IfNone found
        (HasNoItems (syntax_of syntax.entry) (texts words.entry.now))) }
{
    let parser = parser_of(alloc, syntax)?;
    match parser.try_get_matches_from(words) {
        Ok(matches) => Ok(proper(syntax, Found { matches })),
        Err(error) => refused(error.kind()),
    }
}

/// What was found, where each name of a file is not empty and each value is one.
fn proper<'a>(syntax: Syntax<'_>, found: Found<'a>) -> Option<Found<'a>>
    ensures some { IfSome result (λ f. (f ≡ found.entry) × AreProper (syntax_of syntax.entry) found.entry) }
    ensures none { IfNone result (¬ AreProper (syntax_of syntax.entry) found.entry) }
{
    if are_filled(found.files().unwrap_or(&[])) && are_values(syntax.options, &found) {
        Some(found)
    } else {
        None
    }
}

/// Whether no name of a file is empty.
fn are_filled(names: &[&str]) -> bool
    ensures { result ≡ list_all is_filled (map (λ name. name.now) names.now) }
{
    for name in names {
        if name.is_empty() {
            return false;
        }
    }
    true
}

/// Whether what each of these options is given is a value.
fn are_values(names: &[&str], found: &Found<'_>) -> bool
    ensures { result ≡ list_all (λ name. list_all is_value (found_value found.now name))
        (map (λ name. name.now) names.now) }
{
    for name in names {
        if !is_value_or_none(found.value(name)) {
            return false;
        }
    }
    true
}

/// Whether a text may be a value: it is not empty, and begins with a dash only where it is one. So
/// may no text.
fn is_value_or_none(text: Option<&str>) -> bool
    ensures { result ≡ list_all is_value (listed_slice text.entry) }
{
    match text {
        None => true,
        Some(text) => match text.as_bytes() {
            [] => false,
            [_] => true,
            [first, ..] => *first != b'-',
        },
    }
}

/// Nothing is found, unless the parser wanted memory.
fn refused<'a>(kind: ErrorKind) -> M<Option<Found<'a>>>
    ensures { IfOk result (λ found. (found ≡ None) × (kind ≢ OutOfMemory)) }
{
    match kind {
        ErrorKind::OutOfMemory => Err(Memory),
        _ => Ok(None),
    }
}
