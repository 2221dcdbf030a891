//! Error lines of files, which are written without taking memory.

ghost use Rattle.std.specs.Prelude.{◌≡◌, ◌++◌, OnOk, OnErr, codes, decimal};
ghost use Rattle.hy_base.specs.Sink.{KeepsSink, GivesWhole, FailsToGive};
ghost use Rattle.hy_files.specs.ErrorLines.{circuit_text, class_line, class_text, fault_line, fault_of_name, kind_text, limit_line, name_line, name_of_file, plain};

use crate::fault::FileFault;
use aig_kind::AigKind;
use hy_base::{BYTES_LIMIT, Kind, Sink, SinkFailed, write_all, write_pieces};
use hy_formula::Class;
use itoa::Buffer;

/// How a kind of limit is printed.
fn kind_text(kind: Kind) -> &'static [u8]
    ensures { result.now ≡ kind_text kind }
{
    match kind {
        Kind::Bytes => b"bytes",
        Kind::Specs => b"specs",
        Kind::Quantifiers => b"quantifiers",
        Kind::Parens => b"parens",
        Kind::Height => b"height",
        Kind::Names => b"names",
        Kind::Instances => b"instances",
        Kind::Closure => b"closure",
        Kind::Joint => b"joint",
        Kind::Atoms => b"atoms",
        Kind::Table => b"table",
        Kind::Length => b"length",
        Kind::Sessions => b"sessions",
        Kind::Saves => b"saves",
        Kind::Variables => b"variables",
        Kind::CnfVariables => b"cnf-variables",
        Kind::CnfLiterals => b"cnf-literals",
        Kind::StrategyNames => b"strategy-names",
    }
}

/// How a class is printed.
fn class_text(class: Class) -> &'static [u8]
    ensures { result.now ≡ class_text class }
{
    match class {
        Class::Exists => b"exists",
        Class::Forall => b"forall",
        Class::ExistsForall => b"exists-forall",
        Class::Other => b"other",
    }
}

/// How a fault of a circuit is printed.
fn circuit_text(kind: AigKind) -> &'static [u8]
    ensures { result.now ≡ circuit_text kind }
{
    match kind {
        AigKind::Header => b"header",
        AigKind::Literal => b"literal",
        AigKind::Redefined => b"redefined",
        AigKind::Undefined => b"undefined",
        AigKind::Cycle => b"cycle",
        AigKind::Delta => b"delta",
        AigKind::Truncated => b"truncated",
        AigKind::Symbol => b"symbol",
    }
}

/// How a fault of a name is printed.
fn fault_of_name(twice: bool) -> &'static [u8]
    ensures { result.now ≡ fault_of_name twice }
{
    if twice { b"twice" } else { b"none" }
}

/// Writes a line that ends in the name of a file.
fn write_with_name<E: Sink>(err: &mut E, front: &[u8], name: &str) -> Result<(), SinkFailed>
    ensures keeps { KeepsSink E.Sink err.old err.new }
    ensures given { OnOk result (GivesWhole E.Sink err.old err.new (front.now ++ name.now ++ codes "\n")) }
    ensures refused { OnErr result (FailsToGive E.Sink err.old err.new (front.now ++ name.now ++ codes "\n")) }
{
    write_pieces(err, &[front, name.as_bytes(), b"\n"])
}

/// Writes the line of a count that is past its limit.
pub fn write_limit<E: Sink>(err: &mut E, kind: Kind, limit: u64) -> Result<(), SinkFailed>
    ensures keeps { KeepsSink E.Sink err.old err.new }
    ensures given { OnOk result (GivesWhole E.Sink err.old err.new (limit_line kind limit)) }
    ensures refused { OnErr result (FailsToGive E.Sink err.old err.new (limit_line kind limit)) }
{
    let mut buffer = Buffer::new();
    let number = buffer.format(limit).as_bytes();
    write_pieces(err, &[b"error E5: ", kind_text(kind), b" ", number, b"\n"])
}

/// Writes the line of a fault of syntax.
fn write_syntax<E: Sink>(err: &mut E, name: &str, token: u32, byte: u32) -> Result<(), SinkFailed>
    ensures keeps { KeepsSink E.Sink err.old err.new }
    ensures given { OnOk result (GivesWhole E.Sink err.old err.new
        (codes "error E2 " ++ name.now ++ codes ": token " ++ decimal token ++ codes " byte " ++ decimal byte ++ codes "\n")) }
    ensures refused { OnErr result (FailsToGive E.Sink err.old err.new
        (codes "error E2 " ++ name.now ++ codes ": token " ++ decimal token ++ codes " byte " ++ decimal byte ++ codes "\n")) }
{
    let mut buffer = Buffer::new();
    let mut other = Buffer::new();
    let token = buffer.format(token).as_bytes();
    let byte = other.format(byte).as_bytes();
    write_pieces(
        err,
        &[
            b"error E2 ",
            name.as_bytes(),
            b": token ",
            token,
            b" byte ",
            byte,
            b"\n",
        ],
    )
}

/// Writes the line of a name with what is wrong with it.
fn write_wrong_name<E: Sink>(err: &mut E, name: &[u8], fault: &[u8]) -> Result<(), SinkFailed>
    ensures keeps { KeepsSink E.Sink err.old err.new }
    ensures given { OnOk result (GivesWhole E.Sink err.old err.new
        (codes "error E12: " ++ name.now ++ codes " " ++ fault.now ++ codes "\n")) }
    ensures refused { OnErr result (FailsToGive E.Sink err.old err.new
        (codes "error E12: " ++ name.now ++ codes " " ++ fault.now ++ codes "\n")) }
{
    write_pieces(err, &[b"error E12: ", name, b" ", fault, b"\n"])
}

/// Writes the line of a formula's name that stands for nothing in the circuit, or `twice` for
/// different literals.
pub fn write_name<E: Sink>(err: &mut E, name: &[u8], twice: bool) -> Result<(), SinkFailed>
    ensures keeps { KeepsSink E.Sink err.old err.new }
    ensures given { OnOk result (GivesWhole E.Sink err.old err.new (name_line name.now twice)) }
    ensures refused { OnErr result (FailsToGive E.Sink err.old err.new (name_line name.now twice)) }
{
    write_wrong_name(err, name, fault_of_name(twice))
}

/// Writes a line about a file, of these pieces.
fn write_about<E: Sink>(
    err: &mut E,
    front: &[u8],
    name: &str,
    what: &[u8],
    value: &[u8],
) -> Result<(), SinkFailed>
    ensures keeps { KeepsSink E.Sink err.old err.new }
    ensures given { OnOk result (GivesWhole E.Sink err.old err.new
        (front.now ++ name.now ++ what.now ++ value.now ++ codes "\n")) }
    ensures refused { OnErr result (FailsToGive E.Sink err.old err.new
        (front.now ++ name.now ++ what.now ++ value.now ++ codes "\n")) }
{
    write_pieces(err, &[front, name.as_bytes(), what, value, b"\n"])
}

/// Writes a line about a file that ends in a number.
fn write_place<E: Sink>(
    err: &mut E,
    front: &[u8],
    name: &str,
    what: &[u8],
    number: u32,
) -> Result<(), SinkFailed>
    ensures keeps { KeepsSink E.Sink err.old err.new }
    ensures given { OnOk result (GivesWhole E.Sink err.old err.new
        (front.now ++ name.now ++ what.now ++ decimal number ++ codes "\n")) }
    ensures refused { OnErr result (FailsToGive E.Sink err.old err.new
        (front.now ++ name.now ++ what.now ++ decimal number ++ codes "\n")) }
{
    let mut buffer = Buffer::new();
    write_about(err, front, name, what, buffer.format(number).as_bytes())
}

/// Writes the line of a fault of a circuit.
fn write_circuit<E: Sink>(err: &mut E, name: &str, kind: &[u8], byte: u32) -> Result<(), SinkFailed>
    ensures keeps { KeepsSink E.Sink err.old err.new }
    ensures given { OnOk result (GivesWhole E.Sink err.old err.new
        (codes "error E11 " ++ name.now ++ codes ": " ++ kind.now ++ codes " byte " ++ decimal byte ++ codes "\n")) }
    ensures refused { OnErr result (FailsToGive E.Sink err.old err.new
        (codes "error E11 " ++ name.now ++ codes ": " ++ kind.now ++ codes " byte " ++ decimal byte ++ codes "\n")) }
{
    let mut buffer = Buffer::new();
    let byte = buffer.format(byte).as_bytes();
    write_pieces(
        err,
        &[
            b"error E11 ",
            name.as_bytes(),
            b": ",
            kind,
            b" byte ",
            byte,
            b"\n",
        ],
    )
}

/// Writes the line of a formula, in the file of this name, of a class that is not taken.
pub fn write_class<E: Sink>(err: &mut E, name: &str, class: Class) -> Result<(), SinkFailed>
    ensures keeps { KeepsSink E.Sink err.old err.new }
    ensures given { OnOk result (GivesWhole E.Sink err.old err.new (class_line name.now class)) }
    ensures refused { OnErr result (FailsToGive E.Sink err.old err.new (class_line name.now class)) }
{
    write_about(err, b"error E4 ", name, b": prefix ", class_text(class))
}

/// Writes the line of a fault of the file of this name.
pub fn write_fault<E: Sink>(err: &mut E, name: &str, fault: FileFault) -> Result<(), SinkFailed>
    ensures keeps { KeepsSink E.Sink err.old err.new }
    ensures given { OnOk result (GivesWhole E.Sink err.old err.new (fault_line name.now fault)) }
    ensures refused { OnErr result (FailsToGive E.Sink err.old err.new (fault_line name.now fault)) }
{
    match fault {
        FileFault::Open => write_with_name(err, b"error E7 ", name),
        FileFault::Read => write_with_name(err, b"error E6 ", name),
        FileFault::Bytes => write_limit(err, Kind::Bytes, BYTES_LIMIT as u64),
        FileFault::Syntax { token, byte } => write_syntax(err, name, token, byte),
        FileFault::Unbound { byte } => write_place(err, b"error E3 ", name, b": byte ", byte),
        FileFault::Count { kind, limit } => write_limit(err, kind, limit),
        FileFault::Circuit { kind, byte } => write_circuit(err, name, circuit_text(kind), byte),
        FileFault::Line { line } => write_place(err, b"error E9 ", name, b": line ", line),
        FileFault::Memory => write_all(err, b"error: memory\n"),
    }
}

/// The name of file `file` of the command; no name where there is none of that number.
pub fn name_of_file<'a>(names: &[&'a str], file: u8) -> &'a str
    ensures { result.now ≡ name_of_file (plain names.now) file }
{
    let i = file as usize;
    if i < names.len() { names[i] } else { "" }
}
