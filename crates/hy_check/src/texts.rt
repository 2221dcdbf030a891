//! What verdicts and own refusals print.

ghost use Rattle.std.specs.Prelude.{◌≡◌, ◌++◌, OnOk, OnErr, codes, decimal};
ghost use Rattle.hy_base.specs.Sink.{KeepsSink, GivesWhole, FailsToGive};
ghost use Rattle.hy_files.specs.ErrorLines.{plain};
ghost use Rattle.hy_check.specs.Texts.{certificate_line, last_of, text_of};

use crate::answer::CheckVerdict;
use hy_base::{Sink, SinkFailed, write_pieces};
use itoa::Buffer;

/// What `out` receives with a verdict.
pub fn text_of(verdict: CheckVerdict) -> &'static [u8]
    ensures { result.now ≡ text_of verdict }
{
    match verdict {
        CheckVerdict::Accepted => b"accepted\n",
        CheckVerdict::Rejected => b"rejected\n",
    }
}

/// Writes the line of a certificate, in the last of these files, that goes wrong.
pub fn write_certificate<E: Sink>(err: &mut E, files: &[&str], line: u32) -> Result<(), SinkFailed>
    ensures keeps { KeepsSink E.Sink err.old err.new }
    ensures given { OnOk result (GivesWhole E.Sink err.old err.new
        (certificate_line (last_of (plain files.now)) line)) }
    ensures refused { OnErr result (FailsToGive E.Sink err.old err.new
        (certificate_line (last_of (plain files.now)) line)) }
{
    let name = last_name(files);
    let mut buffer = Buffer::new();
    let number = buffer.format(line).as_bytes();
    write_pieces(
        err,
        &[b"error E14 ", name.as_bytes(), b": line ", number, b"\n"],
    )
}

/// The name of the last file; no name where there is none.
fn last_name<'a>(files: &[&'a str]) -> &'a str
    ensures { result.now ≡ last_of (plain files.now) }
{
    let count = files.len();
    if count == 0 { "" } else { files[count - 1] }
}
