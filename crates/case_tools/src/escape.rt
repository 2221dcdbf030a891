//! Bytes on a line: each printable ASCII byte but the backslash stands for itself, and the others are
//! written `\n`, `\t`, `\r`, `\\` and `\xHH`.

use anyhow::{Result, bail, ensure};
use hy_base::Text;
use std::alloc::Global;
use std::fmt::Write;

/// Where a reader of such a text stands.
#[derive(Clone, Copy, PartialEq, Eq)]
enum Place {
    Plain,
    /// Behind a backslash.
    Escape,
    /// Behind `\x`.
    HighDigit,
    /// Behind `\x` and this digit.
    LowDigit(u8),
}

/// A reader of such a text, and the bytes of what it has read.
#[derive(Drop)]
struct Reader {
    bytes: Text,
    place: Place,
}

impl Reader {
    /// Takes one more mark.
    fn take(&mut self, mark: u8) -> Result<()> {
        match self.place {
            Place::Plain => self.take_plain(mark),
            Place::Escape => self.take_escape(mark),
            Place::HighDigit => {
                self.place = Place::LowDigit(digit_of(mark)?);
                Ok(())
            }
            Place::LowDigit(high) => self.add((high << 4) | digit_of(mark)?),
        }
    }

    /// Adds a byte, behind which the text is plain.
    fn add(&mut self, byte: u8) -> Result<()> {
        self.bytes.push(byte)?;
        self.place = Place::Plain;
        Ok(())
    }

    fn take_plain(&mut self, mark: u8) -> Result<()> {
        match mark {
            b'\\' => {
                self.place = Place::Escape;
                Ok(())
            }
            b' '..=b'~' => self.add(mark),
            _ => bail!("byte {mark} stands in a text"),
        }
    }

    fn take_escape(&mut self, mark: u8) -> Result<()> {
        match mark {
            b'n' => self.add(b'\n'),
            b't' => self.add(b'\t'),
            b'r' => self.add(b'\r'),
            b'\\' => self.add(b'\\'),
            b'x' => {
                self.place = Place::HighDigit;
                Ok(())
            }
            _ => bail!("byte {mark} stands behind a backslash"),
        }
    }

    /// Takes the marks of a whole text.
    fn take_all(&mut self, text: &str) -> Result<()> {
        for mark in text.bytes() {
            self.take(mark)?;
        }
        ensure!(self.place == Place::Plain, "the text ends within an escape");
        Ok(())
    }
}

/// The bytes that a text stands for.
pub(crate) fn text_of(alloc: Global, text: &str) -> Result<Text> {
    let mut reader = Reader {
        bytes: Text::new(alloc),
        place: Place::Plain,
    };
    reader.take_all(text)?;
    Ok(reader.bytes)
}

/// The value of a hexadecimal digit.
fn digit_of(mark: u8) -> Result<u8> {
    match mark {
        b'0'..=b'9' => Ok(mark - b'0'),
        b'a'..=b'f' => Ok(mark - b'a' + 10),
        b'A'..=b'F' => Ok(mark - b'A' + 10),
        _ => bail!("byte {mark} is no hexadecimal digit"),
    }
}

/// The text that stands for these bytes. A space at its end is written `\x20`, since it would not show.
pub(crate) fn escaped(alloc: Global, bytes: &[u8]) -> Result<String> {
    let mut text = String::new(alloc);
    push_all(&mut text, bytes)?;
    Ok(text)
}

fn push_all(text: &mut String, bytes: &[u8]) -> Result<()> {
    let (bytes, end) = match bytes {
        [front @ .., b' '] => (front, "\\x20"),
        _ => (bytes, ""),
    };
    for byte in bytes {
        push_byte(text, *byte)?;
    }
    text.push_str(end)?;
    Ok(())
}

fn push_byte(text: &mut String, byte: u8) -> Result<()> {
    match byte {
        b'\n' => text.push_str("\\n")?,
        b'\t' => text.push_str("\\t")?,
        b'\r' => text.push_str("\\r")?,
        b'\\' => text.push_str("\\\\")?,
        b' '..=b'~' => text.push(char::from(byte))?,
        _ => write!(text, "\\x{byte:02x}")?,
    }
    Ok(())
}
