//! Members of a set, as the numbers of a list.

ghost use Rattle.std.specs.Prelude.{◌≡◌, ◌↔◌, [], IfOk, IsTrue};
ghost use Rattle.cert_text.specs.LineParts.{SaysAscending};
ghost use Rattle.cert_text.specs.Lines.{Speaks};
ghost use Rattle.cert_text.specs.Numbers.{SaysMembers};

use crate::numbers::number_from;
use crate::words::equals;
use hy_base::{List, M};
use hy_text::cut;

/// Whether the word says ascending numbers, maybe none. Where it does, the list has them afterwards,
/// in place of what it had. In time linear in the word.
pub fn read_members(word: &[u8], list: &mut List<u64>) -> M<bool>
    ensures says { IfOk result (λ are. IsTrue are ↔ Speaks SaysMembers word.now) }
    ensures members { IfOk result (λ are. IsTrue are → SaysMembers word.now list.new) }
{
    list.truncate(0);
    if equals(word, b"-") {
        return Ok(true);
    }
    read_ascending(word, list)
}

/// Whether the text says ascending numbers, one at least. Where it does, the list has them
/// afterwards.
fn read_ascending(text: &[u8], list: &mut List<u64>) -> M<bool>
    requires { list.old ≡ [] }
    ensures says { IfOk result (λ are. IsTrue are ↔ Speaks SaysAscending text.now) }
    ensures numbers { IfOk result (λ are. IsTrue are → SaysAscending text.now list.new) }
{
    let mut left = text;
    let mut least = 0;
    while let Some((piece, rest)) = cut(left, b',') {
        let Some(n) = number_from(piece, least) else {
            return Ok(false);
        };
        list.push(n)?;
        least = n + 1;
        left = rest;
    }
    let Some(n) = number_from(left, least) else {
        return Ok(false);
    };
    list.push(n)?;
    Ok(true)
}
