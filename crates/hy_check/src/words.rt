//! Which words are a command.

ghost use Rattle.std.specs.Prelude.{◌≡◌, ◌≢◌, IfSome, IfNone, length};
ghost use Rattle.std.specs.List.{list_all};
ghost use Rattle.std.specs.String.{string_bytes};
ghost use Rattle.cert_text.specs.declared.question.Question.{Question as Asked};
ghost use Rattle.hy_run.specs.Names.{names_in, texts};
ghost use Rattle.hy_run.specs.Runs.{HasNoCommand};
ghost use Rattle.hy_check.specs.Rules.{check_rules};
ghost use Rattle.hy_check.specs.Words.{IsCommand, file_count, is_file_name, word_of};

use cert_text::Question;
use hy_run::{FileNames, Order};

/// The command that the words are, if any: what is asked, and the names of its files in the order in
/// which they are read, the last being that of the certificate. In time linear in the words, and
/// without memory.
///
/// ```text
/// hycheck ea          FORMULA OUT
/// hycheck implies     FORMULA FORMULA OUT
/// hycheck equivalent  FORMULA FORMULA OUT
/// hycheck mc          CIRCUIT FORMULA OUT
/// ```
/// The name of a file is not empty, and begins with a dash only where it is one. There are no
/// options.
pub fn order_of<'a>(words: &'a [String]) -> Option<Order<'a, Question>>
    ensures some { IfSome result (λ order. IsCommand (texts words.entry.now) order.question
        (names_in order.files)) }
    ensures none { IfNone result (HasNoCommand check_rules (texts words.entry.now)) }
{
    let (first, names) = words.split_first()?;
    let question = question_of(first.as_str())?;
    let files = files_of(question, names)?;
    if !are_file_names(names) {
        return None;
    }
    Some(Order { question, files })
}

/// What is asked by a command with this first word, if there is one.
fn question_of(word: &str) -> Option<Question>
    ensures some { IfSome result (λ question. word.now ≡ word_of question) }
    ensures none { IfNone result ((question : Asked) → word.now ≢ word_of question) }
{
    match word {
        "ea" => Some(Question::Formula),
        "implies" => Some(Question::Implication),
        "equivalent" => Some(Question::Equivalence),
        "mc" => Some(Question::Circuit),
        _ => None,
    }
}

/// The names of a command's files, if there are as many words as it has files.
fn files_of<'a>(question: Question, words: &'a [String]) -> Option<FileNames<'a>>
    ensures some { IfSome result (λ files. (names_in files ≡ texts words.entry.now)
        × (length words.entry.now ≡ file_count question)) }
    ensures none { IfNone result (length words.entry.now ≢ file_count question) }
{
    match question {
        Question::Formula => two_names(words),
        Question::Implication | Question::Equivalence | Question::Circuit => three_names(words),
    }
}

/// The names of two files, if there are two words.
fn two_names<'a>(words: &'a [String]) -> Option<FileNames<'a>>
    ensures some { IfSome result (λ files. (names_in files ≡ texts words.entry.now)
        × (length words.entry.now ≡ 2)) }
    ensures none { IfNone result (length words.entry.now ≢ 2) }
{
    match words {
        [formula, out] => Some(FileNames::two(formula.as_str(), out.as_str())),
        _ => None,
    }
}

/// The names of three files, if there are three words.
fn three_names<'a>(words: &'a [String]) -> Option<FileNames<'a>>
    ensures some { IfSome result (λ files. (names_in files ≡ texts words.entry.now)
        × (length words.entry.now ≡ 3)) }
    ensures none { IfNone result (length words.entry.now ≢ 3) }
{
    match words {
        [first, second, out] => Some(FileNames::three(
            first.as_str(),
            second.as_str(),
            out.as_str(),
        )),
        _ => None,
    }
}

/// Whether each word may name a file.
fn are_file_names(words: &[String]) -> bool
    ensures { result ≡ list_all (λ word. is_file_name (string_bytes word)) words.now }
{
    words.iter().all(|word| is_file_name(word.as_str()))
}

/// Whether a word may name a file: it is not empty, and begins with a dash only where it is one.
fn is_file_name(word: &str) -> bool
    ensures { result ≡ is_file_name word.now }
{
    match word.as_bytes() {
        [] => false,
        [_] => true,
        [first, ..] => *first != b'-',
    }
}
