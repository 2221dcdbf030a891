//! A law of the definitions: words give one thing.

ghost use Rattle.std.specs.Prelude.{List, IsTrue};
ghost use Rattle.hy_words.specs.Parsers.{is_syntax};
ghost use Rattle.hy_words.specs.Words.{AreItems, GiveSame, Item, Syntax, Text};

/// All items that words are give the same.
pub fn one_reading()
    ensures { (syntax : Syntax) → IsTrue (is_syntax syntax) → (words : List Text)
        (items others : List Item) → AreItems syntax words items → AreItems syntax words others
        → GiveSame syntax items others }
{}
