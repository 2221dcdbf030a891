//! Laws of texts: a text derives one value, and what is printed is read. Each function is empty: its contract is the
//! law.

ghost use Rattle.std.specs.Prelude.{◌≡◌, ◌++◌, ◌∷◌, ℕ, IsTrue, List, map, All};
ghost use Rattle.hy_bits.specs.Letter.{Letter};
ghost use Rattle.hy_formula.specs.Names.{are_distinct};
ghost use Rattle.hy_text.specs.Bytes.{past_blanks};
ghost use Rattle.hy_text.specs.Names.{AreNames};
ghost use Rattle.hy_text.specs.Sets.{IsOver, SpellsSet, letter_of, members_of};
ghost use Rattle.hy_text.specs.Words.{NoSemicolon, SpellsWord, printed_word};

/// A text has one set at its front, by its names and what stands behind it.
pub fn one_set()
    ensures { (text : List ℕ) (names others : List (List ℕ)) (rest end : List ℕ)
        → SpellsSet text names rest → SpellsSet text others end → (names ≡ others) × (rest ≡ end) }
{}

/// A text has one word of sets at its front.
#[tactic(auto, using(crate::proofs::Once::laws))]
pub fn one_word()
    ensures { (text : List ℕ) (sets others : List (List (List ℕ))) (rest end : List ℕ)
        → SpellsWord text sets rest → SpellsWord text others end → (sets ≡ others) × (rest ≡ end) }
{}

/// A printed word over a reader's names is read, to its end.
#[tactic(auto, using(crate::proofs::PrintedWords::printed_word_read))]
pub fn printed_word_is_read()
    ensures { (table : List (List ℕ)) (letter : Letter) (letters : List Letter) (rest : List ℕ)
        → AreNames table → past_blanks rest ≡ rest → NoSemicolon rest
        → SpellsWord (printed_word table (letter ∷ letters) ++ rest) (map (members_of table) (letter ∷ letters)) rest }
{}

/// What is read of a printed word, with the same table, is the word.
#[tactic(auto, using(crate::proofs::PrintedLetters::letters_read))]
pub fn printed_letters_are_read()
    ensures { (table : List (List ℕ)) (letters : List Letter) → IsTrue (are_distinct table)
        → All (IsOver table) letters
        → map (letter_of table) (map (members_of table) letters) ≡ letters }
{}
