//! The table of places: which tokens may stand next in a formula text, and where the reader is then.

ghost use Rattle.std.specs.Prelude.{◌≡◌, ◌≢◌, zero, true, false, option_map, IfSome};
ghost use Rattle.hy_read.specs.Places.{next_place, operator};
ghost use Rattle.hy_read.specs.Counting.{opened_by};
ghost use Rattle.hy_read.specs.Moves.{IsPlaced, is_allowed, kind_of, place_of, stage_behind};

/// Where a reader is: the rows of the table.
#[derive(Clone, Copy, Debug, PartialEq, Eq)]
pub enum Stage {
    /// At the start of a formula.
    Start,
    /// Behind the word of a quantifier.
    Worded,
    /// Behind the variable of a quantifier.
    Named,
    /// Behind the dot of a quantifier.
    Dotted,
    /// Where an operand is wanted.
    Operand,
    /// Where an operator is wanted.
    Operator,
}

/// The kind of a token: the columns of the table.
#[derive(Clone, Copy, Debug, PartialEq, Eq)]
pub enum Kind {
    /// `exists` and `forall`.
    Word,
    Variable,
    Dot,
    /// An operator before its operand.
    Prefix,
    /// `true`, `false` and atoms.
    Leaf,
    OpenParen,
    /// An operator between its operands.
    Binary,
    CloseParen,
    Semicolon,
    /// No token.
    Stray,
}

/// Whether a token may stand next, by place and by kind. A closing parenthesis and a semicolon have
/// further conditions, on the parentheses that stand open.
const ALLOWED: [[bool; 10]; 6] = [
    [
        true, false, false, false, false, false, false, false, false, false,
    ],
    [
        false, true, false, false, false, false, false, false, false, false,
    ],
    [
        false, false, true, false, false, false, false, false, false, false,
    ],
    [
        true, false, false, true, true, true, false, false, false, false,
    ],
    [
        false, false, false, true, true, true, false, false, false, false,
    ],
    [
        false, false, false, false, false, false, true, true, true, false,
    ],
];

/// Whether a token of this kind may stand at this place, up to the parentheses that stand open.
fn is_allowed(stage: Stage, kind: Kind) -> bool
    ensures { result ≡ is_allowed stage kind }
{
    ALLOWED[stage as usize][kind as usize]
}

/// The place behind a token of this kind.
fn stage_behind(kind: Kind) -> Stage
    ensures { result ≡ stage_behind kind }
{
    match kind {
        Kind::Word => Stage::Worded,
        Kind::Variable => Stage::Named,
        Kind::Dot => Stage::Dotted,
        Kind::Prefix | Kind::OpenParen | Kind::Binary => Stage::Operand,
        Kind::Leaf | Kind::CloseParen => Stage::Operator,
        Kind::Semicolon | Kind::Stray => Stage::Start,
    }
}

/// The next place, where a token of this kind may stand at this place with so many parentheses
/// open. `many`: whether several formulas may stand in the text.
pub fn next_stage(many: bool, stage: Stage, parens: u32, kind: Kind) -> Option<Stage>
    requires { IsPlaced stage parens }
    ensures next { option_map
        (λ s. place_of s (opened_by (kind_of kind) parens)) result ≡ next_place many (place_of stage parens) (kind_of kind) }
    ensures placed { IfSome result (λ s. IsPlaced s (opened_by (kind_of kind) parens)) }
{
    if !is_allowed(stage, kind) {
        return None;
    }
    match kind {
        Kind::CloseParen if parens == 0 => None,
        Kind::Semicolon if !many || parens > 0 => None,
        _ => Some(stage_behind(kind)),
    }
}

/// Whether the end may stand at this place with so many parentheses open.
pub fn may_end(stage: Stage, parens: u32) -> bool
    ensures yes { result ≡ true → place_of stage parens ≡ operator zero }
    ensures no { result ≡ false → place_of stage parens ≢ operator zero }
{
    match stage {
        Stage::Operator => parens == 0,
        _ => false,
    }
}
