//! What names stand for in a net.

ghost use Rattle.std.specs.Prelude.{◌≡◌, ◌+◌, ◌≤◌, ◌^◌, length};
ghost use Rattle.net_names.specs.Meanings.{Means, merged};
ghost use Rattle.net_names.specs.Names.{HasLiteral, NamesLiteral, NamesVariable};

use aig_net::Net;
use hy_base::Text;

/// What a name stands for.
#[derive(Clone, Copy, Debug, PartialEq, Eq)]
pub enum Meaning {
    Nothing,
    Literal(u32),
    /// Different literals.
    Several,
}

impl Meaning {
    /// What both together stand for.
    fn with(self, other: Meaning) -> Meaning
        ensures { result ≡ merged self other }
    {
        match (self, other) {
            (Meaning::Nothing, _) => other,
            (_, Meaning::Nothing) => self,
            (Meaning::Literal(l), Meaning::Literal(m)) if l == m => self,
            _ => Meaning::Several,
        }
    }
}

/// What a name stands for among the inputs, latches and outputs, in time linear in their names.
pub fn meaning_of(net: &Net, name: &[u8]) -> Meaning
    ensures { Means (HasLiteral net.now name.now) result }
{
    net.variables(); // what each net keeps
    if name.is_empty() {
        return Meaning::Nothing;
    }
    let inputs = of_variables(net.input_names().as_slice(), name, 1);
    let latches = of_variables(net.latch_names().as_slice(), name, 1 + net.inputs());
    let outputs = of_literals(
        net.output_names().as_slice(),
        name,
        net.outputs().as_slice(),
    );
    inputs.with(latches.with(outputs))
}

/// What a name stands for among variables, the first of which has this number.
fn of_variables(names: &[Text], name: &[u8], first: u32) -> Meaning
    requires { first + length names.now ≤ 2 ^ 31 }
    ensures { Means (NamesVariable names.now name.now first) result }
{
    let mut found = Meaning::Nothing;
    for (j, own) in names.iter().enumerate() {
        if own.as_slice() == name {
            found = found.with(Meaning::Literal(2 * (first + j as u32)));
        }
    }
    found
}

/// What a name stands for among literals.
fn of_literals(names: &[Text], name: &[u8], literals: &[u32]) -> Meaning
    requires { length names.now ≡ length literals.now }
    ensures { Means (NamesLiteral names.now name.now literals.now) result }
{
    let mut found = Meaning::Nothing;
    for (j, own) in names.iter().enumerate() {
        if own.as_slice() == name {
            found = found.with(Meaning::Literal(literals[j]));
        }
    }
    found
}
