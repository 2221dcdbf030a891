//! Whether traces violate formulas: from files to answers.

ghost use Rattle.std.specs.Prelude.{◌≡◌, ◌≤◌, ◌<◌, ◌^◌, ℕ, Bool, All, List, [], ◌∷◌, length, Err};
ghost use Rattle.hy_base.specs.Shelf.{KeepsShelf};
ghost use Rattle.hy_base.specs.declared.reading.TheConstants.{BYTES_LIMIT};
ghost use Rattle.hy_formula.specs.declared.formula.Formula.{Formula};
ghost use Rattle.hy_formula.specs.Formulas.{plain_formulas};
ghost use Rattle.rv_core.specs.Built.{HasFewQuantifiers, IsNewRefusal};
ghost use Rattle.hy_run.specs.Runs.{Follows};
ghost use Rattle.rv_tool.specs.Monitoring.{IsOutcome};
ghost use Rattle.rv_tool.specs.Rules.{rv_rules};
ghost use Rattle.rv_tool.specs.declared.verdict.Question.TheVariants.{Monitor, MonitorMade};
ghost use Rattle.rv_tool.specs.Watching.{AreLeft, count_left, AreNumbered, OrFault, IsLinesAnswer};

use crate::refusals::new_refusal;
use crate::source::Source;
use crate::verdict::RvAnswer;
use crate::watching::watch;
use hy_base::Shelf;
use hy_files::{FileFault, bytes_in, specs_in};
use hy_finite::Lengths;
use hy_formula::NameTable;
use hy_read::SpecList;
use hy_run::{Refusal, file_refusal};
use made_traces::make_traces;
use rv_core::{Rv, RvNewError};
use std::alloc::Global;

/// Most quantifiers of a formula.
const MOST_QUANTIFIERS: u8 = 4;

/// Whether the traces of a file violate the formulas of another under a rule of lengths. Their names
/// are added to the empty table. Dominated traces are dropped where `drop`.
pub fn monitor<S: Shelf>(
    alloc: Global,
    shelf: &mut S,
    specs: &str,
    traces: &str,
    lengths: Lengths,
    drop: bool,
    names: &mut NameTable,
) -> RvAnswer
    requires { names.old ≡ [] }
    ensures keeps { KeepsShelf S.Shelf shelf.old shelf.new }
    ensures follows { Follows rv_rules S.Shelf shelf.old shelf.new (Monitor lengths drop)
        (specs.now ∷ traces.now ∷ []) names.new result }
{
    let specs = match specs_in(alloc, shelf, specs, MOST_QUANTIFIERS, names) {
        Ok(specs) => specs,
        Err(fault) => return Err(file_refusal(0, fault)),
    };
    match bytes_in(alloc, shelf, traces) {
        Ok(bytes) => judge_lines(alloc, &specs, lengths, drop, bytes.as_slice(), names),
        Err(fault) => Err(file_refusal(1, fault)),
    }
}

/// Whether `count` made traces violate the formulas of a file under a rule of lengths. The names of
/// the formulas are added to the empty table. Dominated traces are dropped where `drop`.
pub fn monitor_made<S: Shelf>(
    alloc: Global,
    shelf: &mut S,
    specs: &str,
    count: u32,
    lengths: Lengths,
    drop: bool,
    names: &mut NameTable,
) -> RvAnswer
    requires empty { names.old ≡ [] }
    requires few { count < 2 ^ 31 }
    ensures keeps { KeepsShelf S.Shelf shelf.old shelf.new }
    ensures follows { Follows rv_rules S.Shelf shelf.old shelf.new (MonitorMade count lengths drop)
        (specs.now ∷ []) names.new result }
{
    let formulas = match specs_in(alloc, shelf, specs, MOST_QUANTIFIERS, names) {
        Ok(formulas) => formulas,
        Err(fault) => return Err(file_refusal(0, fault)),
    };
    let Ok(traces) = make_traces(alloc, count, names) else {
        return Err(Refusal::Memory);
    };
    let source = Source::of_traces(traces.as_slice());
    judge(alloc, &formulas, lengths, drop, &source)
}

/// What formulas come to on the events of lines, or the answer for lines that are refused.
fn judge_lines(
    alloc: Global,
    specs: &SpecList,
    lengths: Lengths,
    drop: bool,
    bytes: &[u8],
    names: &NameTable,
) -> RvAnswer
    requires quantifiers { All HasFewQuantifiers specs.now }
    requires countable { length specs.now < 2 ^ 32 }
    requires few { length bytes.now ≤ BYTES_LIMIT }
    ensures { IsLinesAnswer lengths drop (plain_formulas specs.now) names.now bytes.now result }
{
    let source = Source::of_lines(bytes, names);
    judge(alloc, specs, lengths, drop, &source)
}

/// The first line of a source at fault; or where there is none, what formulas come to on its events.
fn judge(alloc: Global, specs: &SpecList, lengths: Lengths, drop: bool, source: &Source) -> RvAnswer
    requires quantifiers { All HasFewQuantifiers specs.now }
    requires countable { length specs.now < 2 ^ 32 }
    requires few { count_left source.now < 2 ^ 31 }
    requires numbered { AreNumbered source.now }
    ensures { OrFault source.now result
        (IsOutcome lengths drop (plain_formulas specs.now) (AreLeft source.now) result) }
{
    match Rv::new(alloc, specs.as_slice(), lengths, drop) {
        Ok(mut rv) => watch(alloc, &mut rv, source),
        Err(error) => unwatched(alloc, error, source),
    }
}

/// The first line of a source at fault; or where there is none, the answer for formulas that are not
/// monitored.
fn unwatched(alloc: Global, error: RvNewError, source: &Source) -> RvAnswer
    ensures { (lengths : Lengths) (drop : Bool) (formulas : List Formula)
        → IsNewRefusal formulas error → OrFault source.now result
        (IsOutcome lengths drop (plain_formulas formulas) (AreLeft source.now) result) }
{
    match source.check(alloc) {
        Ok(()) => Err(new_refusal(error)),
        Err(fault) => Err(file_refusal(1, FileFault::from(fault))),
    }
}
