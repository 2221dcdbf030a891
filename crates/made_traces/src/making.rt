//! Made traces as a list.

ghost use Rattle.std.specs.Prelude.{◌≡◌, IfOk};
ghost use Rattle.made_traces.specs.MadeTraces.{made_traces};

use crate::generator::Generator;
use hy_base::M;
use hy_finite::TraceList;
use hy_formula::NameTable;
use std::alloc::Global;

/// How many lengths of traces there are, which come in turn.
const LENGTHS: usize = 4;

/// The first `n` made traces, in linear time. Their signals are `i` and `o`, of which one that the
/// table lacks is passed over. Memory is the only refusal.
///
/// A sequence of numbers starts at 1, and each number x is followed by
/// (x * 1,103,515,245 + 12,345) mod 2^31. The first letter is given by the number behind the 1, and
/// each further letter by the next one: both signals hold where x div 65,536 is odd, and else none.
/// Trace k, counted from 0, takes the next 1 + (k mod 4) letters.
pub fn make_traces(alloc: Global, n: u32, names: &NameTable) -> M<TraceList>
    ensures { IfOk result (λ traces. traces ≡ made_traces names.now n) }
{
    let mut generator = Generator::new(names);
    let mut traces = TraceList::new(alloc);
    for k in 0..n {
        let length = 1 + k as usize % LENGTHS;
        traces.push(generator.next_trace(alloc, length)?)?;
    }
    Ok(traces)
}
