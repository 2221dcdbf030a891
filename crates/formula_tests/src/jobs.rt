//! Copies of the jobs of a plan, which no program makes.

ghost use Rattle.std.specs.Prelude.{◌≤◌, length};

use ea_reduce::reduce;
use hy_formula::{Body, NameTable};
use hy_read::read_formula;
use ltl_closure::{Job, JobList, copy_jobs};
use std::alloc::Global;
use std::test::Fail;

/// A copy of the jobs of the plan of a formula.
fn copied(alloc: Global, text: &[u8]) -> Result<JobList, Fail>
    requires { length text.now ≤ 100 }
{
    let formula = read_formula(alloc, text, 8, &mut NameTable::new(alloc)?)?;
    Ok(copy_jobs(alloc, reduce(alloc, &formula)?.jobs.as_slice())?)
}

/// Whether a conjunction is to hold where both of its variables stand for the first lasso.
fn joins_variables(job: &Job) -> bool {
    match job.maps.as_slice() {
        [map] => {
            matches!(job.body, Body::And(_, _))
                && job.positive
                && map.as_slice() == [0, 0].as_slice()
        }
        _ => false,
    }
}

#[test]
fn copies_jobs(rt: HostRuntime) -> Result<(), Fail> {
    let copies = copied(rt.alloc(), b"exists p. forall q. a_p & !a_q")?;
    assert!(rt; matches!(copies.as_slice(), [job] if joins_variables(job)));
    Ok(())
}
