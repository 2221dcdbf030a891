//! Bodies that are to hold together, under maps of their variables.

ghost use Rattle.std.specs.Prelude.{◌≡◌, IfOk};
ghost use Rattle.ltl_closure.specs.Jobs.{plain_job, plain_jobs};

use hy_base::{List, M};
use hy_formula::Body;
use std::alloc::Global;

/// For each variable of a body, by its number, the variable that it stands for.
pub type VariableMap = List<u8>;

/// Variable maps.
pub type MapList = List<VariableMap>;

/// A body that is to hold, or not to hold where `positive` is false, under each of some maps.
#[derive(Drop)]
pub struct Job {
    pub body: Body,
    pub positive: bool,
    pub maps: MapList,
}

/// Bodies that are to hold together.
pub type JobList = List<Job>;

impl Job {
    /// An equal job, in time linear in its size.
    pub fn copy(&self, alloc: Global) -> M<Job>
        ensures { IfOk result (λ made. plain_job made ≡ plain_job self.now) }
    {
        Ok(Job {
            body: self.body.copy(alloc)?,
            positive: self.positive,
            maps: self.maps.copy(alloc)?,
        })
    }
}

/// Equal jobs in the same order, in time linear in their size.
pub fn copy_jobs(alloc: Global, jobs: &[Job]) -> M<JobList>
    ensures { IfOk result (λ made. plain_jobs made ≡ plain_jobs jobs.now) }
{
    let mut made = List::new(alloc);
    for job in jobs {
        made.push(job.copy(alloc)?)?;
    }
    Ok(made)
}
