use ltl_closure::JobList;

/// Bodies that are to hold together on a tuple of lassos.
#[derive(Drop)]
pub struct Plan {
    /// How many lassos the tuple has: 1 to 16.
    pub vars: u8,
    /// For each formula its body, and for each variable of it which lasso that is, map by map.
    pub jobs: JobList,
}
