//! What a search is asked.

use cnf_frames::Inv;
use live_safe::SafeNet;

/// Which states with all facts have a step to one where all literals of the target are true.
#[derive(Clone, Copy)]
pub struct Question<'a> {
    pub safe: &'a SafeNet,
    pub facts: &'a Inv,
    pub target: &'a [u32],
}
