//! What a search finds.

use hy_base::NumList;
use rank_check::Ranks;

/// A walk from the starting group, by its nodes: along the stem, and then round and round the
/// cycle, which is not empty.
#[derive(Drop)]
pub struct FairLasso {
    pub stem: NumList,
    pub cycle: NumList,
}

/// A fair walk, or ranks that rule one out.
#[derive(Drop)]
pub enum Found {
    Lasso(FairLasso),
    Ranks(Ranks),
}
