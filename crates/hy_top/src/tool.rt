//! Which tool runs.

/// A tool, by its name.
#[derive(Clone, Copy)]
pub enum Tool {
    EaHyper,
    RvHyper,
    McHyper,
}
