//! A step that is chosen place by place.

/// What is chosen of a step so far, with the code of it, so that the last place is stepped before
/// anything is put there.
#[derive(Clone, Copy)]
pub(crate) struct Choice {
    /// The state before it.
    pub(crate) q: u32,
    /// At how many places it is chosen.
    pub(crate) count: usize,
    /// The code of the letters that are taken there.
    pub(crate) code: u32,
    /// Whether there is one.
    pub(crate) some_letter: bool,
}
