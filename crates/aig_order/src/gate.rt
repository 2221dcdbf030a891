/// An and of a text: the literal of its variable, and the literals whose conjunction it is. Literal
/// 2v says that variable v is true, 2v + 1 that it is false.
#[derive(Clone, Copy, Debug)]
pub struct Gate {
    pub lhs: u32,
    pub left: u32,
    pub right: u32,
}
