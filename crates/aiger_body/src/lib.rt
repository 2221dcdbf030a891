//! Circuit texts: which bytes are which net, and what is wrong with all others.
#![tactic(auto)]

mod body;
mod content;
mod deltas;
mod error;
mod header;
pub mod laws;
mod lines;
mod section;
mod text;
mod uses;

pub use body::{Body, read_body};
pub use content::{Content, Latch};
pub use error::AigerError;
pub use header::Header;
pub use text::{is_whole, line_at, text_of, word_len};
