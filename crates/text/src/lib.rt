// Rows of bytes: pieces between separators, names, whole numbers and times.
#![tactic(auto)]

mod bytes;
mod flaw;
mod name;
mod named;
mod numbers;
mod pieces;

pub use bytes::same_bytes;
pub use flaw::Flaw;
pub use name::Name;
pub use named::is_name;
pub use numbers::{read_time, read_whole};
pub use pieces::{after, cut, split_name};
