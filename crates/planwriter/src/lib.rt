// Writing plans into a caller's buffer.
#![tactic(auto)]

mod bytes;
pub mod rewrite;
mod source;
mod stops;
pub mod write;
