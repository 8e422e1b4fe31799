//! Values, their orders and texts, lists that contracts see as lists, and the streams of the outside.
//!
//! The few types are `Value` with its column types `Ty`, the lists `Seq<T>` and `Text`, and the traits `Feed` and
//! `Sink` with their memory forms. Orders, `fits` and `print_value` are exactly the definitions of `specs/`; a memory
//! stream fails exactly at its listed calls; a copy equals what it was made of. Want of memory is `NoMemory`, and no
//! contract says when it comes. Every crate of the repository stands on this one.
#![tactic(auto)]

mod calls;
mod feed;
mod memory;
mod print;
mod seq;
mod sink;
mod text;
mod value;
mod write_buffer;

pub use calls::{Calls, Failed};
pub use feed::{Feed, MemFeed, StdFeed};
pub use memory::{Duplicate, NoMemory};
pub use print::print_value;
pub use seq::{Bytes, Nums, Row, Rows, Seq, Tys};
pub use sink::{MemSink, Sink, StdSink};
pub use text::{Text, Texts};
pub use value::{Fit, TEXT_LIMIT, Ty, Value, cmp_rows, cmp_values, fits};
pub use write_buffer::WriteBuffer;

#[cfg(test)]
mod tests;
