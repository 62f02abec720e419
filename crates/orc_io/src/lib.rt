//! Sources and sinks of bytes that count their faults.
//!
//! A [`Source`] gives bytes and a [`Sink`] takes them. Each keeps a count of how often the outside
//! has failed, so that a caller's contract can say of a failure that it came from outside.
//! [`read_all`] and [`write_all`] work over every source and sink. [`Piece`], [`Still`] and
//! [`Buffer`] stand in memory, and [`ReadEdge`] and [`WriteEdge`] adapt std's readers and writers.
#![tactic(auto)]

mod edge;
mod memory;
mod sink;
mod source;

pub use edge::{ReadEdge, WriteEdge};
pub use memory::{Buffer, Piece, Still};
pub use sink::{PutFault, Sink, write_all};
pub use source::{Failed, Source, TakeFault, read_all};
