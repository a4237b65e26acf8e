//! The ground that every crate of the log stands on: the numbers and their names, the shape of a
//! cluster, the bytes that frames hold, and the outside as two traits, a source and a sink of bytes.
//!
//! A source and a sink may tell their bytes, and count their faults. What a call promises of bytes
//! holds where they are told, and a fault is answered only where the count of faults rose.
#![tactic(auto)]

mod big_endian;
mod cluster_shape;
mod listed;
mod machine;
mod numbers;
mod outbox;
mod outside;
mod owned;
mod pieces;
mod sending;
mod sinks;
mod sources;
mod spares;

pub use big_endian::{
    number_read, number_u16, number_u32, number_u64, number_written, put_bytes, put_u8, put_u16,
    put_u32, put_u64,
};
pub use cluster_shape::{BadConfig, Config};
pub use machine::{Committed, Machine};
pub use numbers::{Ballot, Client, NodeId, Number, Place, Position, Replica, Shard, Slot};
pub use outbox::Outbox;
pub use outside::{Failed, Memory, Sink, Source};
pub use owned::{Bytes, List, Text};
pub use pieces::{PieceReader, Stop};
pub use sending::{SendFault, send};
pub use sinks::MemorySink;
pub use sources::MemorySource;

#[cfg(test)]
mod machine_tests;
#[cfg(test)]
mod tests;
