//! Sources and sinks of bytes: what they have left or were given, where they tell it, and how often
//! they failed.
#![tactic(auto)]

mod edges;
mod memory_sink;
mod memory_source;
mod page;
mod pieces;
mod reading;
mod schedule;
mod std_edges;
mod steady;
mod writing;

pub use edges::{Failed, Sink, Source};
pub use memory_sink::MemorySink;
pub use memory_source::MemorySource;
pub use page::Page;
pub use reading::{InputError, read_all};
pub use std::alloc::AllocError as NoMemory;
pub use std_edges::{StdSink, StdSource};
pub use steady::{SteadySink, SteadySource};
pub use writing::{WriteFault, write_bytes};
