//! Sources and sinks of bytes: two traits whose contracts say which bytes are left and which are
//! held, loops that read to the end and write all, and sources and sinks over memory and over
//! std's readers and writers.
#![tactic(auto)]

mod copying;
mod errors;
mod fault_plan;
mod mem_sink;
mod mem_source;
mod reading;
mod sink;
mod source;
mod std_sink;
mod std_source;
mod uninterrupted;
mod writing;

pub use errors::Failed;
pub use mem_sink::MemSink;
pub use mem_source::MemSource;
pub use reading::{ReadErr, read_all};
pub use sink::Sink;
pub use source::Source;
pub use std_sink::StdSink;
pub use std_source::StdSource;
pub use writing::{WriteErr, write_all};
