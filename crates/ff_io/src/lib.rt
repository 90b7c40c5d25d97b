//! Where bytes come from and where they go: the traits [`Source`] and [`Sink`], their
//! implementations in memory, and the adapters over the readers and writers of std.
#![tactic(auto)]

mod adapters;
mod calls;
mod mem_sink;
mod mem_source;
mod stream;
mod traits;

pub use adapters::{ReadSource, WriteSink};
pub use mem_sink::MemSink;
pub use mem_source::MemSource;
pub use stream::{ReadStop, read_up_to, write_all};
pub use traits::{Failed, Sink, Source};
