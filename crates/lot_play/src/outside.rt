//! The outside: folders that documents are read from and sinks that answers are written to, in memory and real.
mod folder;
mod real_folder;
mod real_sink;
mod sink;
mod sure_folder;
mod sure_sink;

pub use folder::Folder;
pub use real_folder::RealFolder;
pub use real_sink::RealSink;
pub use sink::{Sink, SinkRefusal};
pub use sure_folder::SureFolder;
pub use sure_sink::SureSink;
