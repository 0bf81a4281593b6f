//! The edge to the outside: folders, sources and sinks, whose contracts say which bytes they hold, where they
//! tell that, and count their faults. Beside the traits stand the fakes that hold their bytes in memory, and
//! the adapters to the files and streams of the system.
#![tactic(auto)]

mod calls;
mod copying;
mod counting;
mod disk_folder;
mod folder;
mod folder_source;
mod mem_folder;
mod mem_sink;
mod mem_source;
mod offering;
mod open_file;
mod sink;
mod source;
mod stream_sink;
#[cfg(test)]
mod tests;

pub use disk_folder::DiskFolder;
pub use folder::{Failed, Folder, Got};
pub use folder_source::FolderSource;
pub use mem_folder::MemFolder;
pub use mem_sink::MemSink;
pub use mem_source::MemSource;
pub use offering::offer;
pub use sink::Sink;
pub use source::Source;
pub use stream_sink::StreamSink;
