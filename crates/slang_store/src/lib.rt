//! The outside as the compiler sees it: files that are read and put by name, and a sink that takes bytes, in memory
//! and on the host.
#![tactic(auto)]

mod files;
mod host_folder;
mod host_out;
mod laws;
mod memory_files;
mod memory_sink;
mod sink;

pub use files::{FileFault, Files, Found};
pub use host_folder::HostFolder;
pub use host_out::HostOut;
pub use laws::an_entry_changes_one_name;
pub use memory_files::MemoryFiles;
pub use memory_sink::MemorySink;
pub use sink::{Failed, Sink, write_all};
