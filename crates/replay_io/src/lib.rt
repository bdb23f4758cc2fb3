//! The outside: stores to read from and sinks to write to, in memory and over the real files and standard output.
#![tactic(auto)]

mod asked;
mod calls;
mod faults;
mod file_store;
mod memory_sink;
mod memory_store;
mod out_sink;
mod sink;
mod steady_sink;
mod steady_store;
mod store;
mod stored;
mod system;
mod whole_files;

pub use faults::{Failed, ReadFault};
pub use file_store::FileStore;
pub use memory_sink::MemorySink;
pub use memory_store::MemoryStore;
pub use out_sink::OutSink;
pub use sink::Sink;
pub use steady_sink::SteadySink;
pub use steady_store::SteadyStore;
pub use store::Store;
pub use stored::StoredFile;
pub use whole_files::{ReadEnd, read_all, write_all_of};

#[cfg(test)]
mod shaky;
#[cfg(test)]
mod tests;
