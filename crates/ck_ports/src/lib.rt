//! What the program reads and writes: files by name and a sink, on the host or in memory.
#![tactic(auto)]

mod calls;
mod fault;
mod fault_count;
mod file_map;
mod files;
mod host_files;
mod host_sink;
mod mem_files;
mod mem_sink;
mod port_end;
mod read_end;
mod sink;
mod transfer;

pub use files::{Files, Mode};
pub use host_files::HostFiles;
pub use host_sink::HostSink;
pub use mem_files::MemFiles;
pub use mem_sink::MemSink;
pub use port_end::PortEnd;
pub use read_end::ReadEnd;
pub use sink::Sink;
pub use transfer::{MAX_FILE_BYTES, read_all, write_all, write_file};

#[cfg(test)]
mod tests;
