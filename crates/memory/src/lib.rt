// What a memory promises: accesses, answers, the traits of program and data memories, and asking until answered.
#![tactic(auto)]

mod access;
mod byte_laws;
mod data_memory;
mod plain_memory;
mod program_memory;
mod promise;
mod request;
mod settling;

pub use access::{Access, Answer, Request};
pub use byte_laws::{plain_bytes, promises_plain_bytes};
pub use data_memory::DataMemory;
pub use plain_memory::PlainMemory;
pub use program_memory::ProgramMemory;
pub use promise::Memory;
pub use request::AsRequest;
pub use settling::{settle, settle_fetch};
