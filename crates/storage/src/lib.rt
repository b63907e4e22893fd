// Memories over the caller's words and bytes, from address 0, that never wait.
#![tactic(auto)]

mod bytes;
mod limit;
mod paged_ram;
mod ram;
mod rom;

pub use bytes::RAM_LIMIT;
pub use limit::LimitRefusal;
pub use paged_ram::PagedRam;
pub use ram::Ram;
pub use rom::{ROM_LIMIT, Rom};
