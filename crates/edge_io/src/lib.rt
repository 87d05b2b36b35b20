//! The outside of the decoder: where its bytes come from, where they go, and who watches its jobs.
#![tactic(auto)]

mod buffered;
mod calls;
mod gate;
mod memory;
mod prefixed;
mod read;
mod sink;
mod source;
mod system;
mod write;

pub use buffered::Buffered;
pub use gate::{Gate, OpenGate};
pub use memory::{MemSink, MemSource};
pub use prefixed::Prefixed;
pub use read::{ReadError, read_all};
pub use sink::{PutFault, Sink};
pub use source::{Failed, Source};
pub use system::{StdSink, StdSource};
pub use write::put_all;
