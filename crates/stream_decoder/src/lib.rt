//! A decode that takes its source as it goes.
#![tactic(auto)]

mod packets;
mod steps;
mod stream;
mod streamed;
mod whole;

pub use job_decoder;
pub use job_decoder::seq_decoder;
pub use stream::decode_source;
pub use streamed::Streamed;
