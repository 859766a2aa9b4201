// Bytes in lent buffers: one byte, a pair, a run of bytes, a number as text, what an input gives. No byte but these is
// changed.
#![tactic(auto)]

mod bytes;
mod input;
mod numbers;

pub use bytes::{put_byte, put_bytes, put_pair};
pub use input::fill;
pub use numbers::put_number;
