// The calls read and write. Neither has a requires: any bytes, class count, tally, table and buffer get an answer or
// a refusal.
#![tactic(auto)]

mod writing;

pub use reading::read;
pub use writing::write;
