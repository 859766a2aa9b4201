// The calls hierarchy and ladder. Neither has a requires: any class count, tally, table, class numbers and buffers get
// an answer or a refusal.
#![tactic(auto)]

mod groups;
mod ladders;
mod rungs;

pub use groups::hierarchy;
pub use ladders::ladder;
