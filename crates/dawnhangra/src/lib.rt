// The face of the library: every public call. No function here has a requires: any input gets an answer or a refusal.
#![tactic(auto)]

pub use book::{read, write};
pub use clips::{clip, clip_bytes};
pub use hierarchy::{hierarchy, ladder};
pub use promise::{
    Asked, Clip, CrossedCount, CrossedQuestion, Kind, MOST_CLASSES, Refusal, RefusedBook, Reply,
    Session,
};
pub use session::{answer, fresh, next, open_pairs, tell};
