// The open items of a line's thread, as the judge tells and moves them.
pub use events::items::{move_item, thread_of};
