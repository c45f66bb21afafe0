// The words that all definitions share, and the type of what a line numbers.
#![tactic(auto)]

// A handle; identities, buffers and envs are numbered alike.
pub type Handle = u64;

// They go up to here.
pub const LARGEST: Handle = 18446744073709551615;
