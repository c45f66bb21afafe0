// A guide of lent rows: words beside them that tell where a row stands, so that it is found without a look at all of them. Whoever holds the rows for many lines fills one and keeps it.
#![tactic(auto)]

mod listing;
pub mod pins;
pub mod references;
mod spread;
mod word;
