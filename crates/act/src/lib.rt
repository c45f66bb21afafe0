// What an accepted line does to the lent tables, all but the open items.
#![tactic(auto)]

pub mod call;
pub mod declare;
pub mod detach;
pub mod end;
pub mod enter;
mod frames;
pub mod identify;
pub mod leave;
pub mod owner;
pub mod returns;
pub mod state;
