// What is answered to a line that was read, from what it was told of the lent tables: whether it is refused, or its findings.
#![tactic(auto)]

pub mod attach;
pub mod call;
pub mod declare;
pub mod detach;
pub mod end;
pub mod enter;
pub mod identify;
pub mod leave;
mod places;
pub mod returns;
pub mod state;
mod steps;
