// What a line is told of the lent tables: looked up once, handed on by value.
#![tactic(auto)]

pub mod call;
pub mod declare;
pub mod detach;
pub mod end;
pub mod enter;
pub mod identify;
pub mod leave;
pub mod returns;
mod seen;
pub mod spot;
pub mod state;
