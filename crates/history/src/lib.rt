// What the judge's code shares with the definitions of the history.
#![tactic(auto)]

use words::Handle;

// A breach that was found: the accepted line's number, the rule, the place and the thing.
#[derive(Clone, Copy)]
pub struct Finding {
    pub line: u32,
    pub rule: u32,
    pub place: u32,
    pub thing: Handle,
}

// What is stated of an identity: its sort, 0 where nothing is, and whether it is static and final.
#[derive(Clone, Copy)]
pub struct Identity {
    pub sort: u64,
    pub isstatic: u64,
    pub isfinal: u64,
}
