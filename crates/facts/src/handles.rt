// In a handle the remainder by 4 is its kind.
use words::Handle;

pub const KINDS: Handle = 4;

pub const IDENTITY: Handle = 0;

pub const LOCAL: Handle = 1;

pub const GLOBAL: Handle = 2;

pub const WEAK: Handle = 3;
