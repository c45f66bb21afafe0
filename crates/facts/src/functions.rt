// The functions that do more than take places and give a result, by their numbers.
pub const PUSH_LOCAL_FRAME: u32 = 19;

pub const POP_LOCAL_FRAME: u32 = 20;

pub const DELETE_GLOBAL_REF: u32 = 22;

pub const DELETE_LOCAL_REF: u32 = 23;

pub const ENSURE_LOCAL_CAPACITY: u32 = 26;

pub const GET_OBJECT_CLASS: u32 = 31;

pub const MONITOR_ENTER: u32 = 217;

pub const MONITOR_EXIT: u32 = 218;

pub const DELETE_WEAK_GLOBAL_REF: u32 = 227;
