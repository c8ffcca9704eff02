// The refusals in numbers, for C: that of the first question of document 01 that is answered no. In
// the code they are the cases of `Refusal`.
pub const READING: u32 = 1;

pub const TOO_LARGE: u32 = 2;

pub const OUTSIDE: u32 = 3;

pub const EARLY: u32 = 4;

pub const QUEUE_ROOM: u32 = 5;

pub const OPENER_ROOM: u32 = 6;

pub const BRACE: u32 = 7;

pub const LABEL_ROOM: u32 = 8;

pub const EVENT_ROOM: u32 = 9;
