// The places of the step table, by the page's names. An idle thread's place is 0. Numbers and no enum: document 01 asks for one match on them, with ranges.
pub const P1: u32 = 1;

pub const P2: u32 = 2;

pub const P3: u32 = 3;

pub const P4: u32 = 4;

pub const P5: u32 = 5;

pub const P6: u32 = 6;

pub const P7: u32 = 7;

pub const P8: u32 = 8;

pub const P9: u32 = 9;

pub const P10: u32 = 10;

pub const T1: u32 = 11;

pub const T2: u32 = 12;

pub const T3: u32 = 13;

pub const T4: u32 = 14;

pub const T5: u32 = 15;

pub const T6: u32 = 16;

pub const T7: u32 = 17;

pub const T8: u32 = 18;

pub const T9: u32 = 19;

pub const T10: u32 = 20;
