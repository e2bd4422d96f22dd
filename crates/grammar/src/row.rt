// The rows of the grammar by name. No order matters, since the longest letters that match name a row: a new row takes the next number.
pub const LENGTH: usize = 0;

pub const WIDTH: usize = 1;

pub const ORIGIN: usize = 2;

pub const ZT: usize = 3;

pub const ZB: usize = 4;

pub const LO: usize = 5;

pub const LE: usize = 6;

pub const LW: usize = 7;

pub const FRAME: usize = 8;

pub const TEXT: usize = 9;

pub const BARS: usize = 10;

pub const GG: usize = 11;

pub const FS: usize = 12;

pub const FE: usize = 13;

pub const FR: usize = 14;

pub const FK: usize = 15;

pub const GK: usize = 16;

pub const FI: usize = 17;

pub const GI: usize = 18;

pub const FP: usize = 19;

pub const GM: usize = 20;

pub const VC: usize = 21;

pub const VARIABLE: usize = 22;

pub const COUNTER: usize = 23;

pub const SET_VARIABLE: usize = 24;

pub const SET_COUNTER: usize = 25;

pub const PRINT: usize = 26;

pub const WHITE: usize = 27;

pub const LS: usize = 28;

pub const LSE: usize = 29;

pub const LSW: usize = 30;

pub const TS: usize = 31;

pub const TD: usize = 32;

pub const TT: usize = 33;

// Where the number stands that names a variable or a counter: behind the one letter of V and C, and behind the two of ?V and ?C.
pub const DECLARED_AT: usize = 1;

pub const ENTERED_AT: usize = 2;
