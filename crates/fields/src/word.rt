// The words that say what stands under bars, each by its last letter: `N`, `B`, `B,C`, `B,R`.
pub const NOTHING: usize = b'N' as usize;

pub const LINE: usize = b'B' as usize;

pub const CENTRE: usize = b'C' as usize;

pub const RIGHT: usize = b'R' as usize;
