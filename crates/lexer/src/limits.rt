// The classes of bytes by name, so that every question about a byte is one comparison.
// The classes below are the digits of base ten, and those of base sixteen, each its value.

pub const DIGIT: u8 = 10;

pub const HEX: u8 = 16;

// The classes up to here are the letters, digits and `_`, and those with `.` `-` `$` too.
pub const WORD: u8 = 16;

pub const NAME: u8 = 17;

// White space, and any other byte.
pub const SPACE: u8 = 18;

pub const OTHER: u8 = 19;
