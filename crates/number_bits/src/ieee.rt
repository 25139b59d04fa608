// The parts of floats by name (IEEE 754), of a binary32 and a binary64.
// The sign bit.
pub const SIGN32: u32 = 2147483648;

pub const SIGN64: u64 = 9223372036854775808;

// One of the exponent, which stands above the fraction: 2^23, 2^52. It is also the 1 in front of a fraction.
pub const UNIT32: u32 = 8388608;

pub const UNIT64: u64 = 4503599627370496;

// The exponent of infinity and NaN, and infinity.
pub const TOP32: u64 = 255;

pub const INFINITY64: u64 = 9218868437227405312;

// A NaN's quiet bit, the highest of its fraction.
pub const QUIET32: u64 = 4194304;

// What a fraction is multiplied by when it moves from the one to the other, 2^29; and how much more the other's bias is.
pub const MOVED: u64 = 536870912;

pub const BIAS: u64 = 896;
