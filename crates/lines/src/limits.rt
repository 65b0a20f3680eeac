// The limits of a line, each named once: the constants of specs/Limits.

// The most bytes of a line, without its line feed.
pub const LINE_LIMIT: usize = 65535;

// The most digits of a coefficient.
pub const DIGIT_LIMIT: usize = 18;
