// The limits of answers, each named once: the constants of specs/Limits.

// Bytes of a line that are kept.
pub const LINE_ROOM: usize = 65536;

// Coefficients of a line that are kept.
pub const COEFFICIENT_ROOM: usize = 4097;

// Places for the lists and the boundaries of every plan.
pub const LIST_ROOM: usize = 4096;

// Places for the steps of every plan.
pub const STEP_ROOM: usize = 49152;

// The most bytes of an answer.
pub const TEXT_LIMIT: usize = 307311;

// Places for text.
pub const TEXT_ROOM: usize = 1048576;
