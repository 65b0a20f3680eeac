// The limits, each named once: the constants of specs/Limits.

// The greatest degree of plans, lists, folds, counts and MinMult.
pub const PLAN_LIMIT: usize = 4095;

// The most nodes, and as many marks.
pub const COUNT_LIMIT: usize = 4096;

// The greatest degree of other calls on a bare degree, and the greatest index to split.
pub const DEGREE_LIMIT: usize = 4294967295;

// The greatest sum of the magnitudes of whole coefficients.
pub const SUM_LIMIT: usize = 1073741824;

// The greatest bit scale.
pub const SCALE_LIMIT: usize = 65535;
