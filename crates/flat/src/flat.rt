// Answers as structs of numbers, for C: 0 with what was accepted, or the number of a refusal with zeros.
ghost use Rattle.std.specs.Prelude.{◌≡◌};
ghost use Rattle.number.specs.Split.{parts_in};
ghost use Rattle.number.specs.FoldCall.{folded_in};
ghost use Rattle.conversion.specs.ConvertCall.{converted_in};
ghost use Rattle.interpolation.specs.InterpolateCall.{interpolated_in};
ghost use Rattle.counts.specs.Calls.{choice_in, counts_in, depth_in, bits_in, largest_in};
ghost use Rattle.lists.specs.ListCall.{listed_in};
ghost use Rattle.rebuild.specs.RebuildCall.{rebuilt_in};
ghost use Rattle.walk.specs.Trial.{trial_in};
ghost use Rattle.walk.specs.Chain.{chain_in};
ghost use Rattle.plan.specs.PlanSizes.{plan_sizes_in};
ghost use Rattle.flat.specs.Flat.{flat_parts, flat_split, flat_counts, flat_depth, flat_bits, flat_degree, flat_folded, flat_converted, value_in, interval_in};
ghost use Rattle.flat.specs.Flat.{flat_interpolated, flat_listed, flat_rebuilt, flat_sizes, flat_trial, flat_chain};

use firrozun::{Fold, Interpolation, Interval, Listing, Pair, Refusal, Sizes, Split};

#[repr(C)]
#[derive(Clone, Copy)]
pub struct CParts {
    pub refusal: u8,
    pub a: usize,
    pub b: usize,
    pub distance: usize,
}

impl From<Result<Split, Refusal>> for CParts {
    ghost from_gives = { λ r c. c ≡ flat_parts (parts_in r) };

    fn from(answer: Result<Split, Refusal>) -> Self {
        match answer {
            Ok(split) => CParts {
                refusal: 0,
                a: split.a,
                b: split.b,
                distance: split.distance,
            },
            Err(refusal) => CParts {
                refusal: u8::from(refusal),
                a: 0,
                b: 0,
                distance: 0,
            },
        }
    }
}

#[repr(C)]
#[derive(Clone, Copy)]
pub struct CSplit {
    pub refusal: u8,
    pub split: usize,
}

impl From<Result<usize, Refusal>> for CSplit {
    ghost from_gives = { λ r c. c ≡ flat_split (choice_in r) };

    fn from(answer: Result<usize, Refusal>) -> Self {
        match answer {
            Ok(split) => CSplit { refusal: 0, split },
            Err(refusal) => CSplit {
                refusal: u8::from(refusal),
                split: 0,
            },
        }
    }
}

#[repr(C)]
#[derive(Clone, Copy)]
pub struct CCounts {
    pub refusal: u8,
    pub ct: usize,
    pub pt: usize,
}

impl From<Result<Pair, Refusal>> for CCounts {
    ghost from_gives = { λ r c. c ≡ flat_counts (counts_in r) };

    fn from(answer: Result<Pair, Refusal>) -> Self {
        match answer {
            Ok(pair) => CCounts {
                refusal: 0,
                ct: pair.ct,
                pt: pair.pt,
            },
            Err(refusal) => CCounts {
                refusal: u8::from(refusal),
                ct: 0,
                pt: 0,
            },
        }
    }
}

#[repr(C)]
#[derive(Clone, Copy)]
pub struct CDepth {
    pub refusal: u8,
    pub depth: usize,
}

impl From<Result<usize, Refusal>> for CDepth {
    ghost from_gives = { λ r c. c ≡ flat_depth (depth_in r) };

    fn from(answer: Result<usize, Refusal>) -> Self {
        match answer {
            Ok(depth) => CDepth { refusal: 0, depth },
            Err(refusal) => CDepth {
                refusal: u8::from(refusal),
                depth: 0,
            },
        }
    }
}

#[repr(C)]
#[derive(Clone, Copy)]
pub struct CBits {
    pub refusal: u8,
    pub bits: usize,
}

impl From<Result<usize, Refusal>> for CBits {
    ghost from_gives = { λ r c. c ≡ flat_bits (bits_in r) };

    fn from(answer: Result<usize, Refusal>) -> Self {
        match answer {
            Ok(bits) => CBits { refusal: 0, bits },
            Err(refusal) => CBits {
                refusal: u8::from(refusal),
                bits: 0,
            },
        }
    }
}

#[repr(C)]
#[derive(Clone, Copy)]
pub struct CDegree {
    pub refusal: u8,
    pub degree: usize,
}

impl From<Result<usize, Refusal>> for CDegree {
    ghost from_gives = { λ r c. c ≡ flat_degree (largest_in r) };

    fn from(answer: Result<usize, Refusal>) -> Self {
        match answer {
            Ok(degree) => CDegree { refusal: 0, degree },
            Err(refusal) => CDegree {
                refusal: u8::from(refusal),
                degree: 0,
            },
        }
    }
}

#[repr(C)]
#[derive(Clone, Copy)]
pub struct CFolded {
    pub refusal: u8,
    pub transform: u8,
    pub parity: u8,
    pub count: usize,
}

impl From<Result<Fold, Refusal>> for CFolded {
    ghost from_gives = { λ r c. c ≡ flat_folded (folded_in r) };

    fn from(answer: Result<Fold, Refusal>) -> Self {
        match answer {
            Ok(fold) => CFolded {
                refusal: 0,
                transform: u8::from(fold.transform),
                parity: u8::from(fold.parity),
                count: fold.count,
            },
            Err(refusal) => CFolded {
                refusal: u8::from(refusal),
                transform: 0,
                parity: 0,
                count: 0,
            },
        }
    }
}

#[repr(C)]
#[derive(Clone, Copy)]
pub struct CConverted {
    pub refusal: u8,
    pub count: usize,
}

impl From<Result<usize, Refusal>> for CConverted {
    ghost from_gives = { λ r c. c ≡ flat_converted (converted_in r) };

    fn from(answer: Result<usize, Refusal>) -> Self {
        match answer {
            Ok(count) => CConverted { refusal: 0, count },
            Err(refusal) => CConverted {
                refusal: u8::from(refusal),
                count: 0,
            },
        }
    }
}

// A value, or a refusal with +0.
#[repr(C)]
#[derive(Clone, Copy)]
pub struct CValue {
    pub refusal: u8,
    pub value: f64,
}

impl From<Result<f64, Refusal>> for CValue {
    ghost from_gives = { λ r c. c ≡ value_in r };

    fn from(answer: Result<f64, Refusal>) -> Self {
        match answer {
            Ok(value) => CValue { refusal: 0, value },
            Err(refusal) => CValue {
                refusal: u8::from(refusal),
                value: 0.0,
            },
        }
    }
}

// An interval with its change pair, or a refusal with +0 in every field.
#[repr(C)]
#[derive(Clone, Copy)]
pub struct CInterval {
    pub refusal: u8,
    pub a: f64,
    pub b: f64,
    pub u: f64,
    pub w: f64,
}

impl From<Result<Interval, Refusal>> for CInterval {
    ghost from_gives = { λ r c. c ≡ interval_in r };

    fn from(answer: Result<Interval, Refusal>) -> Self {
        match answer {
            Ok(interval) => CInterval {
                refusal: 0,
                a: interval.a,
                b: interval.b,
                u: interval.u,
                w: interval.w,
            },
            Err(refusal) => CInterval {
                refusal: u8::from(refusal),
                a: 0.0,
                b: 0.0,
                u: 0.0,
                w: 0.0,
            },
        }
    }
}

#[repr(C)]
#[derive(Clone, Copy)]
pub struct CInterpolated {
    pub refusal: u8,
    pub count: usize,
    pub parity: u8,
    pub a: f64,
    pub b: f64,
    pub u: f64,
    pub w: f64,
}

impl From<Result<Interpolation, Refusal>> for CInterpolated {
    ghost from_gives = { λ r c. c ≡ flat_interpolated (interpolated_in r) };

    fn from(answer: Result<Interpolation, Refusal>) -> Self {
        match answer {
            Ok(polynomial) => CInterpolated {
                refusal: 0,
                count: polynomial.count,
                parity: u8::from(polynomial.parity),
                a: polynomial.interval.a,
                b: polynomial.interval.b,
                u: polynomial.interval.u,
                w: polynomial.interval.w,
            },
            Err(refusal) => CInterpolated {
                refusal: u8::from(refusal),
                count: 0,
                parity: 0,
                a: 0.0,
                b: 0.0,
                u: 0.0,
                w: 0.0,
            },
        }
    }
}

#[repr(C)]
#[derive(Clone, Copy)]
pub struct CListed {
    pub refusal: u8,
    pub degree: usize,
    pub base: usize,
    pub coefficients: usize,
    pub lists: usize,
}

impl From<Result<Listing, Refusal>> for CListed {
    ghost from_gives = { λ r c. c ≡ flat_listed (listed_in r) };

    fn from(answer: Result<Listing, Refusal>) -> Self {
        match answer {
            Ok(listing) => CListed {
                refusal: 0,
                degree: listing.degree,
                base: listing.base,
                coefficients: listing.coefficients,
                lists: listing.lists,
            },
            Err(refusal) => CListed {
                refusal: u8::from(refusal),
                degree: 0,
                base: 0,
                coefficients: 0,
                lists: 0,
            },
        }
    }
}

#[repr(C)]
#[derive(Clone, Copy)]
pub struct CRebuilt {
    pub refusal: u8,
    pub coefficients: usize,
}

impl From<Result<usize, Refusal>> for CRebuilt {
    ghost from_gives = { λ r c. c ≡ flat_rebuilt (rebuilt_in r) };

    fn from(answer: Result<usize, Refusal>) -> Self {
        match answer {
            Ok(coefficients) => CRebuilt {
                refusal: 0,
                coefficients,
            },
            Err(refusal) => CRebuilt {
                refusal: u8::from(refusal),
                coefficients: 0,
            },
        }
    }
}

#[repr(C)]
#[derive(Clone, Copy)]
pub struct CSizes {
    pub refusal: u8,
    pub coefficients: usize,
    pub lists: usize,
    pub steps: usize,
}

impl From<Result<Sizes, Refusal>> for CSizes {
    ghost from_gives = { λ r c. c ≡ flat_sizes (plan_sizes_in r) };

    fn from(answer: Result<Sizes, Refusal>) -> Self {
        match answer {
            Ok(sizes) => CSizes {
                refusal: 0,
                coefficients: sizes.coefficients,
                lists: sizes.lists,
                steps: sizes.steps,
            },
            Err(refusal) => CSizes {
                refusal: u8::from(refusal),
                coefficients: 0,
                lists: 0,
                steps: 0,
            },
        }
    }
}

#[repr(C)]
#[derive(Clone, Copy)]
pub struct CTrial {
    pub refusal: u8,
    pub remainder: u64,
}

impl From<Result<u64, Refusal>> for CTrial {
    ghost from_gives = { λ r c. c ≡ flat_trial (trial_in r) };

    fn from(answer: Result<u64, Refusal>) -> Self {
        match answer {
            Ok(remainder) => CTrial {
                refusal: 0,
                remainder,
            },
            Err(refusal) => CTrial {
                refusal: u8::from(refusal),
                remainder: 0,
            },
        }
    }
}

#[repr(C)]
#[derive(Clone, Copy)]
pub struct CChain {
    pub refusal: u8,
    pub weight: u64,
}

impl From<Result<u64, Refusal>> for CChain {
    ghost from_gives = { λ r c. c ≡ flat_chain (chain_in r) };

    fn from(answer: Result<u64, Refusal>) -> Self {
        match answer {
            Ok(weight) => CChain { refusal: 0, weight },
            Err(refusal) => CChain {
                refusal: u8::from(refusal),
                weight: 0,
            },
        }
    }
}
