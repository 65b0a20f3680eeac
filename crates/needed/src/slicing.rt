// A degree with the split at which it is cut into slices.
ghost use Rattle.needed.specs.inside.Planned.{Planned};

// A degree from 1 to 4,095, and a split from 1 to 12: its slices are shorter than the base, 2^split.
#[derive(Clone, Copy)]
pub struct Slicing {
    pub degree: usize,
    pub split: usize,
    ghost planned: { Planned degree split },
}
