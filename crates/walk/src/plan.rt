// A lent plan: its head, and its steps of four numbers each.
ghost use Rattle.std.specs.Prelude.{◌≡◌, ◌+◌, ◌*◌, ◌≤◌, length};
ghost use Rattle.walk.specs.Lent.{step_at};
ghost use Rattle.walk.specs.inside.Found.{found};
ghost use Rattle.walk.specs.inside.Instructions.{instruction_of};

use counts::SplitStrategy;
use number::{Basis, Interval, Parity, PolynomialInputTransform};

// What a plan is of, its costs, how many coefficients, lists and steps it has, and the interval of its polynomial, which nothing here reads.
#[derive(Clone, Copy)]
pub struct Head {
    pub basis: Basis,
    pub parity: Parity,
    pub strategy: SplitStrategy,
    pub transform: PolynomialInputTransform,
    pub degree: usize,
    pub base: usize,
    pub ct: usize,
    pub pt: usize,
    pub depth: usize,
    pub coefficients: usize,
    pub lists: usize,
    pub steps: usize,
    pub interval: Interval,
}

// A step as it stands in a buffer: its kind, and three numbers that the kind gives their meaning.
#[derive(Clone, Copy)]
pub struct Step {
    pub kind: usize,
    pub x: usize,
    pub y: usize,
    pub z: usize,
}

// What a step does: it makes power n of powers a and b, loads a list, or combines two waiting values by a power.
#[derive(Clone, Copy, Debug, PartialEq, Eq)]
pub enum Instruction {
    Make { n: usize, a: usize, b: usize },
    Load(usize),
    Combine { plain: bool, power: usize },
}

impl Step {
    // Returns what the step does, or `None` for a kind other than 1 to 4, and for a load or a combine whose third or fourth number is not 0.
    pub fn decode(self) -> Option<Instruction>
        ensures { found result ≡ instruction_of self }
    {
        let Step { kind, x, y, z } = self;
        match (kind, y, z) {
            (1, _, _) => Some(Instruction::Make { n: x, a: y, b: z }),
            (2, 0, 0) => Some(Instruction::Load(x)),
            (3, 0, 0) => Some(Instruction::Combine {
                plain: false,
                power: x,
            }),
            (4, 0, 0) => Some(Instruction::Combine {
                plain: true,
                power: x,
            }),
            _ => None,
        }
    }
}

// Returns step i of a buffer.
pub fn step_at(i: usize, steps: &[u16]) -> Step
    requires { 4 * i + 4 ≤ length steps.now }
    ensures { result ≡ step_at steps.now i }
{
    let at = 4 * i;
    Step {
        kind: usize::from(steps[at]),
        x: usize::from(steps[at + 1]),
        y: usize::from(steps[at + 2]),
        z: usize::from(steps[at + 3]),
    }
}
