// The two numbers of a line.
ghost use Rattle.std.specs.Prelude.{◌≡◌, ◌<◌};
ghost use Rattle.answers.specs.Limits.{list_room};
ghost use Rattle.chains.specs.ZeroChain.{no_coefficients, no_bounds, no_steps, zero_chain, closed_bits};

use crate::letters::Letters;
use answers::{LIST_ROOM, STEP_ROOM};
use firrozun::{Settings, bsgs_consumed_bits, heaviest_chain, plan};

// The scales.
const INPUT: usize = 30;

const COEFF: usize = 20;

// Buffers of zeros.
fn no_coefficients() -> [i64; LIST_ROOM]
    ensures { result ≡ no_coefficients }
{
    [0; LIST_ROOM]
}

fn no_bounds() -> [u16; LIST_ROOM]
    ensures { result ≡ no_bounds }
{
    [0; LIST_ROOM]
}

fn no_steps() -> [u16; STEP_ROOM]
    ensures { result ≡ no_steps }
{
    [0; STEP_ROOM]
}

// The heaviest chain of the zero curve's plan, which is made in buffers of its own.
pub fn weigh_zeros(letters: Letters, degree: usize) -> u64
    requires { degree < list_room }
    ensures { result ≡ (zero_chain letters degree).weight }
{
    let curve = no_coefficients();
    let mut coefficients = no_coefficients();
    let mut bounds = no_bounds();
    let mut steps = no_steps();
    let settings = Settings {
        strategy: letters.said_strategy(),
        parity: letters.said_parity(),
        basis: letters.said_basis(),
    };
    let planned = plan(
        settings,
        false,
        &curve[..degree + 1],
        -1.0,
        1.0,
        &mut coefficients,
        &mut bounds,
        &mut steps,
    );
    // A zero curve of degree 1 or more is never refused, nor is its plan's chain (specs/ZerosWeighed); what is refused has no weight.
    match planned {
        Ok(head) => {
            heaviest_chain(head, &coefficients, &bounds, &steps, INPUT, COEFF).unwrap_or(0)
        }
        Err(_refusal) => 0,
    }
}

// The bits of the closed form, which refuses no degree up to its limit.
pub fn closed_bits(letters: Letters, degree: usize) -> u64
    ensures { result ≡ (closed_bits letters degree).bits }
{
    bsgs_consumed_bits(letters.said_strategy(), degree, INPUT, COEFF).unwrap_or(0) as u64
}
