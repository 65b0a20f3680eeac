// Coefficients copied.
ghost use Rattle.std.specs.Prelude.{◌≡◌, ◌≤◌, length};
ghost use Rattle.std.proofs.lemmas.List.Edits.{sets};

use crate::coefficient::Coefficient;

// Copies the coefficients to the front of a buffer. It goes by places: `copy_from_slice` makes the library for C ask for `memmove`.
#[tactic(auto, using(crate::proofs::CopyLoop::copy_step, crate::proofs::CopyLoop::copy_end))]
pub fn copy_coeffs<C: Coefficient>(c: &[C], out: &mut [C])
    requires { length c.now ≤ length out.old }
    ensures { out.new ≡ sets out.old 0 c.now }
{
    for i in 0..c.len() {
        out[i] = c[i];
    }
}
