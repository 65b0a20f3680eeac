// The rebuild call.
ghost use Rattle.std.specs.Prelude.{◌≡◌, true, ◌≤◌, length, take};
ghost use Rattle.std.proofs.Math.Option.{some};
ghost use Rattle.std.proofs.lemmas.List.Edits.{sets};
ghost use Rattle.number.specs.Limits.{plan_limit};
ghost use Rattle.number.specs.Options.{when};
ghost use Rattle.number.specs.Refused.{refusal_of};
ghost use Rattle.number.specs.inside.Between.{Between};
ghost use Rattle.counts.specs.Choice.{split_for};
ghost use Rattle.rebuild.specs.Undo.{every, fits_i64};
ghost use Rattle.rebuild.specs.RebuildCall.{matches_settings, rebuilt_in, RebuildCall};
ghost use Rattle.rebuild.specs.inside.Rebuilding.{Rebuildable, coefficients_at, Written};

use crate::ends::match_ends;
use crate::parts::rebuild_part;
use counts::{Settings, SplitStrategy, split_for_strategy};
use lists::relists;
use number::{Basis, COUNT_LIMIT, PLAN_LIMIT, Refusal, power_of_two};

// The most numbers that are rebuilt in the small scratch buffer.
const SMALL_LIMIT: usize = 256;

// Returns whether base and boundaries are those of the settings, and there is a place for each coefficient.
fn matches_settings(
    settings: Settings,
    degree: usize,
    split: usize,
    base: usize,
    lists: &[i64],
    bounds: &[u16],
) -> bool
    requires { Between 1 degree plan_limit × (split ≡ split_for settings.strategy settings.parity settings.basis degree) }
    ensures { result
        ≡ matches_settings settings.strategy settings.parity settings.basis degree base lists.now bounds.now }
{
    if base != power_of_two(split) {
        return false;
    }
    match_ends(
        relists(settings.strategy),
        degree,
        degree,
        split,
        0,
        0,
        bounds,
    )
    .is_some()
        && degree < lists.len()
}

// Copies the lists. It reads each number, since one that is read is known to fit, which of `copy_from_slice` isn't known.
fn take_lists(lists: &[i64], room: &mut [i64])
    requires { length room.old ≡ length lists.now }
    ensures { (room.new ≡ lists.now) × (every fits_i64 lists.now ≡ true) }
{
    for (i, x) in lists.iter().enumerate() {
        room[i] = *x;
    }
}

// Copies the lists to `room` and rebuilds them there. Returns whether every cut could be undone; then the coefficients stand there.
fn rebuild_lists(
    strategy: SplitStrategy,
    basis: Basis,
    split: usize,
    lists: &[i64],
    room: &mut [i64],
) -> bool
    requires { Rebuildable split lists.now × (length room.old ≡ length lists.now) }
    ensures { coefficients_at strategy basis split lists.now ≡ when result (some room.new) }
{
    take_lists(lists, room);
    rebuild_part(relists(strategy), basis, lists.len() - 1, split, room)
}

// Rebuilds the lists in `room` and writes the coefficients to the front of `out`. It refuses where a cut can't be undone, and then where `out` is too short;
// after a refusal `out` is as it was.
fn write_rebuilt(
    strategy: SplitStrategy,
    basis: Basis,
    split: usize,
    lists: &[i64],
    room: &mut [i64],
    out: &mut [i64],
) -> Result<(), Refusal>
    requires { Rebuildable split lists.now × (length room.old ≡ length lists.now) }
    ensures { Written (coefficients_at strategy basis split lists.now) (length lists.now) out.old
        (refusal_of result) out.new }
{
    if !rebuild_lists(strategy, basis, split, lists, room) {
        return Err(Refusal::ListsOfNone);
    }
    let n = lists.len();
    if out.len() < n {
        return Err(Refusal::CoefficientsShort);
    }
    out[..n].copy_from_slice(room);
    Ok(())
}

// Returns a buffer of zeros. The contract keeps its length alone, so that no proof looks at the zeros.
fn scratch<const N: usize>() -> [i64; N]
    ensures { length result ≡ N }
{
    [0; N]
}

// Does the same in a buffer of its own, a small one where that suffices, since clearing the large one would be most of the time that a call for short lists
// takes. Nothing is written to `out` before the last test.
fn rebuild_in_scratch(
    strategy: SplitStrategy,
    basis: Basis,
    split: usize,
    lists: &[i64],
    out: &mut [i64],
) -> Result<(), Refusal>
    requires { Rebuildable split lists.now }
    ensures { Written (coefficients_at strategy basis split lists.now) (length lists.now) out.old
        (refusal_of result) out.new }
{
    let n = lists.len();
    if n <= SMALL_LIMIT {
        let mut small = scratch::<SMALL_LIMIT>();
        return write_rebuilt(strategy, basis, split, lists, &mut small[..n], out);
    }
    let mut large = scratch::<COUNT_LIMIT>();
    write_rebuilt(strategy, basis, split, lists, &mut large[..n], out)
}

// The rebuild call: writes the coefficients that were listed with these settings to the front of `out`, from the lists one after another and the place just
// past each, and returns how many there are.
pub fn rebuild(
    settings: Settings,
    degree: usize,
    base: usize,
    lists: &[i64],
    bounds: &[u16],
    out: &mut [i64],
) -> Result<usize, Refusal>
    ensures { RebuildCall settings.strategy settings.parity settings.basis degree base lists.now bounds.now out.old
        (rebuilt_in result) out.new }
{
    if PLAN_LIMIT < degree {
        return Err(Refusal::DegreeTooHigh);
    }
    if degree == 0 {
        return Err(Refusal::DegreeZero);
    }
    let split = split_for_strategy(settings, degree);
    if !matches_settings(settings, degree, split, base, lists, bounds) {
        return Err(Refusal::ListsMismatched);
    }
    let n = degree + 1;
    rebuild_in_scratch(settings.strategy, settings.basis, split, &lists[..n], out)?;
    Ok(n)
}
