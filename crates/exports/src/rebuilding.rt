// The rebuild call.
ghost use Rattle.rebuild.specs.RebuildCall.{rebuilt_in};
ghost use Rattle.flat.specs.Flat.{flat_rebuilt};
ghost use Rattle.exports.specs.Rebuilding.{RebuildFlat};

use firrozun::{Refusal, rebuild};
use flat::flat::CRebuilt;
use flat::kinds::settings_of;

// Rebuilds by numbers. The many arguments are those of the C call.
fn rebuilt(
    strategy: u8,
    parity: u8,
    basis: u8,
    degree: usize,
    base: usize,
    lists: &[i64],
    bounds: &[u16],
    out: &mut [i64],
) -> Result<usize, Refusal>
    ensures { RebuildFlat strategy parity basis degree base lists.now bounds.now out.old
        (flat_rebuilt (rebuilt_in result)) out.new }
{
    let settings = settings_of(strategy, parity, basis)?;
    rebuild(settings, degree, base, lists, bounds, out)
}

#[unsafe(no_mangle)]
pub extern "C" fn firrozun_rebuild(
    strategy: u8,
    parity: u8,
    basis: u8,
    degree: usize,
    base: usize,
    lists: &[i64],
    bounds: &[u16],
    out: &mut [i64],
) -> CRebuilt
    ensures { RebuildFlat strategy parity basis degree base lists.now bounds.now out.old
        result out.new }
{
    CRebuilt::from(rebuilt(strategy, parity, basis, degree, base, lists, bounds, out))
}
