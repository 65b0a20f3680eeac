// The list calls.
ghost use Rattle.number.specs.Numbers.{whole_numbers, float_numbers};
ghost use Rattle.lists.specs.ListCall.{listed_in};
ghost use Rattle.flat.specs.Flat.{flat_listed};
ghost use Rattle.exports.specs.Listing.{ListFlat};

use firrozun::{Listing, Refusal, decompose_bsgs};
use flat::flat::CListed;
use flat::kinds::settings_of;
use number::Coefficient;

// Lists coefficients of either type, by numbers.
fn listed<C: Coefficient>(
    strategy: u8,
    parity: u8,
    basis: u8,
    c: &[C],
    out: &mut [C],
    bounds: &mut [u16],
) -> Result<Listing, Refusal>
    ensures { ListFlat C.numbers strategy parity basis c.now out.old bounds.old
        (flat_listed (listed_in result)) out.new bounds.new }
{
    decompose_bsgs(settings_of(strategy, parity, basis)?, c, out, bounds)
}

#[unsafe(no_mangle)]
pub extern "C" fn firrozun_decompose_bsgs(
    strategy: u8,
    parity: u8,
    basis: u8,
    c: &[i64],
    out: &mut [i64],
    bounds: &mut [u16],
) -> CListed
    ensures { ListFlat whole_numbers strategy parity basis c.now out.old bounds.old
        result out.new bounds.new }
{
    CListed::from(listed(strategy, parity, basis, c, out, bounds))
}

#[unsafe(no_mangle)]
pub extern "C" fn firrozun_decompose_bsgs_f64(
    strategy: u8,
    parity: u8,
    basis: u8,
    c: &[f64],
    out: &mut [f64],
    bounds: &mut [u16],
) -> CListed
    ensures { ListFlat float_numbers strategy parity basis c.now out.old bounds.old
        result out.new bounds.new }
{
    CListed::from(listed(strategy, parity, basis, c, out, bounds))
}
