// The number of the layouts, in a call's name and as its answer. Header and Rust crate refer to the name, so a program that was compiled for other
// layouts does not link with this library. Raise the number with each change of a struct in the crate flat or of a call's signature in this one: here, in
// specs/Layout, include/firrozun.h and bindings/rust/src/ffi.rs, with a line in .ci/layouts. `.ci/header` fails if one of these is left out. What only adds
// a call or its struct keeps the number: a program that makes the call does not link with a library that lacks it.
ghost use Rattle.std.specs.Prelude.{◌≡◌};
ghost use Rattle.exports.specs.Layout.{layout_number};

#[unsafe(no_mangle)]
pub extern "C" fn firrozun_layout_10() -> u32
    ensures { result ≡ layout_number }
{
    10
}
