// Failures that pass, and what is said of those that don't.
use std::io::{Eprint, ErrorKind};
use std::{io, thread};

// Whether a call that failed is to be made again: a signal came in, or the other side is not ready yet.
pub fn is_passing(error: &io::Error) -> bool {
    match error.kind() {
        ErrorKind::Interrupted => true,
        ErrorKind::WouldBlock => {
            thread::yield_now();
            true
        }
        _ => false,
    }
}

// Says on standard error what failed, and why. Where that can't be said either, nobody listens.
pub fn say_failure(rt: &impl Eprint, failure: &str, reason: &io::Error) {
    let _ = eprintln!(rt; "{failure}: {reason}");
}
