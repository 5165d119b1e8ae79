//! Lines of what a test does, which `ci/memory` reads. Printing them takes no memory.

/// The next requests are the call's own.
pub fn print_call<R: Print>(rt: &R, call: &str) {
    print_line(rt, "call ", call);
}

/// The call is done, and no request of it was refused.
pub fn print_done<R: Print>(rt: &R, call: &str) {
    print_line(rt, "done ", call);
}

/// A request of the call was refused, and the call reported it.
pub fn print_refused<R: Print>(rt: &R, call: &str) {
    print_line(rt, "refused ", call);
}

/// A request of the call was refused, and it did without, as it may.
pub fn print_ignored<R: Print>(rt: &R, call: &str) {
    print_line(rt, "ignored ", call);
}

// What `ci/memory` doesn't get to read it misses.
fn print_line<R: Print>(rt: &R, what: &str, call: &str) {
    let _ = rt.print(what);
    let _ = rt.println(call);
}
