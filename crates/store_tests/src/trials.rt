// A trial of something at one call of the card after another.
use std::process::Abort;

/// No commit and no recovery of the tests has so many calls.
const CALLS: u32 = 200;

/// How many calls a trial has: it is given the number of a call, from 1, and tells whether it came
/// through whole, as it does past the last.
pub fn calls_of<F: FnMut(u32) -> bool>(rt: &impl Abort, mut trial: F) -> u32
    requires { F.IsAlwaysCallable trial }
{
    // a loop: find would want one more closure, and the check proves each as three functions
    for calls in 0..CALLS {
        if trial(calls + 1) {
            return calls;
        }
    }
    panic!(rt; "no trial came through")
}
