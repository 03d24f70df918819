//! What a round came to.
use std::process::Abort;

/// A round is right: it says whether a call found no memory, and nothing if an answer was wrong.
/// That a call found none is printed on standard output.
pub fn is_right<R: Abort + Print>(rt: &R, round: Option<bool>) {
    match round {
        Some(false) => {}
        Some(true) => {
            let _ = println!(rt; "a call found no memory");
        }
        None => panic!(rt; "a wrong answer, or no memory when the call was made again"),
    }
}
