//! Which opening handles are of, so that a walk knows whether its set is the one on which it began.
//!
//! The number of an opening has 32 bits, and comes round after 2^32 - 1 openings and renewals of a
//! handle. It is never 0, which stands for a walk that hasn't begun, and for a handle that was never
//! opened.
ghost use Rattle.std.specs.Prelude.{◌≡◌, map};
ghost use Rattle.vbr_handles.specs.Openings.{AreOfOpening, OpeningsDiffer, fresh_opening, greatest_of, next_opening};

use crate::handle_of::HandleOf;
use vbr_words::Nodes;

/// Gives each of the handles the number of a fresh opening: the one after the greatest that one of them
/// has.
pub(crate) fn begin_anew<N: Nodes, H: HandleOf<N>>(handles: &mut [H])
    ensures openings { AreOfOpening H.opening (fresh_opening H.opening handles.old) handles.new }
    ensures members { map H.member handles.new ≡ map H.member handles.old }
    ensures steps { map H.steps handles.new ≡ map H.steps handles.old }
{
    let fresh = next_opening(greatest_opening::<N, H>(handles));
    set_openings::<N, H>(handles, fresh);
}

/// A law: a handle that was opened or renewed has another number, until that was done 2^32 - 1 times.
/// So a call of a walk that isn't refused goes on in the set on which the walk began, if fewer openings
/// and renewals than that lie between. It does nothing.
#[tactic(auto, using(crate::proofs::OpeningNumbers::openings_differ))]
pub fn openings_differ()
    ensures { OpeningsDiffer }
{}

// The number after this one.
fn next_opening(number: u32) -> u32
    ensures { result ≡ next_opening number }
{
    match number.checked_add(1) {
        Some(next) => next,
        None => 1,
    }
}

// The greatest number that one of the handles has.
fn greatest_opening<N: Nodes, H: HandleOf<N>>(handles: &mut [H]) -> u32
    ensures same { handles.new ≡ handles.old }
    ensures greatest { result ≡ greatest_of (map H.opening handles.old) }
{
    let mut greatest = 0;
    for i in (0..handles.len()).rev() {
        let number = handles[i].opening_number();
        if number > greatest {
            greatest = number;
        }
    }
    greatest
}

// Gives each of the handles this number.
fn set_openings<N: Nodes, H: HandleOf<N>>(handles: &mut [H], number: u32)
    ensures openings { AreOfOpening H.opening number handles.new }
    ensures members { map H.member handles.new ≡ map H.member handles.old }
    ensures steps { map H.steps handles.new ≡ map H.steps handles.old }
{
    for i in 0..handles.len() {
        handles[i].set_opening(number);
    }
}
