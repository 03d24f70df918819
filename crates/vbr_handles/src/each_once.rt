//! Whether each pass comes once among handles. A handle of Rattle is never copied; in C it is a struct that can be, and
//! a copy has the member of the other handle.
ghost use Rattle.std.specs.Prelude.{◌≡◌, ◌<◌, ◌≤◌, ◌/◌, ℕ, true, false};
ghost use Rattle.vbr_handles.specs.AllHandles.{AreFull, members_by};
ghost use Rattle.vbr_handles.specs.EachOnce.{HasTwice, borne};

use crate::handle_of::HandleOf;
use vbr_words::Nodes;

// How many numbers of passes are looked for at once.
const PART: u32 = 4096;

/// Whether two of the handles, which are full, have the same pass. It takes no memory but 4,096 bytes of the stack, and
/// goes over the handles once more for each 4,096 passes.
pub(crate) fn has_twice<N: Nodes, H: HandleOf<N>>(handles: &mut [H]) -> bool
    requires { AreFull H.member handles.old }
    ensures same { handles.new ≡ handles.old }
    ensures yes { result ≡ true → HasTwice (members_by H.member handles.old) }
    ensures no { result ≡ false → ¬ (HasTwice (members_by H.member handles.old)) }
{
    let greatest = greatest_number::<N, H>(handles);
    for part in 0..greatest / PART + 1 {
        if has_twice_in::<N, H>(handles, part) {
            return true;
        }
    }
    false
}

// The greatest number of a pass of the handles, which are full; 0 if there is none.
fn greatest_number<N: Nodes, H: HandleOf<N>>(handles: &mut [H]) -> u32
    requires { AreFull H.member handles.old }
    ensures same { handles.new ≡ handles.old }
    ensures none { (who : ℕ) → result < who → borne H.member handles.old who ≡ 0 }
{
    let mut greatest = 0;
    for i in 0..handles.len() {
        let number = handles[i].number();
        if number > greatest {
            greatest = number;
        }
    }
    greatest
}

// Whether two of the handles, which are full, have the same pass, of those whose numbers divided by `PART` are this.
fn has_twice_in<N: Nodes, H: HandleOf<N>>(handles: &mut [H], part: u32) -> bool
    requires { AreFull H.member handles.old }
    ensures same { handles.new ≡ handles.old }
    ensures yes { result ≡ true → HasTwice (members_by H.member handles.old) }
    ensures no { result ≡ false → (who : ℕ) → who / PART ≡ part
        → borne H.member handles.old who ≤ 1 }
{
    let mut seen = [false; PART as usize];
    for i in 0..handles.len() {
        let number = handles[i].number();
        if number / PART == part {
            let place = (number % PART) as usize;
            if seen[place] {
                return true;
            }
            seen[place] = true;
        }
    }
    false
}
