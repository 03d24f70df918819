//! The calls on an iteration with their answers as numbers. What is next is written if there is a next
//! one, otherwise nothing is. If the walk began on another opening than the handle's, nothing is done.
ghost use Rattle.std.specs.Prelude.{◌≡◌};
ghost use Rattle.vbr_list.specs.calls.Told.{is_yes};
ghost use Rattle.vbr_handles.specs.Codes.{call_code};
ghost use Rattle.vbr_handles.specs.Iterating.{TellsNext, TellsNextEntry};
ghost use Rattle.vbr_handles.specs.ValueCalls.{WritesGiven};

use crate::coded_calls::entries::give;
use crate::coded_calls::{NO, YES, call_code};
use crate::cursor::HandleCursor;
use crate::entry::Entry;
use crate::owner::Owner;
use vbr_set::member::Member;
use vbr_set::{MapMember, Refusal};
use vbr_words::Nodes;

/// Goes on with a walk at a cursor by the member of an owner of this opening. If there is none, or the walk began on
/// another opening, the function returns the number that says so.
macro_rules! next_here {
    ($owner:expr, $opening:expr, $cursor:expr, $budget:expr, $answer:ident = $next:ident) => {
        $crate::lent_member::return_if_empty!($owner, $crate::coded_calls::EMPTY);
        if $cursor.began_elsewhere($opening) {
            return $crate::coded_calls::RESHAPED;
        }
        let mut place = $cursor.place();
        let $answer = $owner.member_mut().$next(&mut place, $budget);
        $cursor.come_to(place, $opening);
    };
}

pub(crate) use next_here;

/// Finds the next key at a cursor by the member of a handle of this opening, and writes it.
pub fn next_key<N: Nodes>(
    owner: &mut Owner<Member<N>>,
    opening: u32,
    cursor: &mut HandleCursor,
    key: &mut u64,
    budget: u32,
) -> i32
    ensures { TellsNext owner.old.member owner.new.member opening
        cursor.old cursor.new budget
        key.old key.new result }
{
    next_here!(owner, opening, cursor, budget, answer = next_key);
    give(answer, key)
}

/// Finds the next entry at a cursor by the member of a handle of this opening, and writes its key and
/// its value.
pub fn next_entry(
    owner: &mut Owner<MapMember>,
    opening: u32,
    cursor: &mut HandleCursor,
    entry: &mut Entry,
    budget: u32,
) -> i32
    ensures { TellsNextEntry owner.old.member owner.new.member opening
        cursor.old cursor.new budget
        (entry.old.key, entry.old.value) (entry.new.key, entry.new.value) result }
{
    next_here!(owner, opening, cursor, budget, answer = next_entry);
    give_entry(answer, entry)
}

// Writes the key and the value of an answer, if it has an entry, and returns the number of the answer.
fn give_entry(answer: Result<Option<(u64, u64)>, Refusal>, entry: &mut Entry) -> i32
    ensures code { result ≡ call_code (is_yes answer) }
    ensures writes { WritesGiven answer (entry.old.key, entry.old.value)
        (entry.new.key, entry.new.value) }
{
    match answer {
        Ok(Some((key, value))) => {
            *entry = Entry { key, value };
            YES
        }
        Ok(None) => NO,
        Err(refusal) => call_code(Err(refusal)),
    }
}
