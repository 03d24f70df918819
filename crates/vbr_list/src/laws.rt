//! The laws of an iteration, in the order of the argument. Each function says its law in its contract, and
//! does nothing.
ghost use Rattle.std.specs.Prelude.{ℕ, [], ◌++◌, List, Option, option_to_list};
ghost use Rattle.vbr_machine.specs.Start.{IsStart};
ghost use Rattle.vbr_slots.specs.views.Views.{Trace};
ghost use Rattle.vbr_list.specs.look_ups.Cursors.{HasGiven, HasGivenAll, IsAtEnd, PassesBy, SeesMore, first_cursor};
ghost use Rattle.vbr_list.specs.declared.cursor.Cursor.{Cursor};

/// A law: an iteration begins at the first cursor, and has given no key then.
pub fn an_iteration_begins()
    ensures { (p : Trace) → HasGiven p p first_cursor [] }
{}

/// A law: what an iteration has given stays true while the pass makes other calls, and while others
/// make theirs.
pub fn an_iteration_waits()
    ensures { (p q r : Trace) (c : Cursor) (keys : List ℕ) →
        HasGiven p q c keys → SeesMore q r → HasGiven p r c keys }
{}

/// A law: with one more call it has given what it had, and then the key that the call gave, if it gave
/// one; a call that was refused gave none.
pub fn an_iteration_goes_on()
    ensures { (p q r : Trace) (c d : Cursor) (keys : List ℕ) (given : Option ℕ) →
        SeesMore p q → SeesMore q r → HasGiven p q c keys → PassesBy q r c d given →
        HasGiven p r d (keys ++ option_to_list given) }
{}

/// A law: at the end it has given each key that was there all the while, once, and none that wasn't there
/// at a moment since it began.
pub fn an_iteration_ends()
    ensures { (p q : Trace) (c : Cursor) (keys : List ℕ) →
        IsStart p.start → HasGiven p q c keys → IsAtEnd p.start c → HasGivenAll p q keys }
{}
