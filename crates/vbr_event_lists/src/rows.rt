//! Lists of events as a text, a row or a few in each line.
ghost use Rattle.std.specs.Prelude.{◌≡◌};

use vbr_words::link::MAX_SLOTS;
use vbr_words::{Layout, WideWord};

/// The link word with this number.
pub fn numbered(number: u64) -> WideWord
    ensures { result ≡ number }
{
    vbr_words::wide(number, Layout::of(MAX_SLOTS))
}

// The rows of a list on nodes that are bare or valued. A line is one of these:
// - `PASS STEP => EFFECT;`, one row. With `valued` ahead it is of lists on nodes that have values alone.
// - `PASS makes { .. };`: it takes a slot, and stores the birth, the key and, in such lists, the value.
// - `PASS links { .. };`: it stores the link of the node that it made, and publishes the node. What is expected there is
//   the number of a link word; elsewhere it is written `numbered(NUMBER)`.
// - `PASS visits { .. };`: it loads and checks a link, and then the key, the value, the birth and the own
//   link of the node that is named there. What isn't given isn't loaded.
// - `inserts_7;`: pass 0 inserts 7 into an empty list, in epoch 1; its value is 107.
macro_rules! rows {
    ($kind:ident: $($lines:tt)*) => { rows!(@ $kind [] $($lines)*) };
    (@ $kind:ident [$($made:tt)*]) => { [$($made)*] };
    (@ $kind:ident [$($made:tt)*] inserts_7; $($later:tt)*) => {
        rows!(@ $kind [$($made)*]
            0 ReadEpoch => Value(1);
            0 makes { slot: 0, birth: 1, key: 7, value: 107 };
            0 LoadLink { at: At::Head(0) } => Value(0);
            0 ReadEpoch => Value(1);
            0 links { slot: 0, next: None, pred: At::Head(0), expected: 0 };
            $($later)*)
    };
    (@ $kind:ident [$($made:tt)*]
        $pass:literal makes { slot: $slot:literal, birth: $birth:literal, key: $key:literal $(, value: $value:literal)? };
        $($later:tt)*) => {
        rows!(@ $kind [$($made)*]
            $pass TakeFlag { slot: $slot } => Won;
            $pass StoreBirth { slot: $slot, birth: $birth } => Done;
            $pass StoreKey { slot: $slot, key: $key } => Done;
            $(valued $pass StoreValue { slot: $slot, value: $value } => Done;)?
            $($later)*)
    };
    (@ $kind:ident [$($made:tt)*]
        $pass:literal links { slot: $slot:literal, next: $next:expr, pred: $pred:expr, expected: $expected:literal };
        $($later:tt)*) => {
        rows!(@ $kind [$($made)*]
            $pass StoreLink { slot: $slot, next: $next } => Done;
            $pass Publish { pred: $pred, expected: numbered($expected), slot: $slot } => Won;
            $($later)*)
    };
    (@ $kind:ident [$($made:tt)*]
        $pass:literal visits { slot: $slot:literal, at: $place:expr, link: $link:literal, epoch: $epoch:literal, key: $key:literal
            $(, value: $value:literal)?, birth: $birth:literal $(, next: $next:literal)? };
        $($later:tt)*) => {
        rows!(@ $kind [$($made)*]
            $pass LoadLink { at: $place } => Value($link);
            $pass ReadEpoch => Value($epoch);
            $pass LoadKey { slot: $slot } => Value($key);
            $($pass LoadValue { slot: $slot } => Value($value);)?
            $pass LoadBirth { slot: $slot } => Value($birth);
            $($pass LoadLink { at: At::Slot($slot) } => Value($next);)?
            $pass ReadEpoch => Value($epoch);
            $($later)*)
    };
    (@ valued [$($made:tt)*] valued $($later:tt)*) => { rows!(@ valued [$($made)*] $($later)*) };
    (@ bare [$($made:tt)*] valued $pass:literal $step:ident $fields:tt => $effect:ident
    $(($what:expr))?; $($later:tt)*) => {
        rows!(@ bare [$($made)*] $($later)*)
    };
    (@ $kind:ident [$($made:tt)*] $pass:literal $step:ident $({ $($fields:tt)* })? => $effect:ident
    $(($what:expr))?; $($later:tt)*) => {
        rows!(@ $kind [$($made)* ($pass, Step::$step $({ $($fields)* })?, Effect::$effect $(($what))?),] $($later)*)
    };
}

pub(crate) use rows;
