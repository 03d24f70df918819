//! The text of a run.
ghost use Rattle.std.specs.Prelude.{◌≡◌, ℕ, ◌++◌, List, OnOk, IfOk, codes};
ghost use Rattle.vbr_transcript.specs.Layout.{epoch_text, items_text, line, replies_text, reply_text, spaced, spaced_entry, tally_text, text_of};

use crate::reply::Reply;
use crate::totals::Tally;
use std::alloc::{AllocError, Global};

/// What is printed of a node that is there in the end: its key, or its key with its value.
pub trait Printed: Copy {
    ghost name: { List ℕ };

    ghost print: { Self → List ℕ };

    /// The name of the line that lists all of them.
    fn name() -> &'static [u8]
        ensures { result.now ≡ name };

    /// Appends a space and this.
    fn push(self, text: &mut Vec<u8>) -> Result<(), AllocError>
        ensures { OnOk result (text.new.items ≡ text.old.items ++ print self) };
}

impl Printed for u64 {
    ghost name = { codes "keys" };

    ghost print = { spaced };

    fn name() -> &'static [u8] {
        b"keys"
    }

    fn push(self, text: &mut Vec<u8>) -> Result<(), AllocError> {
        push_spaced(text, self)
    }
}

impl Printed for (u64, u64) {
    ghost name = { codes "entries" };

    ghost print = { spaced_entry };

    fn name() -> &'static [u8] {
        b"entries"
    }

    fn push(self, text: &mut Vec<u8>) -> Result<(), AllocError> {
        push_entry(text, self)
    }
}

/// The text of a run: a line for each reply, then the counts, what is there in the end, and the epoch if
/// it is asked for. Of a map a value stands after the `yes` of each remove and get, and after each key.
pub fn layout<I: Printed>(
    alloc: Global,
    asked: bool,
    replies: &[Reply],
    tally: Tally,
    items: &[I],
    epoch: u64,
) -> Result<Vec<u8>, AllocError>
    ensures { IfOk result (λ text. text.items
        ≡ text_of asked replies.now tally (items_text I.name I.print items.now) epoch) }
{
    let mut text = Vec::new(alloc);
    push_replies(&mut text, replies)?;
    push_tally(&mut text, tally)?;
    push_items(&mut text, items)?;
    push_epoch(&mut text, asked, epoch)?;
    Ok(text)
}

fn push_replies(text: &mut Vec<u8>, replies: &[Reply]) -> Result<(), AllocError>
    ensures { OnOk result (text.new.items ≡ text.old.items ++ replies_text replies.now) }
{
    for reply in replies {
        push_reply(text, *reply)?;
    }
    Ok(())
}

fn push_reply(text: &mut Vec<u8>, reply: Reply) -> Result<(), AllocError>
    ensures { OnOk result (text.new.items ≡ text.old.items ++ line (reply_text reply)) }
{
    match reply {
        Reply::Yes => push_line(text, b"yes"),
        Reply::Value(value) => push_count(text, b"yes", value),
        Reply::No => push_line(text, b"no"),
        Reply::Full => push_line(text, b"full"),
        Reply::Spent => push_line(text, b"spent"),
        Reply::Tired => push_line(text, b"tired"),
    }
}

// A line for each count.
fn push_tally(text: &mut Vec<u8>, tally: Tally) -> Result<(), AllocError>
    ensures { OnOk result (text.new.items ≡ text.old.items ++ tally_text tally) }
{
    push_count(text, b"inserted", tally.inserted)?;
    push_count(text, b"removed", tally.removed)?;
    push_count(text, b"found", tally.found)?;
    push_count(text, b"refused", tally.refused)
}

// The line of the epoch, if it is asked for.
fn push_epoch(text: &mut Vec<u8>, asked: bool, epoch: u64) -> Result<(), AllocError>
    ensures { OnOk result (text.new.items ≡ text.old.items ++ epoch_text asked epoch) }
{
    if asked {
        push_count(text, b"epoch", epoch)?;
    }
    Ok(())
}

// A line with a name and a number.
fn push_count(text: &mut Vec<u8>, name: &[u8], count: u64) -> Result<(), AllocError>
    ensures { OnOk result (text.new.items ≡ text.old.items ++ line (name.now ++ spaced count)) }
{
    text.extend_from_slice(name)?;
    push_spaced(text, count)?;
    text.push(b'\n')?;
    Ok(())
}

// The line of what is there in the end.
fn push_items<I: Printed>(text: &mut Vec<u8>, items: &[I]) -> Result<(), AllocError>
    ensures { OnOk result
        (text.new.items ≡ text.old.items ++ items_text I.name I.print items.now) }
{
    text.extend_from_slice(I::name())?;
    for item in items {
        item.push(text)?;
    }
    text.push(b'\n')?;
    Ok(())
}

fn push_entry(text: &mut Vec<u8>, entry: (u64, u64)) -> Result<(), AllocError>
    ensures { OnOk result (text.new.items ≡ text.old.items ++ spaced_entry entry) }
{
    let mut buffer = itoa::Buffer::new();
    push_spaced(text, entry.0)?;
    text.push(b'=')?;
    text.extend_from_slice(buffer.format(entry.1).as_bytes())
}

fn push_spaced(text: &mut Vec<u8>, n: u64) -> Result<(), AllocError>
    ensures { OnOk result (text.new.items ≡ text.old.items ++ spaced n) }
{
    let mut buffer = itoa::Buffer::new();
    text.push(b' ')?;
    text.extend_from_slice(buffer.format(n).as_bytes())
}

fn push_line(text: &mut Vec<u8>, content: &[u8]) -> Result<(), AllocError>
    ensures { OnOk result (text.new.items ≡ text.old.items ++ line content.now) }
{
    text.extend_from_slice(content)?;
    text.push(b'\n')?;
    Ok(())
}
