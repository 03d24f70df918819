//! One worker tells another of a page, and what the reader of the message then finds.
ghost use Rattle.std.specs.Prelude.{◌≡◌, IfOk};
ghost use Rattle.vbr_example.specs.Telling.{IsFoundUnlessRemoved, IsTold};

use crate::worker::BUDGET;
use anyhow::bail;
use std::alloc::Global;
use std::thread::{Threads, join};
use vbr_set::{MAX_EPOCH, Member, Refusal, Seen, Shape};

/// What a worker tells of a page that it claimed, or found claimed: the page, and a token of what the
/// worker had then seen. It may be sent to any thread.
#[derive(Drop)]
pub struct Message {
    /// The page.
    pub page: u64,
    /// What its writer had seen.
    pub token: Seen,
}

/// Claims a page, if nobody has, and writes a message about it.
pub fn claim_and_tell(member: &mut Member, page: u64) -> Result<Message, Refusal>
    ensures set { member.new.set ≡ member.old.set }
    ensures told { IfOk result (IsTold member.old.set) }
{
    member.insert(page, BUDGET)?;
    let token = member.seen();
    Ok(Message { page, token })
}

/// Reads a message of the member's set, and looks for its page. Whoever wrote the message, and however it
/// came here, the page is found while nobody removes any.
pub fn find_told(member: &mut Member, message: Message) -> Result<bool, Refusal>
    requires { IsTold member.old.set message }
    ensures { IfOk result (IsFoundUnlessRemoved member.new.pass.trace) }
{
    let Message { page, token } = message;
    member.catch_up(token);
    member.has(page, BUDGET)
}

// A worker that claims a page in a thread of its own, and is done.
fn write(member: Member, page: u64) -> Result<Message, Refusal>
    ensures { IfOk result (IsTold member.set) }
{
    let mut member = member;
    claim_and_tell(&mut member, page)
}

/// Lets one worker claim a page in a thread of its own and write a message, and another read it, and
/// answers whether the page was found.
pub fn tell_page<R: Threads + Sync>(rt: &R, alloc: Global, page: u64) -> anyhow::Result<bool> {
    let mut members = Member::open(alloc, Shape::new(64, 16, MAX_EPOCH)?, 2)?;
    let (Some(reader), Some(writer)) = (members.pop(), members.pop()) else {
        bail!("there are two members")
    };
    let (message, ()) = join(
        rt,
        move || -> Result<Message, Refusal>
            ensures { IfOk result (IsTold writer.set) }
        { write(writer, page) },
        || (),
    );
    let message = message?;
    let mut reader = reader;
    Ok(find_told(&mut reader, message)?)
}
