//! What an insert or a store does before it changes anything: if the key's state isn't the wanted one,
//! the call is answered; otherwise it takes a slot.
ghost use Rattle.std.specs.Prelude.{◌≡◌, false, None, IfOk, IfErr, IfNone, IfSome};
ghost use Rattle.vbr_list.specs.updates.Inserting.{Prepares, TriesFor};
ghost use Rattle.vbr_list.specs.calls.Pieces.{HasRoomForPiece, pass_in};
ghost use Rattle.vbr_list.specs.updates.Preparing.{Asks, GivesOrInserts, IsMet, IsPrepared, Meeting, MeetTires, PreparesNone, ReadsWanted, SaysUnmet, has_wanted};
ghost use Rattle.vbr_list.specs.traversals.Traversing.{LocatesFor};
ghost use Rattle.vbr_list.specs.calls.Words.{wide_found};

use crate::call::PendingCall;
use crate::found::Found;
use crate::wanted::Wanted;
use vbr_at_table::budget::affords;
use vbr_at_table::{Hand, Refusal};
use vbr_words::Nodes;

/// How a call without a slot in hand found its key.
#[derive(Clone, Copy)]
pub(crate) enum Met {
    /// In the wanted state.
    AsWanted,
    /// In another state, and the call is answered with what was there; its value is 0 if none is given.
    Otherwise(Option<u64>),
}

/// Why a call changed nothing at the place that it found.
#[derive(Clone, Copy)]
pub(crate) enum Unmet {
    /// The key's state isn't the wanted one, and the call was answered with it, as by
    /// [`Met::Otherwise`].
    Otherwise(Option<u64>),
    /// What was found has changed since, and no call was made.
    Changed,
}

/// What a call has before it changes anything.
pub(crate) enum Prepared {
    /// A slot in hand.
    Ready(Hand),
    /// Its answer, as in [`Met::Otherwise`].
    Answered(Option<u64>),
}

// Whether a present key, or an absent one, is in the wanted state, whatever value it has.
#[inline(always)]
fn has_wanted(wanted: Wanted, present: bool) -> bool
    ensures { result ≡ has_wanted wanted present }
{
    match wanted {
        Wanted::Absent => !present,
        Wanted::Present => present,
        Wanted::Anything => true,
        Wanted::Value(_) => false,
    }
}

impl<N: Nodes> PendingCall<'_, N> {
    /// Reads what was there: returns it if it is as wanted, and otherwise answers a get with it. A call
    /// that gives nothing wants the key absent, and reads nothing: it is answered no if the key is
    /// there.
    #[inline(always)]
    pub(crate) fn ask(
        &mut self,
        found: &Found,
        wanted: Wanted,
        gives: bool,
    ) -> Result<Option<u64>, Unmet>
        requires asked { GivesOrInserts gives wanted self.old }
        requires locates { LocatesFor self.old (wide_found self.old found.now) }
        requires room { HasRoomForPiece self.old }
        ensures asks { Asks self.old self.new }
        ensures wanted { IfOk result
            (ReadsWanted wanted self.old self.new (wide_found self.old found.now)) }
        ensures unmet { IfErr result
            (SaysUnmet gives wanted self.old self.new (wide_found self.old found.now)) }
    {
        self.at.law();
        if !gives {
            if !found.present {
                return Ok(None);
            }
            let Ok(()) = self.answer_no(found) else {
                return Err(Unmet::Changed);
            };
            return Err(Unmet::Otherwise(Some(0)));
        }
        let Ok(there) = self.read_found(found) else {
            return Err(Unmet::Changed);
        };
        if wanted.wants(there) {
            return Ok(there);
        }
        let Ok(()) = self.tell_found(found, there) else {
            return Err(Unmet::Changed);
        };
        Err(Unmet::Otherwise(there))
    }

    // Looks for the key until it is found in the wanted state, or in another state and the call was
    // answered; none if the budget has no room for one more piece. If anything is wanted it makes no
    // step.
    #[inline(always)]
    fn meet(&mut self, wanted: Wanted, gives: bool) -> Option<Met>
        requires asked { GivesOrInserts gives wanted self.old }
        ensures meets { Meeting self.old self.new }
        ensures met { IfSome result (IsMet gives wanted self.old self.new) }
        ensures tired { IfNone result (MeetTires self.old self.new) }
    {
        self.at.law();
        if let Wanted::Anything = wanted {
            return Some(Met::AsWanted);
        }
        loop {
            let Some(found) = self.search() else {
                return None;
            };
            if has_wanted(wanted, found.present) {
                return Some(Met::AsWanted);
            }
            if !affords(self.budget, self.used) {
                return None;
            }
            match self.ask(&found, wanted, gives) {
                Ok(_) => return Some(Met::AsWanted),
                Err(unmet) => match unmet {
                    Unmet::Otherwise(there) => return Some(Met::Otherwise(there)),
                    Unmet::Changed => {}
                },
            }
        }
    }

    /// Takes a slot once the key was found in the wanted state. Otherwise the call is answered: a get
    /// with what was there, or, if it gives nothing, an insert with no.
    #[inline(always)]
    pub(crate) fn prepare(&mut self, wanted: Wanted, gives: bool) -> Result<Prepared, Refusal>
        requires asked { GivesOrInserts gives wanted self.old }
        requires empty_hand { (pass_in self.old).hand ≡ None }
        ensures prepares { Prepares self.old self.new }
        ensures tries { TriesFor wanted self.old self.new }
        ensures prepared { IfOk result (IsPrepared gives wanted self.old self.new) }
        ensures refused { IfErr result (PreparesNone wanted self.old self.new) }
    {
        self.at.law();
        let Some(met) = self.meet(wanted, gives) else {
            return Err(Refusal::OutOfSteps { used: self.used });
        };
        match met {
            Met::Otherwise(there) => Ok(Prepared::Answered(there)),
            Met::AsWanted => {
                let hand = self.provide()?;
                Ok(Prepared::Ready(hand))
            }
        }
    }
}
