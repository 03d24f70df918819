//! Looking for a key by loads alone. Marked nodes are passed by their links. Behind an unmarked link
//! that stands they are marked for good, and their links don't change, so the list goes on where they
//! lead.
ghost use Rattle.std.specs.Prelude.{◌≡◌, IfOk, IfErr, IfSome, IfNone};
ghost use Rattle.vbr_at_table.specs.reads.Held.{held_of};
ghost use Rattle.vbr_list.specs.look_ups.LookUpPieces.{LookTires, Sees, TraversalStops, TraversesTo};
ghost use Rattle.vbr_list.specs.calls.Pieces.{GoesOn, Observes, trace_in};
ghost use Rattle.vbr_list.specs.calls.Words.{wide_sight};

use crate::call::PendingCall;
use crate::traversal::Stop;
use crate::visiting::Visited;
use vbr_at_table::budget::affords;
use vbr_at_table::{Held, Marked};
use vbr_words::{At, Nodes, decode};

/// What a look-up came to.
#[derive(Clone, Copy)]
pub(crate) enum Sight {
    /// The node with the key.
    Present(Held),
    /// The last unmarked place before the key, behind which the key is absent.
    Absent(Held),
}

// A marked node as a place to go on from.
#[inline]
pub(crate) fn held_of(marked: Marked) -> Held
    ensures { result ≡ held_of marked }
{
    Held {
        at: At::Slot(marked.slot),
        birth: marked.birth,
        word: marked.word,
        epoch: marked.epoch,
    }
}

impl<N: Nodes> PendingCall<'_, N> {
    // One traversal from the head to the key by loads alone, past marked nodes.
    #[inline(always)]
    fn traverse_past(&mut self) -> Result<Sight, Stop>
        ensures goes { GoesOn self.old self.new }
        ensures observes { Observes (trace_in self.old) (trace_in self.new) }
        ensures sight { IfOk result (λ sight.
            TraversesTo self.old self.new (wide_sight self.old sight)) }
        ensures stopped { IfErr result (TraversalStops self.old self.new) }
    {
        self.at.law();
        if !affords(self.budget, self.used) {
            return Err(Stop::Tired);
        }
        let Ok(mut pred) = self.start() else {
            return Err(Stop::Again);
        };
        let mut here = pred;
        while decode(here.word, self.at.slots.layout()).slot.is_some() {
            if !affords(self.budget, self.used) {
                return Err(Stop::Tired);
            }
            match self.visit(&here) {
                Err(_) => return Err(Stop::Again),
                Ok(Visited::Marked(marked)) => here = held_of(marked),
                Ok(Visited::Smaller(node)) => {
                    pred = node;
                    here = node;
                }
                Ok(Visited::Beyond(node, key)) => {
                    if self.key == key {
                        return Ok(Sight::Present(node));
                    }
                    return Ok(Sight::Absent(pred));
                }
            }
        }
        Ok(Sight::Absent(pred))
    }

    /// Traverses in this way until it comes to the key or to where it is absent; none if the budget has
    /// no room for one more piece.
    #[inline(always)]
    pub(crate) fn search_past(&mut self) -> Option<Sight>
        ensures goes { GoesOn self.old self.new }
        ensures observes { Observes (trace_in self.old) (trace_in self.new) }
        ensures sight { IfSome result (λ sight.
            Sees self.old self.new (wide_sight self.old sight)) }
        ensures tired { IfNone result (LookTires self.old self.new) }
    {
        self.at.law();
        loop {
            match self.traverse_past() {
                Ok(sight) => return Some(sight),
                Err(Stop::Again) => self.at.count_restart(),
                Err(Stop::Tired) => return None,
            }
        }
    }
}
