//! A traversal of the list of one bucket, piece by piece.
ghost use Rattle.std.specs.Prelude.{◌≡◌, ◌+◌, ◌≤◌, IsSome, IfOk, IfErr};
ghost use Rattle.vbr_words.specs.Words.{link_of};
ghost use Rattle.vbr_slots.specs.views.Views.{knows};
ghost use Rattle.vbr_at_table.specs.reads.Held.{HoldsMarked, IsHeld, Names};
ghost use Rattle.vbr_list.specs.traversals.Helping.{Helps, HelpsNone};
ghost use Rattle.vbr_list.specs.calls.Pieces.{GoesOn, HasRoomForPiece, Observes, pass_in, trace_in};
ghost use Rattle.vbr_list.specs.traversals.Traversing.{HasComeTo, IsPredFor, SearchStops, TraversalFinds};
ghost use Rattle.vbr_list.specs.traversals.Visiting.{IsVisit, MeetsBehind, RollsBackFrom, StartsAt, StartsNone};
ghost use Rattle.vbr_list.specs.calls.Words.{wide_found, wide_held, wide_marked, wide_visited};

use crate::call::PendingCall;
use crate::found::Found;
use crate::helping::help_by_copy;
use crate::visiting::{Visited, start_at, visit_at};
use vbr_at_table::budget::affords;
use vbr_at_table::{Held, Marked, Rollback};
use vbr_words::{Nodes, decode};

/// Why a traversal ended before it came to the key.
#[derive(Clone, Copy)]
pub(crate) enum Stop {
    /// It rolled back.
    Again,
    /// The budget has no room for one more piece.
    Tired,
}

impl<N: Nodes> PendingCall<'_, N> {
    // Starts at the head of the bucket, in three steps.
    #[inline(always)]
    pub(crate) fn start(&mut self) -> Result<Held, Rollback>
        requires room { HasRoomForPiece self.old }
        ensures goes { GoesOn self.old self.new }
        ensures observes { Observes (trace_in self.old) (trace_in self.new) }
        ensures used { self.new.used ≡ self.old.used + 3 }
        ensures head { IfOk result (λ head. StartsAt (trace_in self.old) (trace_in self.new)
            self.old.bucket (wide_held self.old head)) }
        ensures come { IfOk result (λ head. HasComeTo (trace_in self.old) (trace_in self.new)
            self.old.key (wide_held self.old head)) }
        ensures moved { IfErr result (StartsNone (trace_in self.old) (trace_in self.new)) }
    {
        let head = start_at(&mut self.at, self.bucket);
        self.used += 3;
        head
    }

    // Visits the node that the link of a place names, in three steps if it is marked, else in five.
    #[inline(always)]
    pub(crate) fn visit(&mut self, here: &Held) -> Result<Visited, Rollback>
        requires held { IsHeld (knows (trace_in self.old)) (wide_held self.old here.now) }
        requires some { IsSome (link_of (wide_held self.old here.now).word).slot }
        requires room { HasRoomForPiece self.old }
        ensures goes { GoesOn self.old self.new }
        ensures observes { Observes (trace_in self.old) (trace_in self.new) }
        ensures used { IsVisit self.old.used self.new.used }
        ensures met { IfOk result (λ met. MeetsBehind (trace_in self.old) (trace_in self.new)
            self.old.used self.new.used (wide_held self.old here.now) self.old.key
            (wide_visited self.old met)) }
        ensures moved { IfErr result (RollsBackFrom (trace_in self.old) (trace_in self.new)) }
    {
        // Once it is read, its range is known, so the steps that it has room for are counted without
        // overflow.
        let _budget = self.budget;
        visit_at(&mut self.at, here, self.key, &mut self.used)
    }

    // Helps to unlink a marked node behind a place, in one to six steps: returns the place with its new
    // link, if the epoch stayed. Few traversals meet one, so it is done apart from them. The place's
    // epoch is taken from the marked node, and where it is from before the help, so that a traversal
    // needs no register for these.
    #[inline(always)]
    fn help(&mut self, pred: Held, marked: Marked) -> Result<Held, Rollback>
        requires pred { IsPredFor self.old (wide_held self.old pred) }
        requires marked { HoldsMarked (knows (trace_in self.old))
            (wide_marked self.old marked) }
        requires names { Names (wide_held self.old pred) marked.slot }
        requires room { HasRoomForPiece self.old }
        ensures goes { GoesOn self.old self.new }
        ensures few { self.new.used ≤ self.old.used + 6 }
        ensures helps { IfOk result (λ place. Helps (pass_in self.old) (pass_in self.new)
            (wide_held self.old pred) (wide_marked self.old marked)
            (wide_held self.old place)) }
        ensures lost { IfErr result (HelpsNone (pass_in self.old) (pass_in self.new)
            (wide_held self.old pred)) }
    {
        let epoch = marked.epoch;
        let (outcome, made) = help_by_copy(&mut self.at, Held { epoch, ..pred }, marked);
        self.used += made;
        let place = outcome?;
        Ok(Held {
            at: pred.at,
            ..place
        })
    }

    /// One traversal from the head to the key.
    #[inline(always)]
    pub(crate) fn traverse(&mut self) -> Result<Found, Stop>
        ensures goes { GoesOn self.old self.new }
        ensures found { IfOk result (λ told.
            TraversalFinds self.old self.new (wide_found self.old told)) }
        ensures stopped { IfErr result (SearchStops self.old self.new) }
    {
        self.at.law();
        if !affords(self.budget, self.used) {
            return Err(Stop::Tired);
        }
        let Ok(mut pred) = self.start() else {
            return Err(Stop::Again);
        };
        while decode(pred.word, self.at.slots.layout()).slot.is_some() {
            if !affords(self.budget, self.used) {
                return Err(Stop::Tired);
            }
            match self.visit(&pred) {
                Err(_) => return Err(Stop::Again),
                Ok(Visited::Marked(marked)) => {
                    if !affords(self.budget, self.used) {
                        return Err(Stop::Tired);
                    }
                    match self.help(pred, marked) {
                        Ok(place) => pred = place,
                        Err(_) => return Err(Stop::Again),
                    }
                }
                Ok(Visited::Smaller(node)) => pred = node,
                Ok(Visited::Beyond(node, key)) => {
                    return Ok(Found {
                        pred,
                        cur: Some(node),
                        present: self.key == key,
                        used: self.used,
                    });
                }
            }
        }
        Ok(Found {
            pred,
            cur: None,
            present: false,
            used: self.used,
        })
    }
}
