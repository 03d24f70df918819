// What the world keeps of a pass, the tests that a step asks for, and what a pass writes.
ghost use Rattle.std.specs.Prelude.{◌≡◌, ◌<◌, ◌≤◌, ◌↔◌, length, slice_index_or, unwrap_or, Some, None, IsSome, IsTrue, IfOk, IfSome};
ghost use Rattle.vbr_words.specs.Words.{IsLink, word_of, link_of};
ghost use Rattle.vbr_words.specs.declared.link.TheConstants.{MAX_SLOTS, MAX_VERSION};
ghost use Rattle.vbr_machine.specs.Links.{link_to, marked};
ghost use Rattle.vbr_machine.specs.Knowledge.{knows_link, marked_in, birth_in, birth_at, birth_of, key_in, value_in};
ghost use Rattle.vbr_machine.specs.Acceptance.{IsInShape, IsOwned, HasChecked, IsInRange, Accepts, KnowsKeyAt, KnowsKeyOf, LeadsToKey, HasValue, HasValueFor, stamp_in, MayPublish, MayReplace, IsBehind, IsBefore, LeadsAbove, next_of_marked};
ghost use Rattle.vbr_machine.specs.Learning.{key_in_hand, value_in_hand, link_written, present_value, call_ahead, call_of};
ghost use Rattle.vbr_machine.specs.Opened.{payload_kept};
ghost use Rattle.vbr_machine.specs.Machine.{knows_nothing};
ghost use Rattle.vbr_world.specs.WorldInLists.{know_of, FitsHolding};

mod learning;

use crate::world::start::Start;
use crate::world::steps::present_reply;
use crate::world::{holdings, reads};
use std::alloc::{AllocError, Global};
use std::marker::Model;
use vbr_machine::{Call, Holding, Op, Read, Step, Unpublished};
use vbr_words::link::MAX_SLOTS;
use vbr_words::{At, Link, WideWord, version_of};

/// What the world keeps of a pass.
#[derive(Drop)]
pub struct PassState {
    epoch: u64,
    pending: Vec<Read>,
    checked: Vec<Read>,
    own: Vec<Option<Holding>>,
}

impl Model for PassState {
    ghost use Rattle.vbr_world.specs.WorldInLists.{KeptPass, FitsPass};
    ghost use Rattle.vbr_world.specs.PassView.{kept_pass_in};

    ghost Value = { KeptPass };

    ghost view = { kept_pass_in };

    ghost invariant = { λ pass. FitsPass (kept_pass_in pass) };
}

// The unmarked link to a slot or to none.
pub fn link_to(next: Option<u32>, holder_birth: u64, named_birth: u64) -> Link
    requires next { IfSome next (λ slot. slot < MAX_SLOTS) }
    requires holder { holder_birth ≤ MAX_VERSION }
    requires named { named_birth ≤ MAX_VERSION }
    ensures link { result ≡ link_to next holder_birth named_birth }
    ensures fits { IsLink result }
{
    Link {
        slot: next,
        mark: false,
        version: version_of(holder_birth, named_birth),
    }
}

// The link once its node is removed.
fn marked(link: Link) -> Link
    requires { IsLink link }
    ensures link { result ≡ marked link }
    ensures fits { IsLink result }
{
    Link { mark: true, ..link }
}

impl PassState {
    // A pass that has seen nothing, for so many slots.
    pub fn new(alloc: Global, slots: u32) -> Result<Self, AllocError>
        ensures knows { IfOk result (λ pass. know_of pass ≡ knows_nothing) }
        ensures slots { IfOk result (λ pass. length pass.own ≡ slots) }
    {
        Ok(PassState {
            epoch: 1,
            pending: Vec::new(alloc),
            checked: Vec::new(alloc),
            own: vec![in alloc; None; slots as usize]?,
        })
    }

    // The epoch that the pass read last.
    pub fn epoch(&self) -> u64
        ensures epoch { result ≡ self.now.epoch }
        ensures fits { result ≤ MAX_VERSION }
    {
        self.epoch
    }

    // What the pass knows of a slot.
    fn holding(&self, slot: u32) -> Option<Holding>
        requires { slot < length self.now.own }
        ensures holding { result ≡ slice_index_or self.now.own slot None }
        ensures fits { FitsHolding result }
    {
        self.own[slot as usize]
    }

    // The birth at a place, if it is checked; otherwise 0.
    fn birth_at(&self, place: At) -> u64
        ensures birth { result ≡ unwrap_or (birth_at self.now.checked place) 0 }
        ensures fits { result ≤ MAX_VERSION }
    {
        reads::birth_at(&self.checked, place).unwrap_or(0)
    }

    // The birth of what a link names, if it is checked; otherwise 0.
    fn birth_of(&self, next: Option<u32>) -> u64
        ensures birth { result ≡ unwrap_or (birth_of self.now.checked next) 0 }
        ensures fits { result ≤ MAX_VERSION }
    {
        reads::birth_of(&self.checked, next).unwrap_or(0)
    }

    // What the first marked link of a slot names, if one is checked.
    fn next_of_marked(&self, slot: u32) -> Option<u32>
        ensures next { result ≡ next_of_marked (marked_in self.now.checked slot) }
        ensures fits { IfSome result (λ slot. slot < MAX_SLOTS) }
    {
        reads::next_of_marked(&self.checked, slot)
    }

    // Whether the pass owns the slot in the way that the step asks.
    pub fn owns(&self, start: &Start, step: Step) -> bool
        requires slots { length self.now.own ≡ start.now.shape.slots }
        requires in_shape { IsInShape start.now step }
        ensures { IsTrue result ↔ IsOwned (know_of self.now) step }
    {
        match step {
            Step::LoadStamp { slot } => self.holding(slot).is_some(),
            Step::StoreStamp { slot, .. } => holdings::is_unlinked(self.holding(slot)),
            Step::Raise { slot } | Step::StoreBirth { slot, .. } => {
                holdings::may_bear(self.holding(slot))
            }
            Step::StoreKey { slot, .. }
            | Step::StoreValue { slot, .. }
            | Step::StoreLink { slot, .. }
            | Step::Publish { slot, .. } => holdings::is_in_hand(self.holding(slot)),
            Step::Replace { new, .. } => holdings::is_in_hand(self.holding(new)),
            _ => true,
        }
    }

    // Whether the link that a node was read with and its key are checked.
    fn holds_node(&self, slot: u32, expected: WideWord) -> bool
        ensures { IsTrue result
            ↔ (IsTrue (knows_link self.now.checked (At.Slot slot) (link_of expected))
            × IsSome (key_in self.now.checked slot)) }
    {
        reads::knows_link(&self.checked, At::Slot(slot), expected.link())
            && reads::key_in(&self.checked, slot).is_some()
    }

    // Whether the value of a slot is checked, if nodes have values.
    fn holds_value(&self, start: &Start, slot: u32) -> bool
        ensures { IsTrue result ↔ HasValue start.now.shape.values (value_in self.now.checked slot) }
    {
        !start.has_values() || reads::value_in(&self.checked, slot).is_some()
    }

    // Whether the value of a slot is checked, for an operation that gives it.
    fn holds_value_for(&self, op: Op, slot: u32) -> bool
        ensures { IsTrue result ↔ HasValueFor op (value_in self.now.checked slot) }
    {
        match op {
            Op::Get => reads::value_in(&self.checked, slot).is_some(),
            Op::Insert | Op::Remove | Op::Has => true,
        }
    }

    // Whether the link that a node was read with, and its birth, its key and its value, are checked.
    fn holds_whole(&self, slot: u32, expected: WideWord) -> bool
        ensures { IsTrue result
            ↔ (IsTrue (knows_link self.now.checked (At.Slot slot) (link_of expected))
            × (IsSome (birth_in self.now.checked slot) × IsSome (key_in self.now.checked slot)
            × IsSome (value_in self.now.checked slot))) }
    {
        self.holds_node(slot, expected)
            && reads::birth_at(&self.checked, At::Slot(slot)).is_some()
            && reads::value_in(&self.checked, slot).is_some()
    }

    // Whether the link that a place was read with, and the keys on both sides, are checked.
    fn holds_gap(&self, place: At, expected: WideWord) -> bool
        ensures { IsTrue result
            ↔ (IsTrue (knows_link self.now.checked place (link_of expected))
            × KnowsKeyAt self.now.checked place
            × KnowsKeyOf self.now.checked (link_of expected).slot) }
    {
        let link = expected.link();
        reads::knows_link(&self.checked, place, link)
            && reads::knows_key_at(&self.checked, place)
            && reads::knows_key_of(&self.checked, link.slot)
    }

    // Whether the link that a place was read with and the key there are checked, and marked links
    // lead on from it to a checked key, or to none.
    fn holds_way(&self, start: &Start, place: At, expected: WideWord) -> bool
        ensures { IsTrue result
            ↔ (IsTrue (knows_link self.now.checked place (link_of expected))
            × KnowsKeyAt self.now.checked place
            × LeadsToKey start.now.shape.slots self.now.checked (link_of expected).slot) }
    {
        let link = expected.link();
        reads::knows_link(&self.checked, place, link)
            && reads::knows_key_at(&self.checked, place)
            && reads::leads_to_key(&self.checked, start.slots(), link.slot)
    }

    // Whether the births on both sides of a link are checked.
    fn holds_births(&self, place: At, next: Option<u32>) -> bool
        ensures { IsTrue result
            ↔ (IsSome (birth_at self.now.checked place) × IsSome (birth_of self.now.checked next)) }
    {
        reads::birth_at(&self.checked, place).is_some()
            && reads::birth_of(&self.checked, next).is_some()
    }

    // Whether the link that a place was read with, and a marked link of a slot, are checked.
    fn holds_removed(&self, pred: At, expected: WideWord, slot: u32) -> bool
        ensures { IsTrue result
            ↔ (IsTrue (knows_link self.now.checked pred (link_of expected))
            × IsSome (marked_in self.now.checked slot)) }
    {
        reads::knows_link(&self.checked, pred, expected.link())
            && reads::marked_in(&self.checked, slot).is_some()
    }

    // Whether the reads that the step asks for are checked.
    pub fn holds(&self, start: &Start, step: Step) -> bool
        ensures { IsTrue result ↔ HasChecked start.now (know_of self.now) step }
    {
        match step {
            Step::StoreLink { next, .. } => reads::is_next_held(&self.checked, next),
            Step::LoadLink { at: place } => reads::holds_at(&self.checked, place),
            Step::LoadBirth { slot } | Step::LoadKey { slot } | Step::LoadValue { slot } => {
                reads::holds(&self.checked, slot)
            }
            Step::Publish { pred, expected, .. } => {
                self.holds_gap(pred, expected) && self.holds_births(pred, expected.link().slot)
            }
            Step::Mark { slot, expected } => {
                self.holds_node(slot, expected) && self.holds_value(start, slot)
            }
            Step::Replace { slot, expected, .. } => {
                self.holds_whole(slot, expected)
                    && reads::birth_of(&self.checked, expected.link().slot).is_some()
            }
            Step::Unlink {
                pred,
                expected,
                slot,
            } => {
                self.holds_removed(pred, expected, slot)
                    && self.holds_births(pred, self.next_of_marked(slot))
            }
            Step::ConfirmPresent { op, slot, expected } => {
                self.holds_node(slot, expected) && self.holds_value_for(op, slot)
            }
            Step::ConfirmAbsent {
                at: place,
                expected,
                ..
            } => self.holds_way(start, place, expected),
            _ => true,
        }
    }

    // Whether what is in hand has the link to what a link names, and a value if nodes have values.
    fn is_linked_to(&self, start: &Start, known: Unpublished, next: Option<u32>) -> bool
        ensures { IsTrue result
            ↔ ((known.link ≡ Some
            (link_to next known.birth (unwrap_or (birth_of self.now.checked next) 0)))
            × HasValue start.now.shape.values known.value) }
    {
        let Some(link) = known.link else {
            return false;
        };
        let named_birth = reads::birth_of(&self.checked, next).unwrap_or(0);
        link.slot == next
            && !link.mark
            && link.version == version_of(known.birth, named_birth)
            && (known.value.is_some() || !start.has_values())
    }

    // Whether a slot is in hand and ready to stand behind a place, before what the link there
    // names.
    fn is_ready(&self, start: &Start, pred: At, expected: Link, slot: u32) -> bool
        requires { slot < length self.now.own }
        ensures { IsTrue result
            ↔ MayPublish start.now self.now.checked pred expected
            (slice_index_or self.now.own slot None) }
    {
        let Some(Holding::InHand(known)) = self.own[slot as usize] else {
            return false;
        };
        let Some(key) = known.key else {
            return false;
        };
        self.is_between(start, pred, key, expected.slot)
            && self.is_linked_to(start, known, expected.slot)
    }

    // Whether a slot is in hand and ready to take the place of a node, before what its link names.
    fn is_ready_in_place(&self, start: &Start, slot: u32, link: Link, new: Option<Holding>) -> bool
        ensures { IsTrue result ↔ MayReplace start.now self.now.checked slot link new }
    {
        let Some(Holding::InHand(known)) = new else {
            return false;
        };
        known.key == Some(self.key_in(slot)) && self.is_linked_to(start, known, link.slot)
    }

    // Whether a key stands behind a place and before what a link names.
    fn is_between(&self, start: &Start, place: At, key: u64, next: Option<u32>) -> bool
        ensures { IsTrue result
            ↔ (IsBehind start.now self.now.checked place key × IsBefore self.now.checked key next) }
    {
        reads::is_behind(start, &self.checked, place, key)
            && reads::is_before(&self.checked, key, next)
    }

    // Whether a key stands behind a place, and before a slot to which marked links lead from what a
    // link names, or before none.
    fn is_on_way(&self, start: &Start, place: At, key: u64, next: Option<u32>) -> bool
        ensures { IsTrue result
            ↔ (IsBehind start.now self.now.checked place key
            × LeadsAbove start.now.shape.slots self.now.checked key next) }
    {
        reads::is_behind(start, &self.checked, place, key)
            && reads::leads_above(&self.checked, start.slots(), key, next)
    }

    // Whether the step's numbers are in range.
    pub fn is_in_range(&self, start: &Start, step: Step) -> bool
        requires slots { length self.now.own ≡ start.now.shape.slots }
        requires in_shape { IsInShape start.now step }
        ensures { IsTrue result ↔ IsInRange start.now (know_of self.now) step }
    {
        match step {
            Step::Advance { from } => from >= 1,
            Step::StoreStamp { slot, stamp } => {
                holdings::is_reread(self.holding(slot)) && stamp == self.epoch
            }
            Step::StoreBirth { slot, birth } => {
                birth == self.epoch && holdings::stamp_in(self.holding(slot)) < birth
            }
            Step::Publish {
                pred,
                expected,
                slot,
            } => {
                let link = expected.link();
                !link.mark && self.is_ready(start, pred, link, slot)
            }
            Step::Mark { expected, .. } => !expected.link().mark,
            Step::Replace {
                slot,
                expected,
                new,
            } => {
                let link = expected.link();
                !link.mark && self.is_ready_in_place(start, slot, link, self.holding(new))
            }
            Step::Unlink { expected, slot, .. } => {
                let link = expected.link();
                !link.mark && link.slot == Some(slot)
            }
            Step::ConfirmPresent { op, expected, .. } => {
                !expected.link().mark && op != Op::Remove
            }
            Step::ConfirmAbsent {
                op,
                key,
                at: place,
                expected,
            } => {
                let link = expected.link();
                !link.mark && op != Op::Insert && self.is_on_way(start, place, key, link.slot)
            }
            _ => true,
        }
    }

    // The link that the step writes.
    fn new_link(&self, start: &Start, step: Step) -> Link
        requires slots { length self.now.own ≡ start.now.shape.slots }
        requires accepted { Accepts start.now (know_of self.now) step }
        ensures link { result ≡ link_written (know_of self.now) step }
        ensures fits { IsLink result }
    {
        prove!(start.slots() <= MAX_SLOTS);
        match step {
            Step::StoreLink { slot, next } => {
                let birth = holdings::birth_in_hand(self.holding(slot));
                link_to(next, birth, self.birth_of(next))
            }
            Step::Publish { pred, slot, .. } => {
                let birth = holdings::birth_in_hand(self.holding(slot));
                link_to(Some(slot), self.birth_at(pred), birth)
            }
            Step::Mark { expected, .. } => marked(expected.link()),
            Step::Replace { slot, new, .. } => {
                let birth = holdings::birth_in_hand(self.holding(new));
                marked(link_to(Some(new), self.birth_at(At::Slot(slot)), birth))
            }
            Step::Unlink { pred, slot, .. } => {
                let next = self.next_of_marked(slot);
                link_to(next, self.birth_at(pred), self.birth_of(next))
            }
            _ => holdings::opening_link(),
        }
    }

    // The word of the link that the step writes.
    pub fn link_written(&self, start: &Start, step: Step) -> WideWord
        requires slots { length self.now.own ≡ start.now.shape.slots }
        requires accepted { Accepts start.now (know_of self.now) step }
        ensures word { result ≡ word_of (link_written (know_of self.now) step) }
        ensures fits { IsLink (link_written (know_of self.now) step) }
    {
        WideWord::of(self.new_link(start, step))
    }

    // The key of a slot in hand; 0 if there is none.
    pub fn key_in_hand(&self, slot: u32) -> u64
        requires { slot < length self.now.own }
        ensures { result ≡ key_in_hand ((know_of self.now).own slot) }
    {
        holdings::key_in_hand(self.holding(slot))
    }

    // The value of a slot in hand that a publication or a replacement records: none if nodes have no
    // values.
    fn value_stored(&self, start: &Start, slot: u32) -> Option<u64>
        requires { slot < length self.now.own }
        ensures { result ≡ payload_kept start.now (value_in_hand ((know_of self.now).own slot)) }
    {
        if start.has_values() {
            holdings::value_in_hand(self.holding(slot))
        } else {
            None
        }
    }

    // The value of a node that a removal or a replacement records: none if nodes have no values.
    fn value_removed(&self, start: &Start, slot: u32) -> Option<u64>
        ensures { result ≡ payload_kept start.now (value_in self.now.checked slot) }
    {
        if start.has_values() {
            reads::value_in(&self.checked, slot)
        } else {
            None
        }
    }

    // The value of a present node that an operation gives.
    fn present_value(&self, op: Op, slot: u32) -> Option<u64>
        ensures { result ≡ present_value op (value_in self.now.checked slot) }
    {
        match op {
            Op::Get => reads::value_in(&self.checked, slot),
            Op::Insert | Op::Remove | Op::Has => None,
        }
    }

    // The key of a node, if it is checked; otherwise 0.
    fn key_in(&self, slot: u32) -> u64
        ensures { result ≡ unwrap_or (key_in self.now.checked slot) 0 }
    {
        reads::key_in(&self.checked, slot).unwrap_or(0)
    }

    // The call that the step makes ahead of its own, if it makes one when it succeeds.
    pub fn call_ahead(&self, who: u32, start: &Start, step: Step) -> Option<Call>
        ensures { result ≡ call_ahead start.now who (know_of self.now) step }
    {
        match step {
            Step::Replace { slot, .. } => Some(Call {
                who,
                op: Op::Remove,
                key: self.key_in(slot),
                reply: true,
                value: self.value_removed(start, slot),
            }),
            _ => None,
        }
    }

    // The call of the step, if it makes one when it succeeds.
    pub fn call(&self, who: u32, start: &Start, step: Step) -> Option<Call>
        requires slots { length self.now.own ≡ start.now.shape.slots }
        requires in_shape { IsInShape start.now step }
        ensures { result ≡ call_of start.now who (know_of self.now) step }
    {
        let (op, key, reply, value) = match step {
            Step::Publish { slot, .. } => {
                let value = self.value_stored(start, slot);
                (Op::Insert, self.key_in_hand(slot), true, value)
            }
            Step::Mark { slot, .. } => {
                let value = self.value_removed(start, slot);
                (Op::Remove, self.key_in(slot), true, value)
            }
            Step::Replace { new, .. } => {
                let value = self.value_stored(start, new);
                (Op::Insert, self.key_in_hand(new), true, value)
            }
            Step::ConfirmPresent { op, slot, .. } => {
                let value = self.present_value(op, slot);
                (op, self.key_in(slot), present_reply(op), value)
            }
            Step::ConfirmAbsent { op, key, .. } => (op, key, false, None),
            _ => return None,
        };
        Some(Call {
            who,
            op,
            key,
            reply,
            value,
        })
    }
}
