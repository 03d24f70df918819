//! Retiring: the stamp of a slot is an epoch that was read after the slot was unlinked.
ghost use Rattle.std.specs.Prelude.{◌≡◌, ℕ, ◌<◌, false, None};
ghost use Rattle.vbr_words.specs.declared.place.At.TheVariants.{Head, Slot};
ghost use Rattle.vbr_table_tests.specs.Names.{IsHeld, IsOf, IsPresent, IsUnlinked, IsUnmarked, IsValued, Keeps};
ghost use Rattle.vbr_table_tests.specs.Names.{KeepsOwn, Names, knows, link_of, said};

use crate::kept_words::{EMPTY, TO_NONE, link_in, to_slot};
use crate::running_table::{Opened, expect_pass, expect_words, two_passes};
use std::alloc::Global;
use std::process::Abort;
use vbr_access::{
    Held, checkpoint, first, key_of, mark_entry, next, unlink, update_entry, value_of,
};
use vbr_pools::{Unlinked, retire, take};
use vbr_slots::{Pass, Slots};
use vbr_words::{At, Entries, Keys, Link, Nodes};

// The head of bucket 0, which has this link, read after a new checkpoint in epoch 1.
pub fn head_of<N: Nodes>(rt: &impl Abort, slots: &Slots<N>, pass: &mut Pass, link: Link) -> Held
    requires own { IsOf pass.old.trace slots.now }
    requires bucket { 0 < slots.now.start.shape.buckets }
    ensures own { IsOf pass.new.trace slots.now }
    ensures keeps { KeepsOwn pass.old pass.new }
    ensures place { result.at ≡ Head 0 }
    ensures held { IsHeld (knows pass.new.trace) (said slots.now result) }
    ensures link { link_of (said slots.now result).word ≡ link }
{
    let point = checkpoint(slots, pass);
    let head = first(slots, pass, &point, 0).expect(rt, "the epoch has not moved");
    assert_eq!(rt; head.epoch, 1);
    assert!(rt; link_in(slots, head.word) == link);
    head
}

// The node that a head names, which stands in this slot and is the last. The head was held before.
pub fn last_node<N: Nodes>(
    rt: &impl Abort,
    slots: &Slots<N>,
    pass: &mut Pass,
    head: &Held,
    slot: u32,
) -> Held
    requires own { IsOf pass.old.trace slots.now }
    requires head { IsHeld (knows pass.old.trace) (said slots.now head.now) }
    ensures own { IsOf pass.new.trace slots.now }
    ensures keeps { KeepsOwn pass.old pass.new }
    ensures head { IsHeld (knows pass.new.trace) (said slots.now head.now) }
    ensures node { IsHeld (knows pass.new.trace) (said slots.now result) }
    ensures named { Names (said slots.now head.now) slot × (result.at ≡ Slot slot) }
    ensures link { link_of (said slots.now result).word
        ≡ record { slot = None; mark = false; version = 1 } }
{
    let node = next(slots, pass, head)
        .expect(rt, "the epoch has not moved")
        .expect(rt, "a node");
    assert!(rt; link_in(slots, node.word) == TO_NONE);
    assert!(rt; node.at == At::Slot(slot));
    node
}

// Reads the one node, which has key 7: the head of bucket 0 and the node, both in epoch 1.
pub fn read_one<N: Nodes>(rt: &impl Abort, slots: &Slots<N>, pass: &mut Pass) -> (Held, Held)
    requires own { IsOf pass.old.trace slots.now }
    requires bucket { 0 < slots.now.start.shape.buckets }
    ensures own { IsOf pass.new.trace slots.now }
    ensures hand { pass.new.hand ≡ pass.old.hand }
    ensures head { IsUnmarked (knows pass.new.trace) (said slots.now result.0) }
    ensures node { IsPresent (knows pass.new.trace) (said slots.now result.1) }
    ensures place { result.1.at ≡ Slot 0 }
    ensures names { (slot : ℕ) ×
        Names (said slots.now result.0) slot × (result.1.at ≡ Slot slot) }
{
    let head = head_of(rt, slots, pass, to_slot(0));
    assert_eq!(rt; head.at, At::Head(0));
    let node = last_node(rt, slots, pass, &head, 0);
    assert_eq!(rt; node.birth, 1);
    let key = key_of(slots, pass, &node).expect(rt, "the epoch has not moved");
    assert_eq!(rt; key, 7);
    (head, node)
}

// Reads the value of a node, which is 107, if nodes have values.
pub fn read_value<N: Nodes>(rt: &impl Abort, slots: &Slots<N>, pass: &mut Pass, node: &Held)
    requires own { IsOf pass.old.trace slots.now }
    requires node { IsPresent (knows pass.old.trace) (said slots.now node.now) }
    requires place { node.now.at ≡ Slot 0 }
    ensures own { IsOf pass.new.trace slots.now }
    ensures hand { pass.new.hand ≡ pass.old.hand }
    ensures keeps { Keeps (knows pass.old.trace) (knows pass.new.trace) }
    ensures valued { IsValued pass.new.trace node.now.at }
{
    slots.kind();
    if !N::VALUES {
        return;
    }
    let value = value_of(slots, pass, node).expect(rt, "the epoch has not moved");
    assert_eq!(rt; value, 107);
}

// Takes slot 0, and inserts 7 into the one bucket, which is empty; with 107, if nodes have values. It takes 4 steps
// for the slot, 3 to the head, and 3 to link it, or 4 with the value.
pub fn insert_one<N: Nodes>(rt: &impl Abort, slots: &Slots<N>, pass: &mut Pass)
    requires own { IsOf pass.old.trace slots.now }
    requires bucket { slots.now.start.shape.buckets ≡ 1 }
    requires empty_hand { pass.old.hand ≡ None }
    ensures own { IsOf pass.new.trace slots.now }
    ensures empty_hand { pass.new.hand ≡ None }
{
    let hand = take(slots, pass, 100).expect(rt, "a slot is in the shared pool");
    assert_eq!(rt; (hand.slot(), hand.birth()), (0, 1));
    let head = head_of(rt, slots, pass, EMPTY);
    let None = next(slots, pass, &head).expect(rt, "there is no step") else {
        panic!(rt; "a node")
    };
    match update_entry(slots, pass, &head, None, 7, 107, hand) {
        Ok(()) => {}
        Err(_refused) => panic!(rt; "not inserted"),
    }
}

// Marks and unlinks the one node, which is in slot 0: 8 steps to read it, 2 more if it has a value, a mark, and an
// exchange.
pub fn remove_one<N: Nodes>(rt: &impl Abort, slots: &Slots<N>, pass: &mut Pass) -> Unlinked
    requires own { IsOf pass.old.trace slots.now }
    requires bucket { 0 < slots.now.start.shape.buckets }
    ensures own { IsOf pass.new.trace slots.now }
    ensures hand { pass.new.hand ≡ pass.old.hand }
    ensures slot { result.slot ≡ 0 }
    ensures unlinked { IsUnlinked ((knows pass.new.trace).own result.slot) }
{
    let (head, node) = read_one(rt, slots, pass);
    read_value(rt, slots, pass, &node);
    let marked = mark_entry(slots, pass, &node).expect(rt, "the link is unmarked");
    let (unlinked, head) = unlink(slots, pass, &head, marked).expect(rt, "the node is linked");
    assert_eq!(rt; (head.at, head.word), (At::Head(0), 0));
    assert!(rt; unlinked.slot() == 0);
    unlinked
}

// Pass 0 inserts, removes and unlinks, and pass 1 moves the epoch, before the slot is retired. Compares how many steps
// pass 0 made in all, and the words of the closing.
fn retire_late<R: Abort, N: Opened>(rt: &R, alloc: Global, steps: u64, words: &[u64]) {
    let (slots, mut a, mut b) = two_passes::<R, N>(rt, alloc, 1, 10);
    insert_one(rt, &slots, &mut a);
    let unlinked = remove_one(rt, &slots, &mut a);
    assert!(rt; slots.read_epoch(&mut b) == 1);
    assert!(rt; slots.advance(&mut b, 1));
    assert_eq!(rt; retire(&slots, &mut a, unlinked), 2);
    expect_pass(rt, &a, (0, 2, steps));
    assert_eq!(rt; a.pool(), [0].as_slice());
    expect_words(rt, alloc, slots, a, b, words);
}

/// The epoch moves between an unlinking and the return of the slot: the stamp is the new epoch.
#[test]
fn a_stamp_is_read_after_the_unlinking(rt: HostRuntime) {
    let words = [2, 21, 0, 6, 1, 2, 7, 0];
    retire_late::<HostRuntime, Keys>(&rt, rt.alloc(), 22, &words);
    let words = [2, 21, 0, 6, 1, 2, 7, 107, 0];
    retire_late::<HostRuntime, Entries>(&rt, rt.alloc(), 25, &words);
}
