//! Renewing a set or a map by all its members, with the slots that its entries had.
ghost use Rattle.std.specs.Prelude.{IfErr, IfOk, OnOk};
ghost use Rattle.vbr_set.specs.members.AllMembers.{AreOfOneSet};
ghost use Rattle.vbr_set.specs.renewals.RenewingAll.{AreNotAll, IsWhyUnrenewed};
ghost use Rattle.vbr_set.specs.renewals.RenewingWithSlots.{RenewsAllWithSlots};

use crate::close_all_error::CloseAllError;
use crate::kind::Kind;
use crate::member::Member;
use crate::member::renewing_all::{count_if_all, without_report};
use crate::renew_all_error::RenewAllError;
use crate::report_with_slots::ReportWithSlots;
use std::alloc::Global;
use vbr_words::Shape;

impl<N: Kind> Member<N> {
    /// Moves all members of a set or a map to a fresh one of this shape, as [`Member::renew_all`] does.
    /// It also returns the slots that the keys or the entries had in the old one, in the order of the
    /// keys. In the fresh one key number i stands in slot i ([`slots_carry_over`]). So a program that
    /// keeps a record beside each slot carries them over by `fresh_records[i] = records[slots[i]]`.
    ///
    /// It takes the memory of [`Member::renew_all`], and while it runs 20 bytes more for each slot of
    /// the old one, 4 of them for the slots that it returns. Errors are as for [`Member::renew_all`];
    /// the members then come back as they were.
    ///
    /// [`slots_carry_over`]: crate::slot_laws::slots_carry_over
    pub fn renew_all_with_slots(
        alloc: Global,
        members: Vec<Member<N>>,
        shape: Shape,
    ) -> Result<(Vec<Member<N>>, Vec<u32>), RenewAllError<Member<N>>>
        requires { AreOfOneSet members.items }
        ensures renewed { IfOk result
            (λ r. RenewsAllWithSlots N.kind members.items shape r.0.items r.1.items) }
        ensures all { OnOk result (¬ (AreNotAll members.items)) }
        ensures not { IfErr result (IsWhyUnrenewed N.kind members.items shape) }
    {
        let Some(passes) = count_if_all(&members) else {
            return Err(RenewAllError::Missing(members));
        };
        let (told, members) = match Member::<N>::report_all_with_slots(alloc, members) {
            Ok(told) => told,
            Err(CloseAllError::Missing(members)) => return Err(RenewAllError::Missing(members)),
            Err(CloseAllError::Memory(members)) => return Err(without_report(members, shape)),
        };
        let ReportWithSlots { report, slots } = told;
        let items = N::items(&report);
        if items.len() > shape.slots() as usize {
            return Err(RenewAllError::Room(members));
        }
        match Member::<N>::open_many(alloc, shape, passes, items) {
            Ok(fresh) => Ok((fresh, slots)),
            Err(_) => Err(RenewAllError::Memory(members)),
        }
    }
}
