//! The laws of tokens, and of progress. Each function says its law in its contract, and does nothing.
ghost use Rattle.vbr_set.specs.members.BalanceSums.{BalancesAddUp};
ghost use Rattle.vbr_set.specs.renewals.RenewalRoom.{RoomIsTold};
ghost use Rattle.vbr_set.specs.Laws.{AnswersStay, CallsStayInOrder, InsertsMakeProgress, LookUpsMakeProgress, MapsMakeProgress, RemovesMakeProgress, TokensHandOn};
ghost use Rattle.vbr_set.specs.progress.WalkProgress.{WalksMakeProgress};

use vbr_machine::laws::a_run_is_a_map;

/// A law: a caller that catches up with the last token of a chain catches up with the first, through
/// any number of callers that each caught up with a token before they made the next.
pub fn tokens_hand_on()
    ensures { TokensHandOn }
{}

/// A law: let a caller of a set be answered a call and then make a token, let the token be handed on
/// through any number of callers, and let one of them that caught up be answered a call. Then the
/// first call stands before this one, in the legal history that its caller then has.
pub fn calls_stay_in_order()
    ensures { CallsStayInOrder }
{}

/// A law: let a call be answered, and let its pass then make no call, but take slots or give some back. What
/// the answer left stands on: the call stands in the one legal history that the pass then has.
#[tactic(auto, using(crate::proofs::histories::Staying::answers_stay))]
pub fn answers_stay()
    ensures { AnswersStay }
{
    a_run_is_a_map();
}

/// A law: a look-up that runs out of steps was disturbed. With m the advances of the epoch meanwhile,
/// two for each update of the set that was answered yes meanwhile, and one for each node that was
/// marked when it began, its budget was below (m + 1) * (5 * (n + m) + 11), with n nodes in the key's
/// bucket. So with that budget it is answered, unless updates are.
pub fn look_ups_make_progress()
    ensures { LookUpsMakeProgress }
{}

/// A law: likewise a remove that runs out of steps was disturbed. Its budget was below
/// (m + 1) * (9 * (n + m) + 11).
pub fn removes_make_progress()
    ensures { RemovesMakeProgress }
{}

/// A law: likewise an insert that is refused for want of steps was disturbed. With a slot in the pass's
/// own pool its budget was below (m + 2) * (9 * (n + m) + 7) + 68. With none, 68 stands for the greater
/// of it and w + 6, with w flag words, and besides for each slot that other passes took out of the
/// shared pool meanwhile the bound is one more.
#[tactic(auto, using(crate::proofs::progress::Progress::inserts_progress))]
pub fn inserts_make_progress()
    ensures { InsertsMakeProgress }
{}

/// A law: likewise the calls of a map. A get counts as a look-up, and a remove by its value as a
/// remove. A store has five steps more than an insert for each time that it was disturbed, and two more
/// if it compares the value.
#[tactic(auto, using(crate::proofs::progress::Progress::maps_progress))]
pub fn maps_make_progress()
    ensures { MapsMakeProgress }
{}

/// A law: likewise a call of a walk. Its budget was below what the buckets cost that its cursor has
/// gone over, each (m + 1) * (5 * (n + m) + 3) with its own n, or (m + 1) * (5 * (n + m) + 5) in a map,
/// and (m + 1) * (5 * (n + m) + 11) for the one where it then stands. In a stretch of a run, the laws
/// of stretches say what m is.
#[tactic(auto, using(crate::proofs::progress::AnsweredWalks::walks_progress))]
pub fn walks_make_progress()
    ensures { WalksMakeProgress }
{}

/// A law: while the members of a set or of a map stand still, the balances of all of them, each once,
/// add up to its number of keys.
#[tactic(auto, using(crate::proofs::sums::BalanceSums::add_up))]
pub fn balances_add_up()
    ensures { BalancesAddUp }
{}

/// A law: if the members of a set or of a map, each once, get a report, the report shows whether a
/// renewal has room. So a renewal that is refused for want of room has more keys than slots, and one
/// that is refused for want of memory hasn't.
#[tactic(auto, using(crate::proofs::whereabouts::RenewalRoom::room_told))]
pub fn room_is_told()
    ensures { RoomIsTold }
{}
