//! The laws of progress of the whole set: a call with budget enough is answered, or another one is
//! meanwhile. Each function says its law in its contract, and does nothing.
ghost use Rattle.vbr_set.specs.progress.Callers.{BatchesCall, CallsAreAnswered, MembersCall, StepsAreAnswered};
ghost use Rattle.vbr_set.specs.progress.Winning.{InsertsPayForGains, KnownBudgetsShowAnswers, NobodyGoesBeyond, PassesWinInNeed, ShapesTellWithoutSlots};
ghost use Rattle.vbr_set.specs.progress.Progressing.{AnswersDisturb, EpochsArePaid, FewUnanswered, MapRefusalsShowAnswers, PassesAdvanceInNeed, RefusalsShowAnswers, ShapesTellEnough};
ghost use Rattle.vbr_set.specs.progress.WalkProgress.{MembersWalk, ShapesTellEnoughToWalk, StepsOrWalksAreAnswered, WalksShowAnswers};

/// A law: a pass made each step that would advance the epoch only when it needed that: it had a slot,
/// in which it may give birth, that is stamped with the epoch. This holds when it is opened, and after
/// each call on a set or a map, answered or refused, each meeting, each catching up, and each giving
/// back, each reserve and each top-up of slots.
#[tactic(auto, using(crate::proofs::progress::AnsweredCalls::advance_in_need))]
pub fn passes_advance_in_need()
    ensures { PassesAdvanceInNeed }
{}

/// A law: let each pass of the set come back from the calls in which it makes its steps, or make none in
/// the stretch, wherever it stands. Then a pass is disturbed no more often than once, once for each node
/// that was marked at first, once for each that was removed and not retired, and three times for each
/// update that is answered yes.
#[tactic(auto, using(crate::proofs::progress::AnsweredCalls::answers_disturb))]
pub fn answers_disturb()
    ensures { AnswersDisturb }
{}

/// A law: so a look-up, a remove or an insert, with a budget that is enough while no update is answered
/// yes, is refused for want of steps only if another pass was answered yes meanwhile. An insert whose
/// own pool is empty also counts the slots that others took out of the shared pool: those that they did
/// take here, and those that they can take in `known_budgets_show_answers`.
#[tactic(auto, using(crate::proofs::progress::AnsweredCalls::refusals_show))]
pub fn refusals_show_answers()
    ensures { RefusalsShowAnswers }
{}

/// A law: the same for the calls on a map.
#[tactic(auto, using(crate::proofs::progress::AnsweredCalls::map_refusals_show))]
pub fn map_refusals_show_answers()
    ensures { MapRefusalsShowAnswers }
{}

/// A law: the same for the calls of a walk. With a budget that is enough in the bucket of its cursor
/// while no update is answered yes, a call gives a key, comes to the end or brings the cursor to a
/// later bucket, or another pass was answered yes meanwhile. With a budget that is enough for all
/// buckets from there on, it is refused only if another pass was. With a budget that is enough in each
/// bucket, the same holds for a list or a count of all keys.
#[tactic(auto, using(crate::proofs::progress::AnsweredWalks::walks_show))]
pub fn walks_show_answers()
    ensures { WalksShowAnswers }
{}

/// A law: while a pass makes a call with a budget that is enough while no update is answered yes,
/// somebody is answered, it or another. For an insert or a store: unless it is refused for want of a
/// slot or of an epoch. Its budget may be the one of `known_budgets_show_answers`.
pub fn calls_are_answered()
    ensures { CallsAreAnswered }
{}

/// A law: let each pass make one such call after another, with no more than so many steps each. What it
/// does after a call in the steps left of its budget, such as topping its slots up, counts among them;
/// otherwise it makes no step in between. Or let it make no more than twice so many steps at all. Then
/// somebody is answered in any stretch of a run in which all of them make more steps than twice so many
/// for each pass.
#[tactic(auto, using(crate::proofs::progress::AnsweredSteps::steps_answered))]
pub fn steps_are_answered()
    ensures { StepsAreAnswered }
{}

/// A law: the same for callers that also walk, each call of a walk with a budget that is enough in the
/// bucket of its cursor. In such a stretch somebody is answered, or one of these calls gives a key,
/// comes to the end or brings its cursor to a later bucket.
pub fn steps_or_walks_are_answered()
    ensures { StepsOrWalksAreAnswered }
{}

/// A law: if each pass had at most one slot unlinked and not stamped, then, while no update is answered
/// yes, a pass is disturbed at most once, twice for each node that was marked at first, and once for
/// each pass.
#[tactic(auto, using(crate::proofs::progress::EnoughByShape::few_unanswered))]
pub fn few_unanswered()
    ensures { FewUnanswered }
{}

/// A law: the shape of a table gives a budget that is enough, whatever is in the table, for a look-up,
/// for a remove, and for an insert by a pass that has a slot of its own.
#[tactic(auto, using(crate::proofs::progress::EnoughByShape::shapes_tell))]
pub fn shapes_tell_enough()
    ensures { ShapesTellEnough }
{}

/// A law: each look-up or get of a batch is such a call, if the budget is enough by the shape of the
/// table.
#[tactic(auto, using(crate::proofs::many_keys::BatchCalls::batches_call))]
pub fn batches_call()
    ensures { BatchesCall }
{}

/// A law: the shape of a table gives a budget that is enough, whatever is in the table, for a call of a
/// walk to give a key or to come to the next bucket.
#[tactic(auto, using(crate::proofs::progress::EnoughByShape::shapes_tell_to_walk))]
pub fn shapes_tell_enough_to_walk()
    ensures { ShapesTellEnoughToWalk }
{}

/// A law: what a call of a member for the next key or the next entry ensures is what the laws of walks ask
/// of one of its pass.
#[tactic(auto, using(crate::proofs::progress::AnsweredWalks::members_walk))]
pub fn members_walk()
    ensures { MembersWalk }
{}

/// A law: what a call of a member ensures is what the laws of calls ask of one of its pass.
#[tactic(auto, using(crate::proofs::members::MembersCalls::members_calls))]
pub fn members_call()
    ensures { MembersCall }
{}

/// A law: if each pass came back from its calls, the epoch is at most one more than the number of
/// removes and replacements that were answered yes, however many inserts were begun.
#[tactic(auto, using(crate::proofs::progress::AnsweredCalls::epochs_paid))]
pub fn epochs_are_paid()
    ensures { EpochsArePaid }
{}

// ---- slots out of the shared pool

/// A law: a pass wins a flag only if it has no slot, and never puts its last slot into the shared pool.
/// This holds for each call on a set or a map, answered or refused, while it has all its slots, and for
/// each meeting and catching up. By giving back it goes beyond that at most once, and by each reserve
/// and each top-up of slots at most once for each slot that it takes. A pass that may lack slots goes
/// beyond it at most once by each insert.
#[tactic(auto, using(crate::proofs::progress::WonFlags::win_in_need))]
pub fn passes_win_in_need()
    ensures { PassesWinInNeed }
{}

/// A law: if none of the other passes ever went beyond its need, together they never did.
#[tactic(auto, using(crate::proofs::progress::WonFlags::nobody_beyond))]
pub fn nobody_goes_beyond()
    ensures { NobodyGoesBeyond }
{}

/// A law: let each other pass stand still in a stretch, or come through it between two of its calls. Then they take
/// no more slots out of the shared pool than one each, one for each time that they go beyond their need, and one for
/// each insert of theirs that is answered yes.
pub fn inserts_pay_for_gains()
    ensures { InsertsPayForGains }
{}

/// A law: so an insert or a store with a budget that is enough with so many slots taken by others is
/// refused for want of steps only if another pass was answered yes meanwhile. That budget is known as
/// the call begins, even if its own pool is empty.
#[tactic(auto, using(crate::proofs::progress::KnownBudgets::known_budgets_show))]
pub fn known_budgets_show_answers()
    ensures { KnownBudgetsShowAnswers }
{}

/// A law: the shape of a table and the number of passes give a budget that is enough for an insert and
/// for a store of any pass, whatever is in the table and in the pass's own pool.
#[tactic(auto, using(crate::proofs::progress::EnoughWithoutSlots::shapes_tell_without))]
pub fn shapes_tell_without_slots()
    ensures { ShapesTellWithoutSlots }
{}
