//! The laws of a stretch of a run: how often the calls of all passes can have disturbed one of them.
//! Each function says its law in its contract, and does nothing.
ghost use Rattle.vbr_set.specs.progress.Stretches.{MapStretchesMakeProgress, PassesComeByCalls, StretchesDisturb, StretchesMakeProgress};

/// A law: an insert or a store, answered or refused, makes at most one step that would advance the
/// epoch. Each other call makes none, nor does going over keys, meeting others, catching up, giving
/// slots back or reserving some.
#[tactic(auto, using(crate::proofs::progress::StretchedRuns::come_by_calls))]
pub fn passes_come_by_calls()
    ensures { PassesComeByCalls }
{}

/// A law of a stretch of a run. Let each pass of the set have begun so many inserts between the ends of
/// two of its calls, of which the first comes no later than the beginning of the stretch, and the
/// second no earlier than its end. Then a pass is disturbed in the stretch at most once for each of
/// these inserts, twice for each update that was answered yes in it, and once for each node that was
/// marked when it began. So if no update is answered yes, it is disturbed no more often than there are
/// such inserts and nodes.
#[tactic(auto, using(crate::proofs::progress::StretchedRuns::stretches_disturb))]
pub fn stretches_disturb()
    ensures { StretchesDisturb }
{}

/// A law: so a call that is refused for want of steps had a budget below what is enough for that many
/// disturbances: a look-up, a remove or an insert.
#[tactic(auto, using(crate::proofs::progress::StretchedRuns::stretches_progress))]
pub fn stretches_make_progress()
    ensures { StretchesMakeProgress }
{}

/// A law: the same for the calls of a map.
#[tactic(auto, using(crate::proofs::progress::StretchedRuns::map_stretches_progress))]
pub fn map_stretches_make_progress()
    ensures { MapStretchesMakeProgress }
{}
