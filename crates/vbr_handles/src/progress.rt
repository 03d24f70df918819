//! A law of calls through handles. The function says it in its contract, and does nothing.
ghost use Rattle.vbr_handles.specs.HandleProgress.{HandlesCallAmply};

/// A law: if the call of a handle has a budget that is enough while no update is answered yes, the call
/// and the top-up of the handle's reserve after it are one such call, within the budget. So the law by
/// which somebody is answered (`steps_are_answered` of `vbr_set`) also holds for calls in C, C++ and
/// Rust.
#[tactic(auto, using(crate::proofs::HandleProgress::call_amply))]
pub fn handles_call_amply()
    ensures { HandlesCallAmply }
{}
