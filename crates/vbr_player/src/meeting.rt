// The meeting of all workers.
ghost use Rattle.std.specs.Prelude.{◌≡◌, All, length};
ghost use Rattle.std.specs.List.{AllZip};
ghost use Rattle.vbr_machine.specs.Runs.{Begins};
ghost use Rattle.vbr_player.specs.Meeting.{AreOfOne, HasLooked, HasSeenMore, Meets, MeetsOthers};

use crate::worker::Worker;
use vbr_set::VbrSetRef;
use vbr_words::Nodes;

// Lets each worker see all that every other has seen.
pub fn meet_all<'w, N: Nodes>(mut workers: Vec<Worker<'w, N>>) -> Vec<Worker<'w, N>>
    requires { AreOfOne workers.items }
    ensures { Meets workers.entry.items result.items }
{
    let Some(mut last) = workers.pop() else {
        return workers;
    };
    meet_others(&mut last.caller, &mut workers);
    let Ok(()) = workers.push(last) else {
        unreachable!()
    };
    workers
}

// Lets a pass see all that these workers have seen, and then each of them what it has seen.
fn meet_others<N: Nodes>(caller: &mut VbrSetRef<N>, others: &mut [Worker<N>])
    requires { All (λ other. other.caller.set ≡ caller.old.set) others.old }
    ensures { MeetsOthers caller.old caller.new others.old others.new }
{
    see_all(caller, others);
    show_all(caller, others);
}

// Lets a pass see all that each of these workers has seen.
fn see_all<N: Nodes>(caller: &mut VbrSetRef<N>, others: &mut [Worker<N>])
    requires { All (λ other. other.caller.set ≡ caller.old.set) others.old }
    ensures same { others.new ≡ others.old }
    ensures looked { HasLooked (length others.old) caller.old caller.new }
    ensures seen { All
        (λ other. Begins other.caller.pass.trace.seen caller.new.pass.trace.seen) others.old }
{
    for other in others.iter_mut() {
        caller.meet(&mut other.caller);
    }
}

// Lets each of these workers see all that a pass has seen.
fn show_all<N: Nodes>(caller: &mut VbrSetRef<N>, others: &mut [Worker<N>])
    requires { All (λ other. other.caller.set ≡ caller.old.set) others.old }
    ensures same { caller.new ≡ caller.old }
    ensures looks { AllZip (HasSeenMore 1) others.old others.new }
    ensures seen { All
        (λ other. Begins caller.old.pass.trace.seen other.caller.pass.trace.seen) others.new }
{
    for other in others.iter_mut() {
        other.caller.meet(caller);
    }
}
