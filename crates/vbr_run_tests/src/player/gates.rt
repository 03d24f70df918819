//! The gate of the player: that the workers of a phase run at the same time, and that each call of it
//! comes to the gate.
use crate::player::{expect_map_totals, expect_totals};
use std::alloc::Global;
use std::hint::spin_loop;
use std::process::Abort;
use std::sync::atomic::{AtomicBool, AtomicU32, Ordering};
use std::test::Fail;
use vbr_run::{Config, Gate, Reply, RunError, play, play_map};
use vbr_words::Shape;
use vbr_words::shape::MAX_EPOCH;

// How often a wait looks at its flag before it gives up.
const LOOKS: u32 = 1_000_000_000;

// How a script is played: two workers, on a set or a map of ample size.
fn two_workers() -> Result<Config, Fail> {
    let shape = Shape::new(1024, 16, MAX_EPOCH)?;
    Ok(Config::new(shape, 2, 100_000, false)?)
}

// Plays a script for two workers at a gate, by a call of the player: what is written, and the totals.
fn play_at<G, Told, F: FnOnce(Config, &mut &[u8], &mut Vec<u8>, &G) -> Result<Told, RunError>>(
    alloc: Global,
    mut script: &[u8],
    gate: &G,
    player: F,
) -> Result<(Vec<u8>, Told), Fail>
    requires { F.IsAlwaysCallable player }
{
    let mut output = Vec::new(alloc);
    let totals = player(two_workers()?, &mut script, &mut output, gate)?;
    Ok((output, totals))
}

/// A gate at which worker 0 waits before line 0 until worker 1 has its reply to line 1, and worker 1 waits
/// before line 1 until worker 0 has come. If one of them plays its line to the end before the other
/// begins, the first of the two waits in vain, and gives up.
#[derive(Drop)]
struct Crossing {
    first_came: AtomicBool,
    second_answered: AtomicBool,
    gave_up: AtomicBool,
}

impl Crossing {
    fn new() -> Self {
        Crossing {
            first_came: AtomicBool::new(false),
            second_answered: AtomicBool::new(false),
            gave_up: AtomicBool::new(false),
        }
    }

    // Waits until a flag is set. If it isn't set for too long, that is noted.
    fn wait_for(&self, flag: &AtomicBool) {
        for _ in 0..LOOKS {
            if flag.load(Ordering::SeqCst) {
                return;
            }
            spin_loop();
        }
        self.gave_up.store(true, Ordering::SeqCst);
    }
}

impl Gate for Crossing {
    fn before(&self, worker: u32, line: u64) {
        match (worker, line) {
            (0, 0) => {
                self.first_came.store(true, Ordering::SeqCst);
                self.wait_for(&self.second_answered);
            }
            (1, 1) => self.wait_for(&self.first_came),
            _ => {}
        }
    }

    fn after(&self, worker: u32, line: u64, _reply: Reply) {
        if (worker, line) == (1, 1) {
            self.second_answered.store(true, Ordering::SeqCst);
        }
    }
}

// A script, and what is written.
type Played = (&'static [u8], &'static [u8]);

// Plays a script at a crossing, at which nobody gives up, and compares what it writes: gives the totals. With a player
// that has one worker play at a time, a wait gives up.
fn cross<Told, F: FnOnce(Config, &mut &[u8], &mut Vec<u8>, &Crossing) -> Result<Told, RunError>>(
    rt: &impl Abort,
    alloc: Global,
    played: Played,
    player: F,
) -> Result<Told, Fail>
    requires { F.IsAlwaysCallable player }
{
    let (script, wanted) = played;
    let gate = Crossing::new();
    let (output, totals) = play_at(alloc, script, &gate, player)?;
    assert!(rt; !gate.gave_up.load(Ordering::SeqCst));
    assert_eq!(rt; output.as_slice(), wanted);
    Ok(totals)
}

const INSERTS: Played = (
    b"0 insert 1\n1 insert 2\n",
    b"yes\nyes\ninserted 2\nremoved 0\nfound 0\nrefused 0\nkeys 1 2\n",
);

const STORES: Played = (
    b"0 insert 1 70\n1 insert 2 71\n",
    b"yes\nyes\ninserted 2\nremoved 0\nfound 0\nrefused 0\nentries 1=70 2=71\n",
);

#[test]
fn workers_run_at_the_same_time(rt: HostRuntime) -> Result<(), Fail> {
    let totals = cross(&rt, rt.alloc(), INSERTS, |config, script, output, gate| {
        play(&rt, rt.alloc(), config, script, output, gate)
    })?;
    expect_totals(&rt, &totals, [2, 0, 0, 0], 1, &[1, 2]);
    Ok(())
}

#[test]
fn workers_of_a_map_run_at_the_same_time(rt: HostRuntime) -> Result<(), Fail> {
    let totals = cross(&rt, rt.alloc(), STORES, |config, script, output, gate| {
        play_map(&rt, rt.alloc(), config, script, output, gate)
    })?;
    expect_map_totals(&rt, &totals, [2, 0, 0, 0], 1, &[(1, 70), (2, 71)]);
    Ok(())
}

/// Of each operation of a script its worker, and what it is answered.
type Calls = [(u32, Reply); 4];

// A script of three phases, on a set and a renewed one.
const SCRIPT: &[u8] = b"0 insert 1\n1 insert 2\nsync\n1 has 1\nrenew\n0 remove 5\n";

const CALLS: Calls = [
    (0, Reply::Yes),
    (1, Reply::Yes),
    (1, Reply::Yes),
    (0, Reply::No),
];

// The same phases on a map, of which a worker is given what the other has stored.
const MAP_SCRIPT: &[u8] = b"0 insert 1 70\n1 insert 2 71\nsync\n1 get 1\nrenew\n0 remove 2\n";

const MAP_CALLS: Calls = [
    (0, Reply::Yes),
    (1, Reply::Yes),
    (1, Reply::Value(70)),
    (0, Reply::Value(71)),
];

// The phase of each operation of these scripts.
const PHASES: [u32; 4] = [0, 0, 1, 2];

/// A gate that counts how often it is rightly called for each line of the script, before its call and
/// after it, and of each phase before it begins.
#[derive(Drop)]
struct Recorder {
    calls: Calls,
    phases: AtomicU32,
    begun: [AtomicU32; 4],
    answered: [AtomicU32; 4],
    was_misled: AtomicBool,
}

impl Recorder {
    fn new(calls: Calls) -> Self {
        Recorder {
            calls,
            phases: AtomicU32::new(0),
            begun: counts(),
            answered: counts(),
            was_misled: AtomicBool::new(false),
        }
    }

    // Counts one more of a line, if it is right.
    fn count(&self, counts: &[AtomicU32], line: u64, is_right: bool) {
        match counts.get(line as usize) {
            Some(count) if is_right => {
                count.fetch_add(1, Ordering::SeqCst);
            }
            _ => self.was_misled.store(true, Ordering::SeqCst),
        }
    }
}

fn counts() -> [AtomicU32; 4] {
    [
        AtomicU32::new(0),
        AtomicU32::new(0),
        AtomicU32::new(0),
        AtomicU32::new(0),
    ]
}

impl Gate for Recorder {
    fn phase(&self, phase: u32) {
        if phase != self.phases.fetch_add(1, Ordering::SeqCst) {
            self.was_misled.store(true, Ordering::SeqCst);
        }
    }

    fn before(&self, worker: u32, line: u64) {
        let call = self.calls.get(line as usize);
        let phase = PHASES.get(line as usize);
        let is_right = matches!((call, phase), (Some((who, _)), Some(phase))
            if *who == worker && *phase + 1 == self.phases.load(Ordering::SeqCst));
        self.count(&self.begun, line, is_right);
    }

    fn after(&self, worker: u32, line: u64, reply: Reply) {
        let call = self.calls.get(line as usize);
        let is_right = call == Some(&(worker, reply));
        self.count(&self.answered, line, is_right);
    }
}

// Plays a script at a recorder, which is called for each phase before its lines; and each worker calls it for each of
// its lines once before the call and once after it, with its reply.
fn expect_recorded<
    Told: Drop,
    F: FnOnce(Config, &mut &[u8], &mut Vec<u8>, &Recorder) -> Result<Told, RunError>,
>(rt: &impl Abort, alloc: Global, calls: Calls, script: &[u8], player: F) -> Result<(), Fail>
    requires { F.IsAlwaysCallable player }
{
    let gate = Recorder::new(calls);
    play_at(alloc, script, &gate, player)?;
    assert!(rt; !gate.was_misled.load(Ordering::SeqCst));
    assert_eq!(rt; gate.phases.load(Ordering::SeqCst), 3);
    for count in gate.begun.iter().chain(gate.answered.iter()) {
        assert_eq!(rt; count.load(Ordering::SeqCst), 1);
    }
    Ok(())
}

#[test]
fn a_gate_is_told_of_each_phase_and_call(rt: HostRuntime) -> Result<(), Fail> {
    expect_recorded(
        &rt,
        rt.alloc(),
        CALLS,
        SCRIPT,
        |config, script, output, gate| { play(&rt, rt.alloc(), config, script, output, gate) },
    )
}

#[test]
fn a_gate_is_told_of_each_phase_and_call_on_a_map(rt: HostRuntime) -> Result<(), Fail> {
    expect_recorded(
        &rt,
        rt.alloc(),
        MAP_CALLS,
        MAP_SCRIPT,
        |config, script, output, gate| { play_map(&rt, rt.alloc(), config, script, output, gate) },
    )
}
