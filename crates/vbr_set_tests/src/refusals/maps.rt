//! Maps: the plain one, the world of the machine, the running table, the map itself, and its script.
use crate::refusals::round::is_right;
use crate::refusals::set::{close, open_with, tell};
use crate::refusals::table::{OpenedWithThree, opens_with_three_and_closes};
use crate::refusals::world::births;
use std::alloc::Global;
use vbr_machine::{Op, PlainMap};
use vbr_script::{ScriptError, parse_map_script};
use vbr_set::{MapReport, Shape};
use vbr_slots::{OpenError, Pass, Slots};
use vbr_words::Entries;
use vbr_world::{CoreRefusal, World, WorldRefusal, replay_with_entries};

// What each opening has.
pub const ENTRIES: [(u64, u64); 3] = [(2, 70), (5, 71), (9, 70)];

// How often a call is made: two refusals that follow one another are got over.
const ATTEMPTS: u32 = 3;

// ---- the plain map

// Inserts a key with ten times its number, and says whether memory was refused, which leaves it absent.
fn insert(map: &mut PlainMap, key: u64) -> Option<bool> {
    let value = key.saturating_mul(10);
    for refusals in 0..ATTEMPTS {
        match map.apply(Op::Insert, key, value) {
            Ok(told) => return (told == (true, Some(value))).then_some(refusals > 0),
            Err(_) if map.apply(Op::Get, key, 0) == Ok((false, None)) => {}
            Err(_) => return None,
        }
    }
    None
}

// A plain map with the keys below this one, and whether memory was refused.
fn filled(alloc: Global, end: u64) -> Option<(PlainMap, bool)> {
    let mut map = PlainMap::new(alloc);
    let mut refused = false;
    for key in 0..end {
        refused |= insert(&mut map, key)?;
    }
    Some((map, refused))
}

// Inserts so many keys that the map grows several times, and asks for each.
fn inserts(alloc: Global) -> Option<bool> {
    let (mut map, refused) = filled(alloc, 40)?;
    let mut is_whole = true;
    for key in 0..40_u64 {
        let there = Some(key.saturating_mul(10));
        is_whole = is_whole && map.apply(Op::Get, key, 0) == Ok((true, there));
    }
    is_whole.then_some(refused)
}

#[test]
fn plain_map_inserts(rt: HostRuntime) {
    is_right(&rt, inserts(rt.alloc()));
}

// The entries of a map, and whether memory was refused.
fn entries_of(map: &PlainMap) -> Option<(Vec<(u64, u64)>, bool)> {
    for refusals in 0..ATTEMPTS {
        if let Ok(entries) = map.entries() {
            return Some((entries, refusals > 0));
        }
    }
    None
}

// Lists a few entries.
fn lists(alloc: Global) -> Option<bool> {
    let (map, refused) = filled(alloc, 5)?;
    let (entries, refused_entries) = entries_of(&map)?;
    let wanted = [(0, 0), (1, 10), (2, 20), (3, 30), (4, 40)];
    (entries.as_slice() == wanted.as_slice()).then_some(refused | refused_entries)
}

#[test]
fn plain_map_keys(rt: HostRuntime) {
    is_right(&rt, lists(rt.alloc()));
}

// ---- the world of the machine

// Opens a world with three entries.
fn world_opens(alloc: Global) -> Option<bool> {
    let shape = Shape::new(4, 2, 10).ok()?.with_values();
    for refusals in 0..ATTEMPTS {
        match World::open_with_entries(alloc, shape, 2, &ENTRIES) {
            Ok(world) => return (world.incarnations() == 3).then_some(refusals > 0),
            Err(WorldRefusal::NoMemory) => {}
            Err(WorldRefusal::Passes) => return None,
        }
    }
    None
}

#[test]
fn world_opens_with_three_entries_of_keys(rt: HostRuntime) {
    is_right(&rt, world_opens(rt.alloc()));
}

// Replays events from three entries on: a fourth incarnation is born.
fn world_replays(alloc: Global) -> Option<bool> {
    let shape = Shape::new(4, 2, 10).ok()?.with_values();
    let events = births(3);
    for refusals in 0..ATTEMPTS {
        match replay_with_entries(alloc, shape, 2, &ENTRIES, &events) {
            Ok(world) => return (world.incarnations() == 4).then_some(refusals > 0),
            Err((_, CoreRefusal::NoMemory)) => {}
            Err(_) => return None,
        }
    }
    None
}

#[test]
fn world_replays_from_entries_of_keys(rt: HostRuntime) {
    is_right(&rt, world_replays(rt.alloc()));
}

// ---- the running table

impl OpenedWithThree for Entries {
    fn open_once(alloc: Global, shape: Shape) -> Result<(Slots<Entries>, Vec<Pass>), OpenError> {
        Slots::open_with_entries(alloc, shape, 1, &ENTRIES)
    }
}

// The three entries stand in three slots, one after another in one list.
#[test]
fn table_opens_with_entries_of_keys(rt: HostRuntime) {
    let wanted = [
        1, 43, 9, 10, 1, 0, 2, 70, 11, 1, 0, 5, 71, 8, 1, 0, 9, 70, 0,
    ];
    is_right(
        &rt,
        opens_with_three_and_closes::<Entries>(rt.alloc(), &wanted),
    );
}

// ---- the map

// Whether a report is that of the three entries in four slots.
pub fn has_three(report: &MapReport) -> bool {
    report.entries.as_slice() == ENTRIES.as_slice()
        && (report.epoch, report.live, report.marked, report.free) == (1, 3, 0, 1)
}

// Opens a map with three entries, reports what is in it, and closes it.
fn map_tells_and_closes(alloc: Global) -> Option<bool> {
    let shape = Shape::new(4, 2, 10).ok()?;
    let (map, mut passes, refused) = open_with::<Entries>(alloc, shape, &ENTRIES)?;
    let (told, refused_report) = tell(&map, alloc, &mut passes)?;
    let (report, refused_close) = close(map, alloc, passes)?;
    (has_three(&told) && has_three(&report)).then_some(refused | refused_report | refused_close)
}

#[test]
fn map_tells_and_closes_with_keys(rt: HostRuntime) {
    is_right(&rt, map_tells_and_closes(rt.alloc()));
}

// ---- a script

// Reads a script of a map.
fn reads(alloc: Global) -> Option<bool> {
    let text =
        b"0 insert 5 70\n0 get 5\nsync\n0 insert 6\n0 remove 5\n0 has 5\n0 get 6\n0 get 7\n0 get 8\n";
    for refusals in 0..ATTEMPTS {
        match parse_map_script(alloc, text, 1) {
            Ok(script) => {
                let keys = script.lines.iter().map(|line| line.key);
                let is_whole = script.phases == 2 && keys.eq([5, 5, 6, 5, 5, 6, 7, 8]);
                return is_whole.then_some(refusals > 0);
            }
            Err(ScriptError::Memory) => {}
            Err(ScriptError::Fault { .. }) => return None,
        }
    }
    None
}

#[test]
fn map_script_reads(rt: HostRuntime) {
    is_right(&rt, reads(rt.alloc()));
}
