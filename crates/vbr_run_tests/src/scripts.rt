//! The parser on its own.
use std::alloc::{AllocError, Global};
use std::process::Abort;
use std::test::Fail;
use vbr_machine::Op;
use vbr_run::{Line, Script, ScriptError, ScriptFault, parse_map_script, parse_script};

// Reads a script. The tests compare what comes of it when they run, and need no contract for that.
fn parsed(alloc: Global, text: &[u8], workers: u32) -> Result<Script, ScriptError> {
    parse_script(alloc, text, workers)
}

#[test]
fn reads_a_line_in_full(rt: HostRuntime) -> Result<(), Fail> {
    let script = parsed(rt.alloc(), b"  0\tinsert  007\r\n", 1)?;
    let line = Line {
        phase: 0,
        worker: 0,
        op: Op::Insert,
        key: 7,
        value: 0,
    };
    assert_eq!(rt; script.lines.as_slice(), [line].as_slice());
    assert_eq!(rt; script.phases, 1);
    Ok(())
}

#[test]
fn knows_its_workers(rt: HostRuntime) -> Result<(), Fail> {
    let script = parsed(rt.alloc(), b"2 has 1\n", 3)?;
    assert_eq!(rt; script.lines.len(), 1);
    assert_eq!(rt; script.lines[0].worker, 2);
    for workers in [0, 1, 2] {
        let kind = ScriptFault::Worker;
        let error = parsed(rt.alloc(), b"2 has 1\n", workers).err();
        assert_eq!(rt;
            error,
            Some(ScriptError::Fault { line: 1, kind }),
            "{workers} workers"
        );
    }
    Ok(())
}

#[test]
fn reads_a_long_blank_line(rt: HostRuntime) -> Result<(), Fail> {
    let text = vec![in rt.alloc(); b' '; 100_000]?;
    let script = parsed(rt.alloc(), &text, 1)?;
    assert!(rt; script.lines.is_empty());
    Ok(())
}

/// What is wrong with a text, as the line's number and the fault's.
fn fault_of(alloc: Global, text: &[u8], workers: u32) -> Option<(u64, u8)> {
    match parsed(alloc, text, workers) {
        Err(ScriptError::Fault { line, kind }) => Some((line, kind.number())),
        _ => None,
    }
}

// Whether this is wrong with a text, as the line's number and the fault's.
fn expect_fault(rt: &impl Abort, alloc: Global, text: &[u8], fault: (u64, u8)) {
    assert_eq!(rt; fault_of(alloc, text, 1), Some(fault));
}

/// A text of so many lines that are all the same.
fn lines_of(alloc: Global, line: &[u8], count: usize) -> Result<Vec<u8>, AllocError> {
    let mut text = Vec::new(alloc);
    for _ in 0..count {
        text.extend_from_slice(line)?;
    }
    Ok(text)
}

#[test]
fn counts_phases_by_sync_lines(rt: HostRuntime) -> Result<(), Fail> {
    let script = parsed(rt.alloc(), b"0 insert 5\nsync\n1 has 5", 2)?;
    let lines = [
        Line {
            phase: 0,
            worker: 0,
            op: Op::Insert,
            key: 5,
            value: 0,
        },
        Line {
            phase: 1,
            worker: 1,
            op: Op::Has,
            key: 5,
            value: 0,
        },
    ];
    assert_eq!(rt; script.lines.as_slice(), lines.as_slice());
    assert_eq!(rt; script.phases, 2);

    let syncs = parsed(rt.alloc(), b"sync\n\n \tsync \r\nsync", 1)?;
    assert!(rt; syncs.lines.is_empty());
    assert_eq!(rt; syncs.phases, 4);
    Ok(())
}

#[test]
fn counts_phases_by_renewals_too(rt: HostRuntime) -> Result<(), Fail> {
    let text = b"0 insert 5\nrenew\n1 has 5\nsync\nrenew\nrenew\n";
    let script = parsed(rt.alloc(), text, 2)?;
    assert_eq!(rt; script.lines.len(), 2);
    assert_eq!(rt; script.lines[1].phase, 1);
    assert_eq!(rt; script.phases, 5);
    assert_eq!(rt; script.renewals.as_slice(), [0, 2, 3].as_slice());

    let syncs = parsed(rt.alloc(), b"0 insert 5\nsync\n", 1)?;
    assert!(rt; syncs.renewals.is_empty());
    Ok(())
}

// Texts, and the number of the test that each fails first.
const FAULTS: [(&[u8], u8); 11] = [
    (b"0 insert +5", 4),
    (b"0 insert 5 6", 1),
    (b"sync 0", 1),
    (b"Sync", 1),
    (b"renew 0", 1),
    (b"renew renew renew", 2),
    (b"x insert 5", 2),
    (b"9 drop x", 2),
    (b"sync sync sync", 2),
    (b"0 Insert 5", 3),
    (b"0 has 5\r\r\n", 4),
];

#[test]
fn tells_the_first_test_that_fails(rt: HostRuntime) {
    for (text, number) in FAULTS {
        expect_fault(&rt, rt.alloc(), text, (1, number));
    }
}

#[test]
fn has_a_greatest_number_of_operations(rt: HostRuntime) -> Result<(), Fail> {
    let mut text = lines_of(rt.alloc(), b"0 has 5\n", 1_000_000)?;
    let script = parsed(rt.alloc(), &text, 1)?;
    assert_eq!(rt; script.lines.len(), 1_000_000);

    text.extend_from_slice(b"0 has 5\n")?;
    expect_fault(&rt, rt.alloc(), &text, (1_000_001, 5));
    Ok(())
}

// Reads a text whose phases, the greatest number, end by as many renewals as syncs, and one of one more.
fn read_sync_and_renewals(rt: &impl Abort, alloc: Global) -> Result<(), Fail> {
    let mut mixed = lines_of(alloc, b"sync\nrenew\n", 5_000)?;
    let script = parsed(alloc, &mixed, 1)?;
    assert_eq!(rt; script.renewals.len(), 5_000);
    mixed.extend_from_slice(b"renew")?;
    expect_fault(rt, alloc, &mixed, (10_001, 5));
    Ok(())
}

#[test]
fn has_a_greatest_number_of_sync_lines(rt: HostRuntime) -> Result<(), Fail> {
    let mut text = lines_of(rt.alloc(), b"sync\n", 10_000)?;
    let script = parsed(rt.alloc(), &text, 1)?;
    assert_eq!(rt; script.phases, 10_001);

    text.extend_from_slice(b"\n0 has 5\nsync")?;
    expect_fault(&rt, rt.alloc(), &text, (10_003, 5));
    let more = lines_of(rt.alloc(), b"sync\n", 10_001)?;
    expect_fault(&rt, rt.alloc(), &more, (10_001, 5));
    read_sync_and_renewals(&rt, rt.alloc())
}

#[test]
fn tells_tokens_before_too_many(rt: HostRuntime) -> Result<(), Fail> {
    let mut text = lines_of(rt.alloc(), b"sync\n", 10_000)?;
    text.extend_from_slice(b"sync 0")?;
    expect_fault(&rt, rt.alloc(), &text, (10_001, 1));
    Ok(())
}

/// What is wrong with a text of a map, as the line's number and the fault's.
fn map_fault_of(alloc: Global, text: &[u8]) -> Option<(u64, u8)> {
    match parse_map_script(alloc, text, 1) {
        Err(ScriptError::Fault { line, kind }) => Some((line, kind.number())),
        _ => None,
    }
}

#[test]
fn reads_values_in_a_map(rt: HostRuntime) -> Result<(), Fail> {
    let script = parse_map_script(rt.alloc(), b"0 insert 5 70\n0 insert 5\n1 get 5", 2)?;
    let asked = [
        (0, Op::Insert, 5, 70),
        (0, Op::Insert, 5, 0),
        (1, Op::Get, 5, 0),
    ];
    assert_eq!(rt; script.lines.len(), asked.len());
    for (line, (worker, op, key, value)) in script.lines.iter().zip(&asked) {
        assert_eq!(rt; line.worker, *worker);
        assert_eq!(rt; line.op, *op);
        assert_eq!(rt; line.key, *key);
        assert_eq!(rt; line.value, *value);
    }
    Ok(())
}

// The same of texts of a map.
const MAP_FAULTS: [(&[u8], u8); 8] = [
    (b"0 get", 1),
    (b"0 insert 5 6 7", 1),
    (b"9 get 5 6", 2),
    (b"0 get 5 6", 3),
    (b"0 remove x y", 3),
    (b"0 insert x y", 4),
    (b"0 insert 5 x", 6),
    (b"0 insert 5 18446744073709551616", 6),
];

#[test]
fn tells_the_first_test_that_fails_in_a_map(rt: HostRuntime) {
    for (text, fault) in &MAP_FAULTS {
        assert_eq!(rt; map_fault_of(rt.alloc(), text), Some((1, *fault)));
    }
    assert_eq!(rt; map_fault_of(rt.alloc(), b"0 insert 5 6"), None);
    expect_fault(&rt, rt.alloc(), b"0 get 5", (1, 3));
}

#[test]
fn tells_a_value_before_too_many(rt: HostRuntime) -> Result<(), Fail> {
    let mut text = lines_of(rt.alloc(), b"0 has 5\n", 1_000_000)?;
    text.extend_from_slice(b"0 insert 5 x")?;
    assert_eq!(rt; map_fault_of(rt.alloc(), &text), Some((1_000_001, 6)));
    Ok(())
}
