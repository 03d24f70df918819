//! Link words, shapes and the places of words.
use std::process::Abort;
use std::test::Fail;
use vbr_words::shape::max_epoch;
use vbr_words::{
    Layout, Link, Place, Shape, ShapeError, SpreadError, WideWord, decode, encode, place_index,
    version_of, wide, with_mark, word_count,
};

const UNMARKED: Link = Link {
    slot: Some(0),
    mark: false,
    version: 1,
};

const MARKED_NONE: Link = Link {
    slot: None,
    mark: true,
    version: 0,
};

// Compares the link of a word, and the word of that link, in a table whose words are kept so. As a number the word
// says the same.
fn expect_word(rt: &impl Abort, layout: Layout, word: u64, link: Link) {
    let told = decode(word, layout);
    assert_eq!(rt; told, link, "{word}");
    assert_eq!(rt; encode(told, layout), word);
    let number = wide(word, layout);
    assert_eq!(rt; number.link(), link, "{word}");
    assert_eq!(rt; WideWord::of(told), number);
}

/// A table of three slots has two bits for the slot, the next for the mark, and the version in eights.
#[test]
fn packs_links(rt: HostRuntime) -> Result<(), Fail> {
    let layout = Shape::new(3, 2, 10)?.layout();
    let greatest = Link {
        slot: Some(2),
        mark: true,
        version: 2_305_843_009_213_693_951,
    };
    let none = Link {
        slot: None,
        mark: false,
        version: 0,
    };
    let rows = [
        (u64::MAX, greatest),
        (0, none),
        (9, UNMARKED),
        (4, MARKED_NONE),
    ];
    for (word, link) in rows {
        expect_word(&rt, layout, word, link);
    }
    assert_eq!(rt; with_mark(9, layout), 13);
    assert_eq!(rt; with_mark(13, layout), 13);
    assert_eq!(rt; version_of(3, 5), 5);
    Ok(())
}

// Numbers of slots, with the greatest last epoch of each, and with words of such tables: those of the unmarked and of
// the marked link to the last slot with the greatest version, of a marked link to none with version 0, and of the
// unmarked link to slot 0 with version 1. They are worked by hand: if a slot has so many bits, the greatest epoch is
// 2^(63 - bits) - 1. A word is the slot's number and one, 2^bits for the mark, and the version times 2^(bits + 1).
type Edge = (u32, u64, (u64, u64, u64, u64));

const EDGES: [Edge; 8] = [
    (
        1,
        4_611_686_018_427_387_903,
        (18_446_744_073_709_551_613, u64::MAX, 2, 5),
    ),
    (
        3,
        2_305_843_009_213_693_951,
        (18_446_744_073_709_551_611, u64::MAX, 4, 9),
    ),
    (
        4_095,
        2_251_799_813_685_247,
        (18_446_744_073_709_547_519, u64::MAX, 4_096, 8_193),
    ),
    (
        4_096,
        1_125_899_906_842_623,
        (
            18_446_744_073_709_539_328,
            18_446_744_073_709_547_520,
            8_192,
            16_385,
        ),
    ),
    (
        16_777_215,
        549_755_813_887,
        (18_446_744_073_692_774_399, u64::MAX, 16_777_216, 33_554_433),
    ),
    (
        16_777_216,
        274_877_906_943,
        (
            18_446_744_073_659_219_968,
            18_446_744_073_692_774_400,
            33_554_432,
            67_108_865,
        ),
    ),
    (
        33_554_432,
        137_438_953_471,
        (
            18_446_744_073_608_888_320,
            18_446_744_073_675_997_184,
            67_108_864,
            134_217_729,
        ),
    ),
    (
        2_147_483_647,
        4_294_967_295,
        (
            18_446_744_071_562_067_967,
            u64::MAX,
            2_147_483_648,
            4_294_967_297,
        ),
    ),
];

#[test]
fn packs_links_in_each_width(rt: HostRuntime) -> Result<(), Fail> {
    for (slots, last_epoch, (greatest, marked, marked_none, unmarked)) in EDGES {
        let layout = Shape::new(slots, 1, last_epoch)?.layout();
        let last = Link {
            slot: slots.checked_sub(1),
            mark: false,
            version: last_epoch,
        };
        let removed = Link { mark: true, ..last };
        expect_word(&rt, layout, greatest, last);
        expect_word(&rt, layout, marked, removed);
        expect_word(&rt, layout, marked_none, MARKED_NONE);
        expect_word(&rt, layout, unmarked, UNMARKED);
        assert_eq!(rt; with_mark(greatest, layout), marked, "{slots} slots");
        assert_eq!(rt; with_mark(marked, layout), marked, "{slots} slots");
        let told = wide(greatest, layout).with_mark();
        assert_eq!(rt; told.link(), removed, "{slots} slots");
    }
    Ok(())
}

// Compares the last epoch of a shape, or why it is none.
fn expect_last_epoch(
    rt: &impl Abort,
    slots: u32,
    last_epoch: u64,
    answer: Result<u64, ShapeError>,
) {
    let shape = Shape::new(slots, 65_536, last_epoch);
    let told = shape.map(|s| s.last_epoch());
    assert_eq!(rt; told, answer, "{slots} slots");
}

/// The fewer the slots, the more bits the epochs have: the greatest last epoch is taken, and one more is refused.
#[test]
fn takes_epochs_by_slots(rt: HostRuntime) -> Result<(), Fail> {
    for (slots, last_epoch, _) in EDGES {
        expect_last_epoch(&rt, slots, last_epoch, Ok(last_epoch));
        let more = last_epoch.saturating_add(1);
        expect_last_epoch(&rt, slots, more, Err(ShapeError::LastEpoch));
        let shape = Shape::new(slots, 1, 1)?;
        assert_eq!(rt; max_epoch(shape.slots()), last_epoch, "{slots} slots");
    }
    Ok(())
}

#[test]
fn lays_out_words(rt: HostRuntime) -> Result<(), Fail> {
    let bare = Shape::new(3, 2, 10)?;
    let valued = bare.with_values();
    assert!(rt; valued.has_values() && !valued.without_values().has_values());
    for shape in [bare, valued] {
        assert!(rt; shape.slots() == 3 && shape.buckets() == 2 && shape.last_epoch() == 10);
    }
    let rows = [
        (place_index(&bare, Place::LinkOf(1)), 8),
        (place_index(&bare, Place::Key(0)), 7),
        (place_index(&bare, Place::Flags(0)), 16),
        (word_count(&bare), 17),
        (place_index(&valued, Place::LinkOf(1)), 9),
        (place_index(&valued, Place::Key(0)), 7),
        (place_index(&valued, Place::Value(0)), 8),
        (place_index(&valued, Place::Flags(0)), 19),
        (word_count(&valued), 20),
    ];
    for (index, wanted) in rows {
        assert_eq!(rt; index, wanted);
    }
    Ok(())
}

#[test]
fn refuses_shapes(rt: HostRuntime) {
    let rows = [
        ((0, 0, 0), Err(ShapeError::Slots)),
        ((2_147_483_648, 1, 1), Err(ShapeError::Slots)),
        ((2_147_483_647, 0, 1), Err(ShapeError::Buckets)),
        ((1, 65_537, 0), Err(ShapeError::Buckets)),
        ((1, 1, 0), Err(ShapeError::LastEpoch)),
        ((1, 65_536, u64::MAX), Err(ShapeError::LastEpoch)),
        (
            (16_777_215, 65_536, 549_755_813_887),
            Ok((16_777_215, 65_536, 549_755_813_887)),
        ),
        (
            (2_147_483_647, 65_536, 4_294_967_295),
            Ok((2_147_483_647, 65_536, 4_294_967_295)),
        ),
    ];
    for ((slots, buckets, last_epoch), answer) in rows {
        let shape = Shape::new(slots, buckets, last_epoch);
        let numbers = shape.map(|s| (s.slots(), s.buckets(), s.last_epoch()));
        assert_eq!(rt; numbers, answer);
    }
}

#[test]
fn refuses_buckets_to_spread_over(rt: HostRuntime) -> Result<(), Fail> {
    let shape = Shape::new(7, 3, 9)?;
    for buckets in [0, 2_147_483_649, u32::MAX] {
        assert_eq!(rt; shape.spread_over(buckets), Err(SpreadError));
        assert_eq!(rt; shape.spread_with(buckets, 7), Err(SpreadError));
    }
    let widest = shape.spread_over(2_147_483_648)?;
    assert_eq!(rt;
        (widest.slots(), widest.buckets(), widest.last_epoch()),
        (7, 2_147_483_648, 9)
    );
    Ok(())
}

// Compares the buckets of keys.
fn expect_buckets(rt: &impl Abort, shape: Shape, rows: &[(u64, u32)]) {
    for (key, bucket) in rows {
        assert_eq!(rt; shape.bucket_of(*key), *bucket, "{key}");
    }
}

/// The buckets are worked by hand: key · 11400714819323198485 mod 2^64, its upper 32 bits, times the
/// number of buckets, divided by 2^32.
#[test]
fn spreads_keys(rt: HostRuntime) -> Result<(), Fail> {
    let shape = Shape::new(1, 1, 1)?;
    expect_buckets(&rt, shape.spread_over(1)?, &[(3, 0), (u64::MAX, 0)]);
    let in_three = [(0, 0), (1, 1), (2, 0), (3, 2), (u64::MAX, 1)];
    expect_buckets(&rt, shape.spread_over(3)?, &in_three);
    let in_sixteen = [(1, 9), (2, 3), (3, 13), (4096, 7)];
    expect_buckets(&rt, shape.spread_over(16)?, &in_sixteen);
    let in_many = [(1, 10_368_889), (4096, 7_838_615), (u64::MAX, 6_408_326)];
    expect_buckets(&rt, shape.spread_over(16_777_216)?, &in_many);
    let in_most = [
        (1, 1_327_217_884),
        (4096, 1_003_342_842),
        (u64::MAX, 820_265_763),
    ];
    expect_buckets(&rt, shape.spread_over(2_147_483_648)?, &in_most);
    Ok(())
}

/// By hand again: a seed has keys multiplied by 11400714819323198485 · (2 · seed + 1) mod 2^64.
#[test]
fn spreads_keys_by_seeds(rt: HostRuntime) -> Result<(), Fail> {
    let shape = Shape::new(1, 1, 1)?;
    let rows: [(u64, &[(u64, u32)]); 4] = [
        (0, &[(1, 9), (4096, 7)]),
        (1, &[(1, 13), (2, 11), (4096, 6), (u64::MAX, 2)]),
        (7, &[(1, 4), (2, 8), (4096, 0), (u64::MAX, 11)]),
        (u64::MAX, &[(1, 6), (4096, 8)]),
    ];
    for (seed, buckets) in rows {
        expect_buckets(&rt, shape.spread_with(16, seed)?, buckets);
    }
    Ok(())
}

/// Seeds whose difference is 2^63 are alike, and the lesser is returned.
#[test]
fn tells_seeds(rt: HostRuntime) -> Result<(), Fail> {
    let shape = Shape::new(1, 1, 1)?;
    let rows = [
        (0, 0),
        (7, 7),
        (9_223_372_036_854_775_807, 9_223_372_036_854_775_807),
        (9_223_372_036_854_775_808, 0),
        (9_223_372_036_854_775_815, 7),
        (u64::MAX, 9_223_372_036_854_775_807),
    ];
    for (seed, told) in rows {
        let sixteen = shape.spread_with(16, seed)?;
        assert_eq!(rt; sixteen.seed(), Some(told), "{seed}");
    }
    let three = shape.spread_over(3)?;
    assert_eq!(rt; three.seed(), Some(0));
    assert_eq!(rt; shape.seed(), None);
    Ok(())
}

#[test]
fn finds_buckets(rt: HostRuntime) -> Result<(), Fail> {
    expect_buckets(&rt, Shape::new(1, 16, 1)?, &[(u64::MAX, 15), (32, 0)]);
    let in_three = [(0, 0), (2, 2), (3, 0), (u64::MAX, 0), (u64::MAX - 1, 2)];
    expect_buckets(&rt, Shape::new(1, 3, 1)?, &in_three);
    Ok(())
}
