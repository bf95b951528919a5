// Lines and their commands.
use board::command::{Command, parse};
use std::process::Abort;

const LARGEST: u32 = 4_294_967_295;

const WELL_FORMED: [(&str, Command); 15] = [
    ("m 0", Command::Mount { frames: 0 }),
    ("m 16", Command::Mount { frames: 16 }),
    ("m 4294967295", Command::Mount { frames: LARGEST }),
    ("m 00000000000000000007", Command::Mount { frames: 7 }),
    (
        "m 000000000000000000000000004294967295",
        Command::Mount { frames: LARGEST },
    ),
    (
        "g 3 239",
        Command::Get {
            page: 3,
            offset: 239,
        },
    ),
    (
        "g 4294967295 0",
        Command::Get {
            page: LARGEST,
            offset: 0,
        },
    ),
    (
        "s 3 239 17",
        Command::Save {
            page: 3,
            offset: 239,
            byte: 17,
        },
    ),
    (
        "s 0 4294967295 255",
        Command::Save {
            page: 0,
            offset: LARGEST,
            byte: 255,
        },
    ),
    (
        "s 1 2 0255",
        Command::Save {
            page: 1,
            offset: 2,
            byte: 255,
        },
    ),
    (
        "s 0 0 0",
        Command::Save {
            page: 0,
            offset: 0,
            byte: 0,
        },
    ),
    ("k", Command::Checkpoint),
    ("c 5 9", Command::Cycle { flash: 5, disk: 9 }),
    (
        "c 4294967295 4294967295",
        Command::Cycle {
            flash: LARGEST,
            disk: LARGEST,
        },
    ),
    ("c 0 1", Command::Cycle { flash: 0, disk: 1 }),
];

#[test]
fn well_formed(rt: HostRuntime) {
    for (line, command) in &WELL_FORMED {
        assert_eq!(rt; parse(line.as_bytes()), Some(*command), "{}", *line);
    }
}

const NUMBERS: [&str; 17] = [
    // too large, for the line and for a byte
    "m 4294967296",
    "m 18446744073709551615",
    "m 18446744073709551616",
    "m 18446744073709551617",
    "m 99999999999999999999999999999999999999999",
    "g 4294967296 0",
    "g 0 4294967296",
    "c 0 4294967296",
    "s 4294967296 0 0",
    "s 0 0 256",
    "s 0 0 4294967295",
    // no numbers
    "m +1",
    "m -1",
    "m 1a",
    "m 0x1",
    "m 1.",
    "m 1_0",
];

const COUNTS: [&str; 12] = [
    // one number too few, and one too many
    "m",
    "m 1 2",
    "g 1",
    "g 1 2 3",
    "s 1 2",
    "s 1 2 3 4",
    "k 1",
    "c 1",
    "c 1 2 3",
    "s 1 2 3 4 5",
    "g",
    "c",
];

const SPACES: [&str; 17] = [
    "", " ", " m 1", "m 1 ", "m  1", "g 1  2", "g 1 2 ", "k ", " k", "m1", "m\t1", "g 1\t2",
    "m 1\t", "m 1\r", "k\r", "\rk", "m \r1",
];

const LETTERS: [&str; 11] = [
    "M 1", "K", "a", "x 1", "kk", "mm 1", "1", "?", "é", "m é", "k é",
];

fn all_refused(rt: &impl Abort, lines: &[&str]) {
    for line in lines {
        assert_eq!(rt; parse(line.as_bytes()), None, "{}", *line);
    }
}

#[test]
fn ill_formed(rt: HostRuntime) {
    all_refused(&rt, &NUMBERS);
    all_refused(&rt, &COUNTS);
    all_refused(&rt, &SPACES);
    all_refused(&rt, &LETTERS);
}

// Bytes that are no text.
#[test]
fn no_ascii(rt: HostRuntime) {
    assert_eq!(rt; parse(&[b'm', b' ', 128]), None);
    assert_eq!(rt; parse(&[b'm', b' ', b'1', 255]), None);
    assert_eq!(rt; parse(&[237, b' ', b'1']), None);
    assert_eq!(rt; parse(&[b'm', 160, b'1']), None);
    assert_eq!(rt; parse(&[b'm', b' ', b'1', 0]), None);
}
