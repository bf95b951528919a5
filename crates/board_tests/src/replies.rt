// Replies and their lines.
use board::command::{Command, Letter};
use board::reply::{Reply, line_of};
use rules::fault::Refusal;
use rules::state::Mounted;
use std::test::Fail;

const REPLIES: [(Reply, &str); 17] = [
    (
        Reply::Mounted(Mounted {
            last: 0,
            live: 0,
            reads: 4,
        }),
        "m 0 0 4\n",
    ),
    (
        Reply::Mounted(Mounted {
            last: 4_000_000_000,
            live: 209,
            reads: 30,
        }),
        "m 4000000000 209 30\n",
    ),
    (Reply::Saved(1), "s 1\n"),
    (Reply::Saved(4_000_000_000), "s 4000000000\n"),
    (
        Reply::Got {
            byte: 0,
            version: 0,
        },
        "g 0 0\n",
    ),
    (
        Reply::Got {
            byte: 255,
            version: 10,
        },
        "g 255 10\n",
    ),
    (Reply::Kept(0), "k 0\n"),
    (Reply::Kept(16), "k 16\n"),
    (Reply::Cycled, "c\n"),
    (
        Reply::Refused {
            letter: Letter::Mount,
            cause: Refusal::Size,
        },
        "m -4\n",
    ),
    (
        Reply::Refused {
            letter: Letter::Save,
            cause: Refusal::Length,
        },
        "s -11\n",
    ),
    (
        Reply::Refused {
            letter: Letter::Get,
            cause: Refusal::Shut,
        },
        "g -2\n",
    ),
    (
        Reply::Refused {
            letter: Letter::Get,
            cause: Refusal::NoPage,
        },
        "g -5\n",
    ),
    (
        Reply::Refused {
            letter: Letter::Checkpoint,
            cause: Refusal::Dark,
        },
        "k -1\n",
    ),
    (
        Reply::Refused {
            letter: Letter::Save,
            cause: Refusal::Foreign,
        },
        "s -9\n",
    ),
    (
        Reply::Refused {
            letter: Letter::Cycle,
            cause: Refusal::Dark,
        },
        "c -1\n",
    ),
    (Reply::Unclear, "?\n"),
];

#[test]
fn replies(rt: HostRuntime) -> Result<(), Fail> {
    for (reply, text) in &REPLIES {
        let line = line_of(rt.alloc(), *reply)?;
        assert!(rt; line.as_str() == *text, "{}", *text);
    }
    Ok(())
}

const COMMANDS: [(Command, &str); 5] = [
    (Command::Mount { frames: 1 }, "m"),
    (
        Command::Save {
            page: 1,
            offset: 2,
            byte: 3,
        },
        "s",
    ),
    (Command::Get { page: 1, offset: 2 }, "g"),
    (Command::Checkpoint, "k"),
    (Command::Cycle { flash: 1, disk: 2 }, "c"),
];

#[test]
fn letters(rt: HostRuntime) {
    for (command, text) in &COMMANDS {
        assert!(rt; command.letter().text() == *text, "{}", *text);
    }
}
