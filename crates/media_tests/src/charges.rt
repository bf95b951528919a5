// How many writes a charge is good for.
use crate::script::Step::*;
use crate::script::{Answer, BLACK, DARK, DONE, LENGTH, OUTSIDE, Step, TORN, play};
use media::card::Card;
use media::strike::Strike;
use media::tray::Tray;

// Which of four writes are done; the others find it dark.
#[derive(Clone, Copy)]
struct Row {
    charge: u32,
    done: [bool; 4],
}

const CHARGES: [Row; 4] = [
    Row {
        charge: 0,
        done: [false, false, false, false],
    },
    Row {
        charge: 1,
        done: [true, false, false, false],
    },
    Row {
        charge: 2,
        done: [true, true, false, false],
    },
    Row {
        charge: 3,
        done: [true, true, true, false],
    },
];

fn answer(done: bool) -> Answer {
    if done { DONE } else { DARK }
}

// Four writes at the making, and four after power on, of which the last counts. Reads and refused writes use no charge.
fn writes(made: Row, relit: Row) -> [Step; 19] {
    let [a, b, c, d] = made.done;
    let [e, f, g, h] = relit.done;
    [
        Read(1, TORN),
        Write(2, 10, OUTSIDE),
        WriteFrom(255, 0, 10, LENGTH),
        Write(0, 10, answer(a)),
        Write(0, 20, answer(b)),
        Write(0, 30, answer(c)),
        Write(0, 40, answer(d)),
        Read(0, BLACK),
        Relight(9),
        Relight(relit.charge),
        Read(1, TORN),
        Write(2, 10, OUTSIDE),
        WriteFrom(255, 0, 10, LENGTH),
        Write(0, 50, answer(e)),
        Write(0, 60, answer(f)),
        Write(0, 70, answer(g)),
        Write(0, 80, answer(h)),
        Read(0, BLACK),
        Read(1, BLACK),
    ]
}

#[test]
fn charges(rt: HostRuntime) {
    for made in CHARGES {
        for relit in CHARGES {
            let script = writes(made, relit);
            let mut bytes = [0; 514];
            play(
                &rt,
                &mut Tray::new(&mut bytes, Strike::Torn as u8, made.charge),
                &script,
            );
            let mut bytes = [0; 544];
            play(&rt, &mut Card::new(&mut bytes, 8, made.charge), &script);
        }
    }
}
