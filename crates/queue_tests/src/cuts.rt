// The run, cut at every single write, and gone on with.
use crate::run::{STEPS, Stop, play};
use crate::seen::{at_end, holds_all};
use crate::stage::on_all;
use media::strike::Strike;
use medium::Medium;
use queue::queue::Queue;
use rules::fault::{Fault, Refusal, Side};
use rules::state::Mounted;
use std::process::Abort;
use std::test::Fail;

// Enough for any run.
const PLENTY: u32 = 1000;

const STRIKES: [Strike; 3] = [Strike::Old, Strike::New, Strike::Torn];

// A run with these charges: where it stops, if it does, how many of its steps are found then, and how many of these no
// segment describes.
#[derive(Clone, Copy)]
pub struct Cut {
    pub flash: u32,
    pub disk: u32,
    pub strike: Strike,
    stop: Result<(), Stop>,
    steps: u8,
    tail: u16,
}

fn stop(step: u8, side: Side, page: u8) -> Result<(), Stop> {
    Err(Stop {
        step,
        fault: Fault::touched(Refusal::Dark, side, u16::from(page)),
    })
}

// Of sixteen writes to the flash fifteen are frames, and the last is their segment.
fn flash_cut(write: u8, strike: Strike) -> Cut {
    let groups = write / 16;
    let frame = write % 16;
    let is_segment = frame == 15;
    let step = 15 * groups + frame + 1 - u8::from(is_segment);
    let page = if is_segment {
        30 + groups % 3
    } else {
        (15 * groups + frame) % 30
    };
    let steps = step - u8::from(!is_segment && strike != Strike::New);
    let segments = groups + u8::from(is_segment && strike == Strike::New);
    Cut {
        flash: u32::from(write),
        disk: PLENTY,
        strike,
        stop: stop(step, Side::Flash, page),
        steps,
        tail: u16::from(steps.saturating_sub(15 * segments)),
    }
}

// The steps that send a page to the disk, and the page.
const SAVES: [(u8, u8); 5] = [(36, 4), (40, 5), (62, 7), (69, 5), (79, 4)];

fn disk_cut(write: u32, (step, page): (u8, u8), strike: Strike) -> Cut {
    let steps = step.saturating_sub(1);
    Cut {
        flash: PLENTY,
        disk: write,
        strike,
        stop: stop(step, Side::Disk, page),
        steps,
        tail: u16::from(steps % 15),
    }
}

// Plays the run until it is cut. With the power back, recovery finds what was done, and the run goes on to its end.
pub(crate) fn through<F: Medium, D: Medium>(
    rt: &impl Abort,
    queue: &mut Queue<F, D>,
    cut: &Cut,
) -> Result<(), Fail> {
    assert_eq!(rt; play(queue, 1, STEPS), cut.stop);
    queue.forget(PLENTY, PLENTY);
    let found = Mounted {
        last: u32::from(cut.steps),
        live: u16::from(cut.steps.min(29)),
        reads: 3 + (cut.tail.min(14) + 1),
    };
    assert_eq!(rt; queue.recover(), Ok(found));
    holds_all(rt, queue, cut.steps)?;
    assert_eq!(rt; play(queue, cut.steps.saturating_add(1), STEPS), Ok(()));
    at_end(rt, queue)
}

#[test]
fn no_cut(rt: HostRuntime) -> Result<(), Fail> {
    on_all(
        &rt,
        &Cut {
            flash: 101,
            disk: 5,
            strike: Strike::Torn,
            stop: Ok(()),
            steps: 95,
            tail: 5,
        },
    )
}

#[test]
fn at_every_flash_write(rt: HostRuntime) -> Result<(), Fail> {
    for strike in STRIKES {
        for write in 0..101u8 {
            on_all(&rt, &flash_cut(write, strike))?;
        }
    }
    Ok(())
}

#[test]
fn at_every_disk_write(rt: HostRuntime) -> Result<(), Fail> {
    for strike in STRIKES {
        for (write, save) in (0..5u32).zip(&SAVES) {
            on_all(&rt, &disk_cut(write, *save, strike))?;
        }
    }
    Ok(())
}
