// The run that is played: 95 enqueues, on a flash of 30 frames over a disk of 8 pages.
use medium::Medium;
use queue::queue::Queue;
use rules::fault::Fault;

pub const STEPS: u8 = 95;

pub const PAGES: u16 = 8;

// The page of a step. Pages 0 to 3 come often; 4, 5 and 7 so seldom that they leave the queue for the disk. Page 5 leaves
// just when it comes again.
pub(crate) fn page_of(step: u8) -> u16 {
    match step {
        7 | 50 => 4,
        11 | 40 | 69 => 5,
        22 | 44 | 66 | 88 => 6,
        33 | 64 => 7,
        _ => u16::from(step % 4),
    }
}

// Its version is its number; step 64 brings version 33 again, clean, since the disk has it by then.
pub(crate) fn version_of(step: u8) -> u8 {
    if step == 64 { 33 } else { step }
}

// The newest version of a page among so many steps.
pub(crate) fn newest(steps: u8, page: u16) -> Option<u8> {
    (1..=steps)
        .rev()
        .find(|step| page_of(*step) == page)
        .map(version_of)
}

// A step that was refused, and why.
#[derive(Clone, Copy, PartialEq, Eq, Debug)]
pub struct Stop {
    pub step: u8,
    pub fault: Fault,
}

// Plays the steps from one to another.
pub(crate) fn play<F: Medium, D: Medium>(
    queue: &mut Queue<F, D>,
    first: u8,
    last: u8,
) -> Result<(), Stop> {
    for step in first..=last {
        let version = version_of(step);
        let body = [version; 240];
        queue
            .enqueue(page_of(step), u32::from(version), step != 64, &body)
            .map_err(|fault| Stop { step, fault })?;
    }
    Ok(())
}
