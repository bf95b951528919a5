// What recovery and checked reads say of a flash of which some bytes were changed.
use crate::run::play;
use crate::stage::torn;
use medium::Medium;
use queue::queue::Queue;
use rules::fault::{Fault, Refusal, Side};
use rules::state::Mounted;
use std::process::Abort;
use std::test::Fail;

// A flash page, one of its bytes and what that becomes (byte 256 is the mark).
type Change = (u8, u16, u8);

// A change, and what recovery finds then: the last number, how many are live, and the reads; or the flash page that is
// foreign.
type Row = (Change, Result<(u32, u16, u16), u16>);

// After 20 steps: segment 0 stands on page 30, and the tail is 16 to 20, in frames 15 to 19.
const AFTER_20: [Row; 14] = [
    // nothing is changed
    ((30, 240, 15), Ok((20, 20, 9))),
    // the segment's mark, last, first, fifteen and zero
    ((30, 255, 1), Err(30)),
    ((30, 240, 14), Err(30)),
    ((30, 248, 2), Err(30)),
    ((30, 252, 14), Err(30)),
    ((30, 254, 1), Err(30)),
    // its front: 0, and past its last
    ((30, 244, 0), Err(30)),
    ((30, 244, 16), Err(30)),
    // two of its numbers the same, and an entry that is not proper
    ((30, 16, 1), Err(30)),
    ((30, 31, 0), Err(30)),
    // the first frame of the tail: another number, no mark, no page of the disk
    ((15, 240, 17), Err(15)),
    ((15, 255, 0), Err(15)),
    ((15, 252, 8), Err(15)),
    // the third frame of it, unreadable
    ((17, 256, 2), Ok((17, 17, 6))),
];

// After 20 too, of the frame of step 7: whether it is read by its entry then.
const SEVEN_AFTER_20: [(Change, bool); 6] = [
    // its body, number, version, page, dirty flag, and unreadable
    ((6, 0, 70), true),
    ((6, 240, 8), false),
    ((6, 248, 8), false),
    ((6, 252, 5), false),
    ((6, 254, 0), false),
    ((6, 256, 2), false),
];

// After 50: segments 0 to 2 on pages 30 to 32, the tail is 46 to 50, in the same frames, and 22 to 50 are live.
const AFTER_50: [Row; 9] = [
    // nothing is changed
    ((32, 240, 45), Ok((50, 29, 9))),
    // the last frame of the tail: an older number of that place, one of another place, unreadable
    ((19, 240, 20), Ok((49, 29, 8))),
    ((19, 240, 21), Err(19)),
    ((19, 256, 2), Ok((49, 29, 8))),
    // no segment of 1 to 15, none of 16 to 30, none of 31 to 45
    ((30, 256, 2), Ok((50, 29, 9))),
    ((31, 256, 2), Err(21)),
    ((32, 256, 2), Ok((45, 29, 18))),
    // the newest segment's front: lower than it can be, and higher than it was
    ((32, 244, 16), Err(32)),
    ((32, 244, 40), Ok((50, 11, 9))),
];

fn fill(rt: &impl Abort, flash: &mut [u8], disk: &mut [u8], steps: u8) {
    let mut queue = Queue::new(torn(flash, 1000), torn(disk, 1000));
    assert_eq!(rt; play(&mut queue, 1, steps), Ok(()));
}

fn foreign(page: u16) -> Fault {
    Fault::touched(Refusal::Foreign, Side::Flash, page)
}

fn recovers<F: Medium, D: Medium>(
    rt: &impl Abort,
    queue: &mut Queue<F, D>,
    found: Result<(u32, u16, u16), u16>,
) -> Result<(), Fail> {
    let found = found
        .map(|(last, live, reads)| Mounted { last, live, reads })
        .map_err(foreign);
    assert_eq!(rt; queue.recover(), found);
    Ok(())
}

// The frame of step 7 is read by its entry, and all but the first byte of its body is as it was; or it is foreign.
fn reads_seven<F: Medium, D: Medium>(
    rt: &impl Abort,
    queue: &mut Queue<F, D>,
    is_read: bool,
) -> Result<(), Fail> {
    queue.recover()?;
    let entry = queue.valid(4).ok_or("no entry")?;
    assert_eq!(rt; entry.q, 7);
    match queue.read_checked(&entry) {
        Ok(bytes) => assert!(rt; is_read && bytes[1..240] == [7; 239]),
        Err(fault) => assert!(rt; !is_read && fault == foreign(6)),
    }
    Ok(())
}

// After so many steps, with one byte of the flash changed.
fn damaged(rt: &impl Abort, steps: u8, change: Change) -> Result<([u8; 8481], [u8; 2056]), Fail> {
    let mut flash = [0u8; 8481];
    let mut disk = [0u8; 2056];
    fill(rt, &mut flash, &mut disk, steps);
    let (page, at, byte) = change;
    let at = usize::from(page) * 257 + usize::from(at);
    if at < flash.len() {
        flash[at] = byte;
    }
    Ok((flash, disk))
}

// Recovery after so many steps finds what each row says.
fn all_recover(rt: &impl Abort, steps: u8, rows: &[Row]) -> Result<(), Fail> {
    for (change, found) in rows {
        let (mut flash, mut disk) = damaged(rt, steps, *change)?;
        recovers(
            rt,
            &mut Queue::new(torn(&mut flash, 1000), torn(&mut disk, 0)),
            *found,
        )?;
    }
    Ok(())
}

#[test]
fn after_20(rt: HostRuntime) -> Result<(), Fail> {
    all_recover(&rt, 20, &AFTER_20)?;
    for (change, is_read) in &SEVEN_AFTER_20 {
        let (mut flash, mut disk) = damaged(&rt, 20, *change)?;
        reads_seven(
            &rt,
            &mut Queue::new(torn(&mut flash, 1000), torn(&mut disk, 0)),
            *is_read,
        )?;
    }
    Ok(())
}

#[test]
fn after_50(rt: HostRuntime) -> Result<(), Fail> {
    all_recover(&rt, 50, &AFTER_50)
}

// Segment 0 stands in the place of segment 1 too.
#[test]
fn segment_out_of_place(rt: HostRuntime) -> Result<(), Fail> {
    let mut flash = [0u8; 8481];
    let mut disk = [0u8; 2056];
    fill(&rt, &mut flash, &mut disk, 20);
    let (to, from) = flash.split_at_mut(31 * 257);
    from[0..257].copy_from_slice(&to[30 * 257..31 * 257]);
    recovers(
        &rt,
        &mut Queue::new(torn(&mut flash, 1000), torn(&mut disk, 0)),
        Err(31),
    )
}
