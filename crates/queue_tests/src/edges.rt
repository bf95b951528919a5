// The queue in the dark, and with no number left.
use crate::run::{Stop, play};
use crate::stage::torn;
use format::segment::{Summary, write_segment};
use medium::{Medium, PAGE};
use queue::queue::Queue;
use rules::fault::{Fault, Refusal, Side};
use rules::state::Mounted;
use rules::trailer::Trailer;
use std::array;
use std::process::Abort;
use std::test::Fail;

fn dark(page: u16) -> Fault {
    Fault::touched(Refusal::Dark, Side::Flash, page)
}

fn stays_dark<F: Medium, D: Medium>(rt: &impl Abort, queue: &mut Queue<F, D>) -> Result<(), Fail> {
    let stop = Stop {
        step: 1,
        fault: dark(0),
    };
    assert_eq!(rt; play(queue, 1, 1), Err(stop));
    assert!(rt; queue.flash_pages() == 33 && queue.disk_pages() == 8);
    assert_eq!(rt; queue.recover(), Err(dark(30)));
    Ok(())
}

#[test]
fn in_the_dark(rt: HostRuntime) -> Result<(), Fail> {
    stays_dark(
        &rt,
        &mut Queue::new(torn(&mut [0; 8481], 0), torn(&mut [0; 2056], 0)),
    )
}

// A segment with its last number ten below the highest there may be, and only that one live.
const LAST: u32 = 3_999_999_990;

fn late_segment() -> [u8; PAGE] {
    let segment = Summary {
        last: LAST,
        front: LAST,
        entries: array::from_fn(|i| Trailer {
            q: LAST - 14 + i as u32,
            back: 0,
            version: 1,
            page: 2,
            dirty: true,
        }),
    };
    let mut bytes = [0u8; PAGE];
    let _ = write_segment(&mut bytes, &segment);
    bytes
}

fn goes_to_the_last<F: Medium, D: Medium>(
    rt: &impl Abort,
    queue: &mut Queue<F, D>,
) -> Result<(), Fail> {
    let found = Mounted {
        last: LAST,
        live: 1,
        reads: 4,
    };
    assert_eq!(rt; queue.recover(), Ok(found));
    let stop = Stop {
        step: 11,
        fault: Fault::plain(Refusal::Spent),
    };
    assert_eq!(rt; play(queue, 1, 11), Err(stop));
    Ok(())
}

// That segment lies on page 31.
#[test]
fn spent(rt: HostRuntime) -> Result<(), Fail> {
    let mut flash = [0u8; 8481];
    let (_, from) = flash.split_at_mut(31 * 257);
    from[0..PAGE].copy_from_slice(&late_segment());
    from[PAGE] = 1;
    goes_to_the_last(
        &rt,
        &mut Queue::new(torn(&mut flash, 1000), torn(&mut [0; 2056], 0)),
    )
}
