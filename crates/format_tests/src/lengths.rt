// Pages and bodies of a wrong length: refused, and nothing is written.
use crate::bytes::{body, page, trailer};
use crate::segments::{fifteen, segment_page};
use format::page::{is_like, read_trailer, write_page};
use format::segment::{read_segment, write_segment};
use rules::fault::Refusal;
use std::process::Abort;

static LENGTHS: [usize; 9] = [0, 1, 16, 240, 255, 256, 257, 272, 300];

static BODIES: [usize; 6] = [0, 1, 239, 240, 241, 256];

// The first save of page 3.
const LAST: [u8; 16] = [1, 0, 0, 0, 0, 0, 0, 0, 1, 0, 0, 0, 3, 0, 1, 1];

// These bytes over a buffer of fives; whatever part of the buffer was given, the rest stays.
fn over_fives(start: &[u8; 256]) -> [u8; 300] {
    let mut bytes = [5u8; 300];
    bytes[..256].copy_from_slice(start);
    bytes
}

fn writes_page(rt: &impl Abort, length: usize, body_length: usize) {
    let mut bytes = [5u8; 300];
    let mut longer = [0u8; 300];
    longer[..240].copy_from_slice(&body());
    assert!(rt; length <= 300 && body_length <= 300);
    let answer = write_page(
        &mut bytes[..length],
        &longer[..body_length],
        &trailer((1, 0, 1, 3, true)),
    );
    if length == 256 && body_length == 240 {
        assert_eq!(rt; answer, Ok(()));
        assert!(rt; bytes == over_fives(&page(LAST)));
        return;
    }
    assert_eq!(rt; answer, Err(Refusal::Length));
    assert!(rt; bytes == [5; 300]);
}

#[test]
fn pages_written(rt: HostRuntime) {
    for length in LENGTHS {
        for body_length in BODIES {
            writes_page(&rt, length, body_length);
        }
    }
}

fn writes_segment(rt: &impl Abort, length: usize) {
    let mut bytes = [5u8; 300];
    assert!(rt; length <= 300);
    let answer = write_segment(&mut bytes[..length], &fifteen());
    if length == 256 {
        assert_eq!(rt; answer, Ok(()));
        assert!(rt; bytes == over_fives(&segment_page()));
        return;
    }
    assert_eq!(rt; answer, Err(Refusal::Length));
    assert!(rt; bytes == [5; 300]);
}

// Only 256 bytes are read as a page or as a segment.
fn reads(rt: &impl Abort, length: usize) {
    let paged = over_fives(&page(LAST));
    let segmented = over_fives(&segment_page());
    assert!(rt; length <= 300);
    let whole = length == 256;
    assert!(rt; read_trailer(&paged[..length], 8).is_some() == whole);
    assert!(rt; is_like(&paged[..length], &trailer((1, 0, 1, 3, true))) == whole);
    assert!(rt; read_segment(&segmented[..length], 2, 0, 8).is_some() == whole);
}

#[test]
fn other_lengths(rt: HostRuntime) {
    for length in LENGTHS {
        writes_segment(&rt, length);
        reads(&rt, length);
    }
}
