// Scripts: calls of a medium, each with what is to be seen of it.
use crate::bytes::{all, holds, lay, rising};
use medium::{Cause, Medium};
use std::process::Abort;

pub type Answer = Result<(), Cause>;

pub const DONE: Answer = Ok(());

pub const DARK: Answer = Err(Cause::Dark);

pub const OUTSIDE: Answer = Err(Cause::Outside);

pub const LENGTH: Answer = Err(Cause::Length);

// What a read shows: the content that rises from a number on, or why there is none.
pub type Shown = Result<u8, Cause>;

pub const BLACK: Shown = Err(Cause::Dark);

pub const NOWHERE: Shown = Err(Cause::Outside);

pub const SHORT: Shown = Err(Cause::Length);

pub const TORN: Shown = Err(Cause::Unreadable);

#[derive(Clone, Copy)]
pub enum Step {
    // the size is this
    Size(u16),
    // a read of a page shows this
    Read(u16, Shown),
    // a write to a page, of the content from a number on, is answered so
    Write(u16, u8, Answer),
    // the same with a buffer of so many bytes
    ReadInto(usize, u16, Shown),
    WriteFrom(usize, u16, u8, Answer),
    // power on with this charge
    Relight(u32),
}

// A read answers so, and fills a buffer of fives or leaves it.
fn reads<M: Medium>(
    rt: &impl Abort,
    step: usize,
    medium: &mut M,
    len: usize,
    page: u16,
    shown: Shown,
) {
    let mut buffer = [5u8; 300];
    assert!(rt; len <= 300);
    let into = &mut buffer[0..len];
    let answer = medium.read(page, into);
    let (expected, filled) = match shown {
        Ok(first) => (DONE, holds(into, 0, &rising(first))),
        Err(cause) => (Err(cause), all(into, 5)),
    };
    assert_eq!(rt; answer, expected, "step {step}");
    assert!(rt; filled, "step {step}");
}

fn writes<M: Medium>(
    rt: &impl Abort,
    step: usize,
    medium: &mut M,
    len: usize,
    page: u16,
    first: u8,
    answer: Answer,
) {
    let mut buffer = [0u8; 300];
    lay(&mut buffer, 0, &rising(first));
    assert!(rt; len <= 300);
    assert_eq!(rt; medium.write(page, &buffer[0..len]), answer, "step {step}");
}

fn follow<M: Medium>(rt: &impl Abort, i: usize, medium: &mut M, step: Step) {
    match step {
        Step::Size(size) => assert_eq!(rt; medium.size(), size, "step {i}"),
        Step::Read(page, shown) => reads(rt, i, medium, 256, page, shown),
        Step::Write(page, first, answer) => writes(rt, i, medium, 256, page, first, answer),
        Step::ReadInto(len, page, shown) => reads(rt, i, medium, len, page, shown),
        Step::WriteFrom(len, page, first, answer) => writes(
            rt, i, medium, len, page, first, answer,
        ),
        Step::Relight(charge) => medium.relight(charge),
    }
}

pub fn play<M: Medium>(rt: &impl Abort, medium: &mut M, script: &[Step]) {
    for (i, step) in script.iter().enumerate() {
        follow(rt, i, medium, *step);
    }
}
