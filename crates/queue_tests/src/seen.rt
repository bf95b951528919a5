// What is to be seen of a queue.
use crate::run::{PAGES, newest};
use format::page::read_trailer;
use medium::{Medium, PAGE};
use queue::queue::Queue;
use rules::trailer::Trailer;
use std::process::Abort;
use std::test::Fail;

// Number and back pointer of each page's valid entry after all steps, and of what the disk has.
type Row = Option<(u32, u32)>;

const VALID: [Row; 8] = [
    Some((92, 84)),
    Some((93, 89)),
    Some((94, 90)),
    Some((95, 91)),
    None,
    Some((69, 0)),
    Some((88, 66)),
    None,
];

const DISK: [Row; 8] = [
    None,
    None,
    None,
    None,
    Some((50, 0)),
    Some((40, 0)),
    None,
    Some((33, 0)),
];

fn trailer(page: u16, row: Row) -> Option<Trailer> {
    row.map(|(q, back)| Trailer {
        q,
        back,
        version: q,
        page,
        dirty: true,
    })
}

fn trailer_in(bytes: Option<[u8; PAGE]>) -> Option<Trailer> {
    bytes.and_then(|bytes| read_trailer(&bytes, PAGES))
}

// The queue is as it is after all steps.
pub(crate) fn at_end<F: Medium, D: Medium>(
    rt: &impl Abort,
    queue: &mut Queue<F, D>,
) -> Result<(), Fail> {
    for (page, (valid, disk)) in (0..PAGES).zip(VALID.iter().zip(&DISK)) {
        assert_eq!(rt; queue.valid(page), trailer(page, *valid), "{}", page);
        let kept = queue.look_at_disk(page)?;
        assert_eq!(rt; trailer_in(kept), trailer(page, *disk), "{}", page);
    }
    Ok(())
}

// These are body and trailer of this version of a page.
fn is_version(bytes: &[u8; PAGE], page: u16, version: u8) -> bool {
    read_trailer(bytes, PAGES).is_some_and(|trailer| {
        trailer.page == page && trailer.version == u32::from(version)
    }) && bytes[0..240] == [version; 240]
}

// What is found of a page, in the queue or else on the disk, is this version of it.
fn holds<F: Medium, D: Medium>(
    rt: &impl Abort,
    queue: &mut Queue<F, D>,
    page: u16,
    version: Option<u8>,
) -> Result<(), Fail> {
    let found = match queue.valid(page) {
        Some(entry) => Some(queue.read_checked(&entry)?),
        None => queue.look_at_disk(page)?,
    };
    match (found, version) {
        (Some(bytes), Some(version)) => assert!(rt; is_version(&bytes, page, version)),
        (found, version) => assert!(rt; found.is_none() && version.is_none()),
    }
    Ok(())
}

// Of each page the newest version among so many steps is found.
pub(crate) fn holds_all<F: Medium, D: Medium>(
    rt: &impl Abort,
    queue: &mut Queue<F, D>,
    steps: u8,
) -> Result<(), Fail> {
    for page in 0..PAGES {
        holds(rt, queue, page, newest(steps, page))?;
    }
    Ok(())
}
