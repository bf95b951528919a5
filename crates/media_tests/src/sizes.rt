// At most 65,535 pages, however many bytes are lent.
use crate::bytes::{card_page, holds, tray_page};
use crate::script::Step::*;
use crate::script::{DONE, NOWHERE, OUTSIDE, Step, play};
use media::card::Card;
use media::strike::Strike;
use media::tray::Tray;
use std::test::Fail;

// The pages that there is room for, the size, and the last page.
#[derive(Clone, Copy)]
struct Row {
    pages: usize,
    size: u16,
    last: u16,
}

const SIZES: [Row; 4] = [
    Row {
        pages: 65534,
        size: 65534,
        last: 65533,
    },
    Row {
        pages: 65535,
        size: 65535,
        last: 65534,
    },
    Row {
        pages: 65536,
        size: 65535,
        last: 65534,
    },
    Row {
        pages: 65800,
        size: 65535,
        last: 65534,
    },
];

// The last page is written and read back, and what comes after is outside.
fn to_the_end(row: &Row) -> [Step; 7] {
    [
        Size(row.size),
        Write(row.last, 30, DONE),
        Read(row.last, Ok(30)),
        Read(row.size, NOWHERE),
        Write(row.size, 70, OUTSIDE),
        Read(65535, NOWHERE),
        Write(65535, 70, OUTSIDE),
    ]
}

#[test]
fn sizes(rt: HostRuntime) -> Result<(), Fail> {
    for row in &SIZES {
        let last = usize::from(row.last);
        assert!(rt; row.pages <= 65800);
        let mut bytes = vec![in rt.alloc(); 0u8; row.pages * 257]?;
        play(
            &rt,
            &mut Tray::new(&mut bytes, Strike::Torn as u8, 1),
            &to_the_end(row),
        );
        assert!(rt; holds(&bytes, last * 257, &tray_page(30, 1)));
        let mut bytes = vec![in rt.alloc(); 0u8; row.pages * 272]?;
        play(&rt, &mut Card::new(&mut bytes, 8, 1), &to_the_end(row));
        assert!(rt; holds(&bytes, last * 272, &card_page(30, [1; 16])));
    }
    Ok(())
}
