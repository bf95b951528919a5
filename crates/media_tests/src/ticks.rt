// The tick that a write gives a page: the smallest from 1 on that none of its sectors carries.
use crate::bytes::{card_page, laid};
use crate::script::Step::Write;
use crate::script::{DONE, play};
use media::card::Card;

// The ticks of the sixteen sectors before a write, and the tick of all after it.
const NEXT: [([u8; 16], u8); 12] = [
    ([0; 16], 1),
    ([1; 16], 2),
    ([2; 16], 1),
    ([4; 16], 1),
    ([255; 16], 1),
    ([1, 3, 3, 3, 3, 3, 3, 3, 3, 3, 3, 3, 3, 3, 3, 3], 2),
    ([3, 3, 3, 3, 3, 3, 3, 3, 3, 3, 3, 3, 3, 3, 3, 1], 2),
    ([2, 2, 2, 2, 2, 2, 2, 2, 1, 1, 1, 1, 1, 1, 1, 1], 3),
    ([0, 1, 2, 3, 4, 5, 6, 7, 8, 9, 10, 11, 12, 13, 14, 15], 16),
    ([1, 2, 3, 4, 5, 6, 7, 8, 9, 10, 11, 12, 13, 14, 15, 16], 17),
    ([16, 15, 14, 13, 12, 11, 10, 9, 8, 7, 6, 5, 4, 3, 2, 1], 17),
    ([2, 3, 4, 5, 6, 7, 8, 9, 10, 11, 12, 13, 14, 15, 16, 17], 1),
];

// A write to page 1 gives it the new tick and changes no other page, nor the spare bytes.
#[test]
fn next_ticks(rt: HostRuntime) {
    for (old, new) in NEXT {
        let mut bytes = laid(272, &card_page(30, old));
        play(&rt, &mut Card::new(&mut bytes, 8, 1), &[Write(1, 70, DONE)]);
        assert!(rt; bytes == laid(272, &card_page(70, [new; 16])), "{}", new);
    }
}
