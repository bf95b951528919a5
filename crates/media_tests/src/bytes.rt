// Lent bytes as a test lays them out and looks at them, from what is written of the media alone.
use std::array::from_fn;

// A page's content, 256 distinct bytes: place i has first + i, and after 255 comes 0.
pub fn rising(first: u8) -> [u8; 256] {
    from_fn(|i| first.wrapping_add(i as u8))
}

// A tray's page: the content, then the mark.
pub fn tray_page(first: u8, mark: u8) -> [u8; 257] {
    let mut page = [mark; 257];
    page[..256].copy_from_slice(&rising(first));
    page
}

// A card's page: 16 times 16 bytes of the content and a tick.
pub fn card_page(first: u8, ticks: [u8; 16]) -> [u8; 272] {
    let content = rising(first);
    from_fn(|at| match at % 17 {
        16 => ticks[at / 17],
        place => content[at / 17 * 16 + place],
    })
}

// A page of which so many sectors are new.
pub fn card_torn(old: [u8; 272], new: [u8; 272], sectors: usize) -> [u8; 272] {
    from_fn(|at| if at / 17 < sectors { new[at] } else { old[at] })
}

// Every byte has this value.
pub fn all(bytes: &[u8], value: u8) -> bool {
    bytes.iter().all(|byte| *byte == value)
}

// Lays a part over the bytes from a place on, where there is room for it.
pub fn lay(bytes: &mut [u8], start: usize, part: &[u8]) {
    if start <= bytes.len() && part.len() <= bytes.len() - start {
        bytes[start..start + part.len()].copy_from_slice(part);
    }
}

// This part stands in the bytes from a place on.
pub fn holds(bytes: &[u8], start: usize, part: &[u8]) -> bool {
    bytes
        .get(start..)
        .is_some_and(|rest| rest.starts_with(part))
}

// Bytes of nines with a page from a place on: with page 1 of a tray or a card, there are spare bytes.
pub fn laid(start: usize, page: &[u8]) -> [u8; 600] {
    let mut bytes = [9u8; 600];
    lay(&mut bytes, start, page);
    bytes
}
