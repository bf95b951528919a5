// Pages as a test lays them out, from what is written of the formats alone.
use rules::trailer::Trailer;

// A trailer's number, back pointer, version, page, and whether it is dirty.
pub type Fields = (u32, u32, u32, u16, bool);

pub(crate) fn trailer(fields: Fields) -> Trailer {
    let (q, back, version, page, dirty) = fields;
    Trailer {
        q,
        back,
        version,
        page,
        dirty,
    }
}

// A body: place i has i + 7.
pub(crate) fn body() -> [u8; 240] {
    std::array::from_fn(|i| (i as u8).wrapping_add(7))
}

// A page with this body and these last sixteen bytes.
pub(crate) fn page(last: [u8; 16]) -> [u8; 256] {
    let mut page = [0u8; 256];
    page[..240].copy_from_slice(&body());
    page[240..].copy_from_slice(&last);
    page
}

// The same page with one byte changed.
pub(crate) fn with(page: &[u8; 256], place: usize, value: u8) -> [u8; 256] {
    let mut changed = *page;
    if let Some(byte) = changed.get_mut(place) {
        *byte = value;
    }
    changed
}
