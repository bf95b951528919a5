ghost use Rattle.std.specs.Prelude.{◌≡◌, ◌+◌, ◌-◌, ◌*◌, ◌/◌, ◌<◌, ◌≤◌, IfNone, IfSome};
ghost use Rattle.rules.specs.Queue.{place};

use crate::places::{GROUP, groups_of, slot};

// The most groups that the directory has slots for.
const MOST_GROUPS: u16 = 14;

// The sizes that recovery goes by: how many groups of frames the flash has, and how many pages the disk.
#[derive(Clone, Copy)]
pub(crate) struct Shape {
    pub(crate) groups: u16,
    pub(crate) pages: u16,
    ghost some: { 1 ≤ groups },
    ghost few: { groups ≤ 14 },
}

impl Shape {
    // None if a flash of that size is no queue's.
    pub(crate) fn of(flash_size: u16, pages: u16) -> Option<Shape>
        ensures sizes { IfSome result (λ s. (s.groups ≡ (flash_size - 1) / 16) × (s.pages ≡ pages)) }
        ensures other { IfNone result (1 ≤ (flash_size - 1) / 16 → 14 < (flash_size - 1) / 16) }
    {
        let groups = groups_of(flash_size);
        if groups < 1 || groups > MOST_GROUPS {
            return None;
        }
        Some(Shape { groups, pages })
    }

    pub(crate) fn frames(self) -> u16
        ensures { result ≡ 15 * self.groups }
    {
        GROUP * self.groups
    }

    // How many segment pages there are: one more than groups.
    pub(crate) fn segment_pages(self) -> u16
        ensures { result ≡ self.groups + 1 }
    {
        self.groups + 1
    }

    // The frame of a number.
    pub(crate) fn frame_of(self, q: u32) -> u16
        ensures exact { result ≡ place (15 * self.groups) q }
        ensures within { result < 15 * self.groups }
    {
        slot(q, self.frames())
    }
}
