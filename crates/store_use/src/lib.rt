#![tactic(auto)]

// How a program uses a store: over any two media, and with every hold given back on every way.
ghost use Rattle.std.specs.Prelude.{length};
ghost use Rattle.store.specs.View.{InOrder, InRun, view};
ghost use Rattle.store_use.specs.Visits.{Puts, Looks, Copies, CopiesInto};

use medium::Medium;
use rules::fault::Fault;
use store::hold::Hold;
use store::store::Store;

// Puts bytes at an offset of a page, and answers its new version.
pub fn put<F: Medium, D: Medium>(
    store: &mut Store<F, D>,
    page: u32,
    offset: usize,
    bytes: &[u8],
) -> Result<u32, Fault>
    ensures keeps { InOrder F.Medium D.Medium store.old → InOrder F.Medium D.Medium store.new }
    ensures does { InOrder F.Medium D.Medium store.old
        → InRun (view F.Medium D.Medium store.old)
        (Puts page offset bytes.now (view F.Medium D.Medium store.old) (view F.Medium D.Medium store.new) result) }
{
    let hold = store.take(page)?;
    let version = store.write(&hold, offset, bytes);
    store.give_back(hold).and(version)
}

// Reads a page into a buffer, and answers its version.
pub fn look<F: Medium, D: Medium>(
    store: &mut Store<F, D>,
    page: u32,
    into: &mut [u8],
) -> Result<u32, Fault>
    ensures keeps { InOrder F.Medium D.Medium store.old → InOrder F.Medium D.Medium store.new }
    ensures does { InOrder F.Medium D.Medium store.old
        → Looks page (length into.old) into.new (view F.Medium D.Medium store.old) (view F.Medium D.Medium store.new) result }
{
    let hold = store.take(page)?;
    let version = store.read(&hold, into);
    store.give_back(hold).and(version)
}

// Puts a body that another page has into a page, with both held, and answers the new version.
pub fn copy<F: Medium, D: Medium>(store: &mut Store<F, D>, from: u32, to: u32) -> Result<u32, Fault>
    ensures keeps { InOrder F.Medium D.Medium store.old → InOrder F.Medium D.Medium store.new }
    ensures does { InOrder F.Medium D.Medium store.old
        → InRun (view F.Medium D.Medium store.old)
        (Copies from to (view F.Medium D.Medium store.old) (view F.Medium D.Medium store.new) result) }
{
    let source = store.take(from)?;
    let version = copy_into(store, &source, to);
    store.give_back(source).and(version)
}

fn copy_into<F: Medium, D: Medium>(
    store: &mut Store<F, D>,
    source: &Hold,
    to: u32,
) -> Result<u32, Fault>
    ensures keeps { InOrder F.Medium D.Medium store.old → InOrder F.Medium D.Medium store.new }
    ensures does { InOrder F.Medium D.Medium store.old
        → InRun (view F.Medium D.Medium store.old)
        (CopiesInto to source.now.grant (view F.Medium D.Medium store.old) (view F.Medium D.Medium store.new) result) }
{
    let mut body = [0u8; 240];
    store.read(source, &mut body)?;
    put(store, to, 0, &body)
}
