ghost use Rattle.std.specs.Prelude.{◌≤◌, length, IfOk};
ghost use Rattle.session.specs.Replies.{Carries};

use crate::answer::reply_to;
use board::lines::line_end;
use medium::Medium;
use std::io;
use std::io::Read;
use store::store::Store;

// The most bytes of input that are read.
pub const MOST: usize = 4096;

// Reads the input: its bytes, and how many there are; one more than the most if it is too long.
fn read_input(rt: &HostRuntime, into: &mut [u8]) -> io::Result<usize>
    ensures { IfOk result (λ n. n ≤ length into.old) }
{
    let mut len = 0;
    while len < into.len() {
        let more = rt.stdin().read(&mut into[len..])?;
        if more == 0 {
            break;
        }
        len += more;
    }
    Ok(len)
}

// Replies to each line.
fn reply_to_all<F: Medium, D: Medium>(
    rt: &HostRuntime,
    store: &mut Store<F, D>,
    input: &[u8],
) -> io::Result<()>
    ensures { Carries F.Medium D.Medium store.old store.new }
{
    let mut from = 0;
    while from < input.len() {
        let end = line_end(input, from);
        let reply = reply_to(store, &input[from..end]);
        println!(rt; "{reply}")?;
        from = end + 1;
    }
    Ok(())
}

// Replies to the lines of standard input.
pub fn play<F: Medium, D: Medium>(rt: &HostRuntime, store: &mut Store<F, D>) -> io::Result<()>
    ensures { Carries F.Medium D.Medium store.old store.new }
{
    let mut input = [0u8; MOST + 1];
    let len = read_input(rt, &mut input)?;
    if len > MOST {
        return println!(rt; "too long");
    }
    reply_to_all(rt, store, &input[..len])
}
