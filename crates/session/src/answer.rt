ghost use Rattle.std.specs.Prelude.{◌≡◌};
ghost use Rattle.board.specs.declared.reply.Reply.TheVariants as reply;
ghost use Rattle.board.specs.Lines.{command_of};
ghost use Rattle.store.specs.View.{InRun};
ghost use Rattle.session.specs.Replies.{Replies, RepliesTo, Saves, Gets, Answers, Goes, got};

use board::command::{Command, Letter, parse};
use board::reply::Reply;
use format::page::BODY;
use medium::Medium;
use rules::fault::{Fault, Refusal};
use store::store::Store;
use store_use::{look, put};

fn refused(letter: Letter, fault: Fault) -> Reply
    ensures { result ≡ reply.Refused letter fault.cause }
{
    Reply::Refused {
        letter,
        cause: fault.cause,
    }
}

// Puts a byte at an offset of a page.
fn save<F: Medium, D: Medium>(store: &mut Store<F, D>, page: u32, offset: u32, byte: u8) -> Reply
    ensures does { Answers F.Medium D.Medium store.old store.new
        (λ x z. InRun x (Saves page offset byte x z result)) }
    ensures goes { Goes F.Medium D.Medium store.old store.new }
{
    let version = put(store, page, offset as usize, &[byte]);
    version.map_or_else(|fault| refused(Letter::Save, fault), Reply::Saved)
}

// What a read body shows at an offset.
fn shown(offset: u32, body: &[u8; BODY], version: u32) -> Reply
    ensures { result ≡ got offset body.now version }
{
    if offset >= 240 {
        return Reply::Refused {
            letter: Letter::Get,
            cause: Refusal::Length,
        };
    }
    Reply::Got {
        byte: body[offset as usize],
        version,
    }
}

// Looks at a page; the reply is the byte at an offset.
fn get<F: Medium, D: Medium>(store: &mut Store<F, D>, page: u32, offset: u32) -> Reply
    ensures does { Answers F.Medium D.Medium store.old store.new
        (λ x z. Gets page offset x z result) }
    ensures goes { Goes F.Medium D.Medium store.old store.new }
{
    let mut body = [0u8; BODY];
    let version = look(store, page, &mut body);
    version.map_or_else(
        |fault| refused(Letter::Get, fault),
        |version| shown(offset, &body, version),
    )
}

// Does what a command asks of a store, and replies.
pub fn answer<F: Medium, D: Medium>(store: &mut Store<F, D>, command: Command) -> Reply
    ensures does { Answers F.Medium D.Medium store.old store.new
        (λ x z. Replies command x z result) }
    ensures goes { Goes F.Medium D.Medium store.old store.new }
{
    match command {
        Command::Mount { frames } => store
            .mount(frames)
            .map_or_else(|fault| refused(Letter::Mount, fault), Reply::Mounted),
        Command::Save { page, offset, byte } => save(store, page, offset, byte),
        Command::Get { page, offset } => get(store, page, offset),
        Command::Checkpoint => store
            .checkpoint()
            .map_or_else(|fault| refused(Letter::Checkpoint, fault), Reply::Kept),
        Command::Cycle { flash, disk } => {
            store.power_cycle(flash, disk);
            Reply::Cycled
        }
    }
}

// Does what a line asks of a store, and replies; an ill-formed line asks nothing.
pub fn reply_to<F: Medium, D: Medium>(store: &mut Store<F, D>, line: &[u8]) -> Reply
    ensures does { Answers F.Medium D.Medium store.old store.new
        (λ x z. RepliesTo (command_of line.now) x z result) }
    ensures goes { Goes F.Medium D.Medium store.old store.new }
{
    let Some(command) = parse(line) else {
        return Reply::Unclear;
    };
    answer(store, command)
}
