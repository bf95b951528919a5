#![tactic(auto)]

use board::command::Command;
use board::reply::Reply;
use media::card::Card;
use media::tray::Tray;
use medium::Medium;
use session::answer::answer;
use std::io;
use store::store::Store;

// The page of the i-th save: one of the first four mostly, and every ninth time one of the others, whose flash copies
// then leave the queue by way of the disk.
fn page_of(i: u8) -> u32 {
    if i % 9 == 8 {
        u32::from(4 + i / 9 % 4)
    } else {
        u32::from(i % 4)
    }
}

// The i-th save of the run.
fn save_of(i: u8) -> Command {
    Command::Save {
        page: page_of(i),
        offset: u32::from(i) * 7 % 240,
        byte: i,
    }
}

// A mount, and a hundred saves with a checkpoint after every tenth, until one is refused: how many were done.
fn saves_done<F: Medium, D: Medium>(store: &mut Store<F, D>) -> u8 {
    answer(store, Command::Mount { frames: 2 });
    for i in 0..100u8 {
        let Reply::Saved(_) = answer(store, save_of(i)) else {
            return i;
        };
        if i % 10 == 9 {
            answer(store, Command::Checkpoint);
        }
    }
    100
}

// Prints the version of a page, and a sum over all its bytes and where they stand.
fn tell_page<F: Medium, D: Medium>(
    rt: &HostRuntime,
    store: &mut Store<F, D>,
    page: u32,
) -> io::Result<()> {
    let mut sum = 0u32;
    let mut found = 0;
    for offset in 0..240u32 {
        if let Reply::Got { byte, version } = answer(store, Command::Get { page, offset }) {
            sum = sum.wrapping_add((offset + 1).wrapping_mul(u32::from(byte)));
            found = version;
        }
    }
    print!(rt; " {found}:{sum}")
}

// The run, and what is found when the power is back on.
fn tell_run<F: Medium, D: Medium>(rt: &HostRuntime, store: &mut Store<F, D>) -> io::Result<()> {
    let saves = saves_done(store);
    answer(
        store,
        Command::Cycle {
            flash: 9000,
            disk: 9000,
        },
    );
    let mounted = answer(store, Command::Mount { frames: 2 });
    print!(rt; " {saves} saves, {mounted},")?;
    for page in 0..8u32 {
        tell_page(rt, store, page)?;
    }
    println!(rt; "")
}

// A medium's charge, and the number of what a strike leaves on it.
#[derive(Clone, Copy)]
struct Power {
    charge: u32,
    strike: u8,
}

// A medium whose power does not fail in a run.
fn steady(strike: u8) -> Power {
    Power {
        charge: 9000,
        strike,
    }
}

// The run over a flash and a disk of which the power fails so.
fn play(rt: &HostRuntime, flash: Power, disk: Power) -> io::Result<()> {
    let mut frames = [0u8; 33 * 257];
    let mut pages = [0u8; 8 * 272];
    let mut store = Store::new(
        Tray::new(&mut frames, flash.strike, flash.charge),
        Card::new(&mut pages, disk.strike, disk.charge),
    );
    tell_run(rt, &mut store)
}

// A cut at each write of the run, on the flash and on the disk, with strikes of each kind.
fn main(rt: HostRuntime) -> io::Result<()> {
    for strike in 0..3u8 {
        for charge in 0..110u32 {
            print!(rt; "flash {charge} strike {strike}:")?;
            play(&rt, Power { charge, strike }, steady(8))?;
        }
        for charge in 0..16u32 {
            print!(rt; "disk {charge} strike {strike}:")?;
            let strike = strike * 8;
            play(&rt, steady(2), Power { charge, strike })?;
        }
    }
    Ok(())
}
