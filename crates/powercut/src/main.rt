#![tactic(auto)]

use layers::read_buffer::ReadBuffer;
use layers::window::Window;
use media::card::Card;
use media::strike::Strike;
use media::tray::Tray;
use medium::{Cause, Medium, PAGE};
use power_cycle::cut::{Cut, cut_in_write};
use power_cycle::look::{level_of, look};
use std::{fmt, io};

const SHOW: u16 = 1;

// An answer as the program prints it.
#[derive(Drop)]
struct Told(Result<(), Cause>);

impl fmt::Display for Told {
    fn fmt<W: fmt::Write>(&self, f: &mut fmt::Formatter<W>) -> fmt::Result {
        match self.0 {
            Ok(()) => f.write_str("done"),
            Err(cause) => cause.fmt(f),
        }
    }
}

// Prints what a read gave.
fn tell_read(rt: &HostRuntime, answer: Result<(), Cause>, page: &[u8; PAGE]) -> io::Result<()> {
    if let Err(cause) = answer {
        return println!(rt; "  read page {SHOW}: {cause}");
    }
    match level_of(page) {
        Some(level) => println!(rt; "  read page {SHOW}: all channels at {level}"),
        None => println!(rt; "  read page {SHOW}: channels of two looks"),
    }
}

// One show page, from its first write through a power cut to what is found after.
fn play<M: Medium>(rt: &HostRuntime, medium: &mut M) -> io::Result<()> {
    let mut page = look(0);
    let written = Told(medium.write(SHOW, &look(40)));
    println!(rt; "  write page {SHOW}, all channels at 40: {written}")?;
    let read = medium.read(SHOW, &mut page);
    tell_read(rt, read, &page)?;
    let Cut { write, dark, read } = cut_in_write(medium, SHOW, &look(90), 1, &mut page);
    let write = Told(write);
    println!(rt; "  write page {SHOW}, all channels at 90, and the power fails: {write}")?;
    let dark = Told(dark);
    println!(rt; "  read page {SHOW}: {dark}")?;
    println!(rt; "  power on")?;
    tell_read(rt, read, &page)
}

// The page on a tray or a card, and on another one below a pile of layers.
fn on_both<M: Medium + Drop>(
    rt: &HostRuntime,
    name: &str,
    mut alone: M,
    below: M,
) -> io::Result<()> {
    println!(rt; "{name}")?;
    play(rt, &mut alone)?;
    println!(rt; "window over read buffer over window over {name}")?;
    let buffer = ReadBuffer::new(Window::new(0, 9, below));
    play(rt, &mut Window::new(1, 3, buffer))
}

fn main(rt: HostRuntime) -> io::Result<()> {
    for (strike, name) in [
        (Strike::Old, "tray, a strike leaves the old page"),
        (Strike::New, "tray, a strike leaves the new page"),
        (Strike::Torn, "tray, a strike leaves a torn page"),
    ] {
        let strike = strike as u8;
        on_both(
            &rt,
            name,
            Tray::new(&mut [0; 1028], strike, 1),
            Tray::new(&mut [0; 1028], strike, 1),
        )?;
    }
    for (stop, name) in [
        (0, "card, a strike stops after 0 sectors"),
        (16, "card, a strike stops after 16 sectors"),
        (8, "card, a strike stops after 8 sectors"),
    ] {
        on_both(
            &rt,
            name,
            Card::new(&mut [0; 1088], stop, 1),
            Card::new(&mut [0; 1088], stop, 1),
        )?;
    }
    Ok(())
}
