//! The lines of the commands of a unit's programs.

use crate::form::{OrNull, write_hex, write_member};
use crate::places::write_place;
use any_device::AnyDevice;
use ccw_programs::{Link, Workspace};
use run_record::UnitRecord;
use std::alloc::AllocError;
use std::io;
use std::io::Write;
use unit_history::{
    After, BrokenCcw, CommandList, Commands, DataDirection, EndingStatus, EventKind,
    ExecutedCommand, HistoryError, Moved, Next, Shown,
};

/// The commands of a unit, replayed.
#[derive(Drop)]
pub(crate) struct Steps<'t> {
    commands: Commands<'t, AnyDevice>,
    /// Where the next command is put together.
    listed: Workspace,
}

impl<'t> Steps<'t> {
    /// The first `most` commands of a unit.
    pub fn of(unit: &'t UnitRecord<'t>, most: u64) -> Result<Steps<'t>, AllocError> {
        let list = CommandList {
            faults: unit.faults,
            most,
        };
        Ok(Steps {
            commands: Commands::of(unit.book, &list)?,
            listed: Workspace::new(),
        })
    }

    /// Replays the next event, and writes its commands, each on a line. Where the first command is left out, a line says so.
    pub fn write<W: Write>(
        &mut self,
        out: &mut W,
        kind: &EventKind<'_>,
    ) -> Result<(), HistoryError> {
        let EventKind::Ran { commands, .. } = kind else {
            self.commands.pass()?;
            return Ok(());
        };
        for _ in 0..*commands {
            if self.commands.is_cut() {
                break;
            }
            match self.commands.next_command(&mut self.listed)? {
                Next::Command(replayed) => {
                    if let Some(command) = self.commands.describe(replayed) {
                        write_command(out, &command)?;
                    }
                }
                Next::Idle => {}
                Next::LeftOut => out.write_all(b"{\"what\":\"left_out\"}\n")?,
            }
        }
        Ok(())
    }
}

/// Writes a command: its CCWs, the bytes that it moved, how it ended, and its position.
fn write_command<W: Write>(out: &mut W, command: &ExecutedCommand<'_>) -> io::Result<()> {
    out.write_all(b"{\"what\":\"step\",\"ccws\":[")?;
    let mut comma = "";
    for link in command.links() {
        write_ccw(out, comma, link)?;
        comma = ",";
    }
    out.write_all(b"]")?;
    match command.broken() {
        Some(broken) => write_broken(out, &broken)?,
        None => write_done(out, command)?,
    }
    out.write_all(b"}\n")
}

/// Writes what a command did whose CCWs break no rule.
fn write_done<W: Write>(out: &mut W, command: &ExecutedCommand<'_>) -> io::Result<()> {
    if let Some(moved) = command.moved() {
        write_moved(out, &moved)?;
    }
    write_ending(out, &command.ending())?;
    write!(out, ",\"fault\":{}", OrNull(command.fault()))?;
    match command.place() {
        Some(place) => write_place(out, &place),
        None => Ok(()),
    }
}

/// Writes a comma, if any, and a CCW.
fn write_ccw<W: Write>(out: &mut W, comma: &str, link: &Link) -> io::Result<()> {
    let mut image = [0; 8];
    link.ccw.write(&mut image);
    write!(out, "{comma}{{\"at\":\"{:06X}\"", link.at)?;
    write_member(out, "image", Some(&image))?;
    out.write_all(b"}")
}

/// Writes the rule that a CCW breaks.
fn write_broken<W: Write>(out: &mut W, broken: &BrokenCcw<'_>) -> io::Result<()> {
    write!(out, ",\"rule\":{{\"at\":\"{:06X}\"", broken.at)?;
    write_member(out, "image", broken.image)?;
    write!(out, ",\"text\":\"{}\"}}", broken.rule)
}

/// Writes the first of the bytes that a command moved.
fn write_moved<W: Write>(out: &mut W, moved: &Moved) -> io::Result<()> {
    let way = match moved.way {
        DataDirection::From => "from",
        DataDirection::To => "to",
        DataDirection::DownFrom => "down from",
    };
    write!(
        out,
        ",\"moved\":{},\"way\":\"{way}\",\"address\":\"{:06X}\",\"bytes\":",
        moved.count, moved.address
    )?;
    match &moved.bytes {
        Shown::Bytes(bytes) => write_hex(out, bytes.as_slice())?,
        Shown::Skipped => out.write_all(b"\"skipped\"")?,
        Shown::Outside => out.write_all(b"\"\"")?,
    }
    write!(out, ",\"more\":{}", moved.has_more)
}

/// Writes how a command ended, and where its program goes on or which sense bytes it left.
fn write_ending<W: Write>(out: &mut W, ending: &EndingStatus) -> io::Result<()> {
    write!(
        out,
        ",\"status\":\"{:04X}\",\"residual\":\"{:04X}\"",
        ending.status, ending.residual
    )?;
    match ending.after {
        After::Next(next) => write!(out, ",\"sense\":null,\"next\":\"{next:06X}\""),
        After::Sense(sense) => write!(out, ",\"sense\":\"{sense:04X}\",\"next\":null"),
    }
}
