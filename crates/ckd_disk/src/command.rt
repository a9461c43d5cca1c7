//! The commands of a disk, by their codes.

ghost use Rattle.std.specs.Prelude.{◌≡◌};
ghost use Rattle.ckd_disk.specs.Command.{command_of, flow_of};

use device_port::Flow;

/// A command that moves no data.
#[derive(Clone, Copy, Debug, PartialEq, Eq)]
pub enum ControlCommand {
    NoOperation,
    SetFileMask,
}

/// A command that gives data to the program.
#[derive(Clone, Copy, Debug, PartialEq, Eq)]
pub enum Read {
    Sense,
    Count,
    Data,
    KeyAndData,
    CountKeyAndData,
}

/// A command that takes data from the program.
#[derive(Clone, Copy, Debug, PartialEq, Eq)]
pub enum Write {
    Seek,
    SearchId,
    SearchKey,
    Data,
    KeyAndData,
    CountKeyAndData,
}

/// The commands of a disk, by the direction of their data.
#[derive(Clone, Copy, Debug, PartialEq, Eq)]
pub enum Command {
    Control(ControlCommand),
    Read(Read),
    Write(Write),
}

impl Command {
    /// The command with this code, if the disk has one.
    pub fn decode(code: u8) -> Option<Self>
        ensures { result ≡ command_of code }
    {
        let command = match code {
            0x03 => Command::Control(ControlCommand::NoOperation),
            0x04 => Command::Read(Read::Sense),
            0x05 => Command::Write(Write::Data),
            0x06 => Command::Read(Read::Data),
            0x07 => Command::Write(Write::Seek),
            0x0D => Command::Write(Write::KeyAndData),
            0x0E => Command::Read(Read::KeyAndData),
            0x12 => Command::Read(Read::Count),
            0x1D => Command::Write(Write::CountKeyAndData),
            0x1E => Command::Read(Read::CountKeyAndData),
            0x1F => Command::Control(ControlCommand::SetFileMask),
            0x29 => Command::Write(Write::SearchKey),
            0x31 => Command::Write(Write::SearchId),
            _ => return None,
        };
        Some(command)
    }

    /// The direction of a command's data.
    pub fn flow(command: Option<Self>) -> Flow
        ensures { result ≡ flow_of command }
    {
        match command {
            None | Some(Command::Control(_)) => Flow::None,
            Some(Command::Read(_)) => Flow::Input,
            Some(Command::Write(_)) => Flow::Out,
        }
    }
}
