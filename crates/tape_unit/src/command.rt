//! The commands of a tape, by their codes.

ghost use Rattle.std.specs.Prelude.{◌≡◌};
ghost use Rattle.tape_unit.specs.Command.{command_of, flow_of};

use device_port::Flow;

/// A command that moves no data.
#[derive(Clone, Copy, Debug, PartialEq, Eq)]
pub enum ControlCommand {
    NoOperation,
    Rewind,
    WriteTapeMark,
    BackspaceBlock,
    BackspaceFile,
    ForwardSpaceBlock,
    ForwardSpaceFile,
}

/// The commands of a tape.
#[derive(Clone, Copy, Debug, PartialEq, Eq)]
pub enum Command {
    Control(ControlCommand),
    Sense,
    Read,
    ReadBackward,
    Write,
}

impl Command {
    /// The command with this code, if the tape has one.
    pub fn decode(code: u8) -> Option<Self>
        ensures { result ≡ command_of code }
    {
        let command = match code {
            0x01 => Command::Write,
            0x02 => Command::Read,
            0x03 => Command::Control(ControlCommand::NoOperation),
            0x04 => Command::Sense,
            0x07 => Command::Control(ControlCommand::Rewind),
            0x0C => Command::ReadBackward,
            0x1F => Command::Control(ControlCommand::WriteTapeMark),
            0x27 => Command::Control(ControlCommand::BackspaceBlock),
            0x2F => Command::Control(ControlCommand::BackspaceFile),
            0x37 => Command::Control(ControlCommand::ForwardSpaceBlock),
            0x3F => Command::Control(ControlCommand::ForwardSpaceFile),
            _ => return None,
        };
        Some(command)
    }

    /// The direction of a command's data.
    pub fn flow(command: Option<Self>) -> Flow
        ensures { result ≡ flow_of command }
    {
        match command {
            None | Some(Command::Control(_)) => Flow::None,
            Some(Command::Sense | Command::Read) => Flow::Input,
            Some(Command::ReadBackward) => Flow::Back,
            Some(Command::Write) => Flow::Out,
        }
    }
}
