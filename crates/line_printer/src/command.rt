//! The commands of a printer, by their codes.

ghost use Rattle.std.specs.Prelude.{◌≡◌};
ghost use Rattle.line_printer.specs.Command.{command_of, flow_of};

use crate::paper::Motion;
use device_port::Flow;

/// The commands of a printer.
#[derive(Clone, Copy, Debug, PartialEq, Eq)]
pub enum Command {
    NoOperation,
    Sense,
    /// Prints a line and moves the paper.
    Print(Motion),
    /// Moves the paper at once.
    Move(Motion),
}

impl Command {
    /// The command with this code, if the printer has one.
    pub fn decode(code: u8) -> Option<Self>
        ensures { result ≡ command_of code }
    {
        let command = match code {
            0x01 => Command::Print(Motion::Suppress),
            0x03 => Command::NoOperation,
            0x04 => Command::Sense,
            0x09 => Command::Print(Motion::SpaceOne),
            0x0B => Command::Move(Motion::SpaceOne),
            0x11 => Command::Print(Motion::SpaceTwo),
            0x13 => Command::Move(Motion::SpaceTwo),
            0x19 => Command::Print(Motion::SpaceThree),
            0x1B => Command::Move(Motion::SpaceThree),
            0x89 => Command::Print(Motion::SkipToChannelOne),
            0x8B => Command::Move(Motion::SkipToChannelOne),
            _ => return None,
        };
        Some(command)
    }

    /// The direction of a command's data.
    pub fn flow(command: Option<Self>) -> Flow
        ensures { result ≡ flow_of command }
    {
        match command {
            None | Some(Command::NoOperation | Command::Move(_)) => Flow::None,
            Some(Command::Sense) => Flow::Input,
            Some(Command::Print(_)) => Flow::Out,
        }
    }
}
