//! A line of a script as its words say, before it is compared with what other lines say: the faults of its words and
//! of their forms.

pub mod areas;
pub mod commands;
pub mod front;
pub mod units;
mod verb;

ghost use Rattle.std.specs.Prelude.{◌≡◌, ◌≤◌, ◌<◌};
ghost use Rattle.std.specs.Arc.{arc_value};

use crate::command::{DcbName, Excp, ScriptCommand};
use crate::fault::FaultName;
use crate::forms::is_comment;
use crate::refusal::LineError;
use crate::set_up::{InitialMedium, Opening};
use areas::{area, opening, tasks};
use ckd_disk::InitialRecord;
use commands::{close, excp, purge, purge_task, reset, wait};
use device_port::Fault as DeviceFault;
use io_area::Area;
use script_words::LineWords;
use std::alloc::Global;
use std::sync::Arc;
use tape_unit::InitialItem;
use units::{block, disk, fault, mark, printer, record, tape};
pub(crate) use verb::{SetUpVerb, Verb};

/// A line that declares something; the number in front is that of the unit.
#[derive(Drop)]
pub enum SetUpLine {
    Tasks(TasksLine),
    Unit(UnitLine),
    Record(u16, InitialRecord),
    Item(u16, InitialItem),
    Fault(u16, DeviceFault),
    Opening(u16, Opening),
    Area(AreaLine),
}

/// A line that declares the number of tasks, 1 to 64.
#[derive(Drop)]
pub struct TasksLine {
    pub tasks: u16,
    ghost some: { 1 ≤ tasks },
    ghost few: { tasks ≤ 64 },
}

/// A line that declares a unit: its number (0 to 63), the number of the line, its interruption subclass (0 to 7), and
/// its medium, with nothing on it.
#[derive(Drop)]
pub struct UnitLine {
    pub number: u16,
    pub line: usize,
    pub isc: u8,
    pub medium: InitialMedium,
    ghost few: { number < 64 },
    ghost subclass: { isc ≤ 7 },
}

/// A line that declares an area: its number, the address of its first byte, and its bytes.
#[derive(Drop)]
pub struct AreaLine {
    pub number: u64,
    pub base: u32,
    pub bytes: Vec<u8>,
}

/// An EXCP, which names its area by number.
#[derive(Clone, Copy)]
pub struct ExcpLine {
    pub line: usize,
    pub task: u16,
    pub dcb: DcbName,
    pub iob: u32,
    pub area: u64,
    pub show: u32,
    pub len: u64,
}

impl ExcpLine {
    ghost use Rattle.job_script.specs.Adding.{excp_on};
    ghost use Rattle.job_script.specs.Views.{excp_said};

    /// The EXCP on a copy of this area.
    pub fn over(self, area: Arc<Area, Global>) -> Excp
        ensures { excp_said result ≡ excp_on self (arc_value area) }
    {
        Excp {
            dcb: self.dcb,
            iob: self.iob,
            area,
            show: self.show,
            len: self.len,
        }
    }
}

/// What a line says.
#[derive(Drop)]
pub enum ScriptLine {
    /// It is empty, or its first word begins with `#`.
    Nothing,
    SetUp(SetUpLine),
    Excp(ExcpLine),
    /// A command that is no EXCP.
    Command(ScriptCommand),
}

impl ScriptLine {
    ghost use Rattle.job_script.specs.Lines.{by_verb, line_of};
    ghost use Rattle.job_script.specs.LineViews.{line_said};
    ghost use Rattle.job_script.specs.Outcomes.{Returns, words_in};

    /// Reads the line with this number.
    pub fn read(alloc: Global, number: usize, line: &LineWords<'_>) -> Result<ScriptLine, LineError>
        ensures { Returns line_said result (line_of number line.now.line.now) }
    {
        match Verb::of_line(line)? {
            None => Ok(ScriptLine::Nothing),
            Some(verb) => ScriptLine::by_verb(alloc, number, verb, line),
        }
    }

    /// Reads a line of this kind.
    #[tactic(auto, unfolding(crate::specs::Lines::by_verb))]
    fn by_verb(
        alloc: Global,
        number: usize,
        verb: Verb,
        line: &LineWords<'_>,
    ) -> Result<ScriptLine, LineError>
        ensures { Returns line_said result (by_verb verb number (words_in line.now)) }
    {
        match verb {
            Verb::SetUp(verb) => {
                let read = SetUpLine::read(alloc, number, verb, line)?;
                Ok(ScriptLine::SetUp(read))
            }
            Verb::Excp => Ok(ScriptLine::Excp(excp(number, line)?)),
            Verb::Purge => Ok(ScriptLine::Command(purge(number, line)?)),
            Verb::PurgeTask => Ok(ScriptLine::Command(purge_task(number, line)?)),
            Verb::Close => Ok(ScriptLine::Command(close(number, line)?)),
            Verb::Reset => Ok(ScriptLine::Command(reset(number, line)?)),
            Verb::Wait => Ok(ScriptLine::Command(wait(number, line)?)),
        }
    }
}

impl SetUpLine {
    ghost use Rattle.job_script.specs.Lines.{set_up_line};
    ghost use Rattle.job_script.specs.LineViews.{set_up_line_said};
    ghost use Rattle.job_script.specs.Outcomes.{Returns, words_in};

    /// Reads a set-up line of this kind.
    #[tactic(auto, unfolding(crate::specs::Lines::set_up_line))]
    fn read(
        alloc: Global,
        number: usize,
        verb: SetUpVerb,
        line: &LineWords<'_>,
    ) -> Result<SetUpLine, LineError>
        ensures { Returns set_up_line_said result (set_up_line verb number (words_in line.now)) }
    {
        match verb {
            SetUpVerb::Tasks => tasks(line),
            SetUpVerb::Disk => disk(alloc, number, line),
            SetUpVerb::Tape => tape(alloc, number, line),
            SetUpVerb::Printer => printer(number, line),
            SetUpVerb::Record => record(alloc, line),
            SetUpVerb::Block => block(alloc, line),
            SetUpVerb::Mark => mark(line),
            SetUpVerb::Fault => fault(line),
            SetUpVerb::Open => opening(alloc, number, line),
            SetUpVerb::Area => area(alloc, line),
        }
    }
}

impl Verb {
    ghost use Rattle.job_script.specs.Lines.{line_kind};
    ghost use Rattle.script_words.specs.Text.{is_printable};
    ghost use Rattle.job_script.specs.Outcomes.{Reads, words_in};

    /// What kind of line it is, or none if it says nothing.
    #[inline(always)]
    #[tactic(auto, unfolding(crate::specs::Lines::line_kind))]
    pub fn of_line(line: &LineWords<'_>) -> Result<Option<Verb>, FaultName>
        ensures { Reads result (line_kind (is_printable line.now.line.now) (words_in line.now)) }
    {
        if line.count() == 0 {
            return Ok(None);
        }
        let first = line.word(0);
        if is_comment(first) {
            return Ok(None);
        }
        if !line.is_printable() {
            return Err(FaultName::Words);
        }
        match Verb::of(first) {
            Some(verb) => Ok(Some(verb)),
            None => Err(FaultName::Words),
        }
    }
}
