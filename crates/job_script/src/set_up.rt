//! What the set-up lines of a script declare: its tasks, units, DCBs and areas. The faults of such lines: of their
//! order, of names, of kinds and of areas.

ghost use Rattle.std.specs.Prelude.{◌≡◌, ◌≤◌, ◌<◌, IfErr, OnErr, OnOk, vec_len};
ghost use Rattle.std.specs.Arc.{arc_value};
ghost use Rattle.job_script.specs.Commands.{NamesUnits};
ghost use Rattle.job_script.specs.Outcomes.{MakesArea};
ghost use Rattle.job_script.specs.declared.fault.FaultName.TheVariants as names;

use crate::command::{Action, DcbName, Excp, ScriptCommand};
use crate::fault::FaultName;
use crate::line::{AreaLine, ExcpLine, SetUpLine, TasksLine, UnitLine};
use crate::refusal::LineError;
use ckd_disk::{Geometry, InitialRecord};
use device_port::Fault as DeviceFault;
use io_area::{Area, AreaError};
use io_images::Extent;
use std::alloc::Global;
use std::sync::Arc;
use tape_unit::InitialItem;
use unit_book::ProcessingMethod;

/// The medium of a unit, with its content at the start of a run.
#[derive(Drop)]
pub enum InitialMedium {
    Disk(Geometry, Vec<InitialRecord>),
    /// The bytes of a tape, and its items.
    Tape(u64, Vec<InitialItem>),
    Printer { lines: u64, pages: u64 },
}

/// A DCB that a script opens.
#[derive(Drop)]
pub struct Opening {
    pub line: usize,
    pub method: ProcessingMethod,
    pub extents: Vec<Extent>,
}

/// A unit that a script declares: its line, interruption subclass (0 to 7), medium, faults, and its DCBs in the order
/// of their numbers, 1, 2, and so on.
#[derive(Drop)]
pub struct UnitSetup {
    pub line: usize,
    pub isc: u8,
    pub medium: InitialMedium,
    pub faults: Vec<DeviceFault>,
    pub openings: Vec<Opening>,
    ghost subclass: { isc ≤ 7 },
}

/// What the set-up lines of a script declare.
#[derive(Drop)]
pub struct SetUp {
    /// How many tasks there are: 0 if no line declares them.
    pub tasks: u16,
    /// The units, in the order of their numbers.
    pub units: Vec<UnitSetup>,
    /// The areas, in the order of their numbers.
    pub areas: Vec<Arc<Area, Global>>,
    ghost few_tasks: { tasks ≤ 64 },
    ghost few_units: { vec_len units ≤ 64 },
}

impl SetUp {
    ghost use Rattle.job_script.specs.Adding.{add_area, add_set_up, add_tasks, add_unit, excp_command, excp_over, names_command, is_dcb, is_task};
    ghost use Rattle.job_script.specs.Adding.{add_fault, add_item, add_opening, add_record, change_unit, numbered};
    ghost use Rattle.job_script.specs.LineViews.{set_up_line_said, unit_line_said};
    ghost use Rattle.job_script.specs.Outcomes.{Leads, Reads, Returns};
    ghost use Rattle.job_script.specs.Said.{nothing};
    ghost use Rattle.job_script.specs.Views.{command_said, excp_said, opening_said, record_said, set_up_said, unit_said};
    ghost use Rattle.tape_unit.specs.Mount.{initial};

    /// Nothing is declared.
    pub fn new(alloc: Global) -> Self
        ensures { set_up_said result ≡ nothing.set_up }
    {
        SetUp {
            tasks: 0,
            units: Vec::new(alloc),
            areas: Vec::new(alloc),
        }
    }

    /// A unit has this number.
    pub fn names_unit(&self, number: u16) -> Result<(), FaultName>
        ensures below { OnOk result (number < vec_len self.now.units) }
        ensures past { OnErr result (vec_len self.now.units ≤ number) }
        ensures name { IfErr result (λ fault. fault ≡ names.Name) }
    {
        if usize::from(number) < self.units.len() {
            Ok(())
        } else {
            Err(FaultName::Name)
        }
    }

    /// A unit has this DCB.
    #[inline(always)]
    fn names_dcb(&self, dcb: DcbName) -> Result<(), FaultName>
        ensures read { Reads result (is_dcb dcb (set_up_said self.now)) }
        ensures unit { OnOk result (dcb.unit < vec_len self.now.units) }
    {
        let unit = usize::from(dcb.unit);
        if unit >= self.units.len() {
            return Err(FaultName::Name);
        }
        let declared = &self.units[unit];
        if usize::from(dcb.number) > declared.openings.len() {
            return Err(FaultName::Name);
        }
        Ok(())
    }

    /// A task has this number.
    #[inline(always)]
    pub fn names_task(&self, number: u16) -> Result<(), FaultName>
        ensures read { Reads result (is_task number (set_up_said self.now)) }
        ensures below { OnOk result (number < self.now.tasks) }
    {
        if number < self.tasks {
            Ok(())
        } else {
            Err(FaultName::Name)
        }
    }

    /// All that a command names is declared: its task, and a DCB or another task.
    #[inline(always)]
    #[tactic(auto, unfolding(crate::specs::Adding::names_command))]
    pub(crate) fn names(&self, command: &ScriptCommand) -> Result<(), FaultName>
        ensures read { Reads result (names_command (command_said command.now) (set_up_said self.now)) }
        ensures task { OnOk result (command.now.task < self.now.tasks) }
        ensures units { OnOk result (NamesUnits (vec_len self.now.units) command.now) }
    {
        self.names_task(command.task)?;
        match &command.action {
            Action::Excp(excp) => self.names_dcb(excp.dcb),
            Action::Purge(dcb, _) | Action::Close(dcb) | Action::Reset(dcb) => self.names_dcb(*dcb),
            Action::PurgeTask(task, _) => self.names_task(*task),
            Action::Wait => Ok(()),
        }
    }

    /// The area with this number.
    #[inline(always)]
    fn area(&self, number: u64) -> Result<Arc<Area, Global>, LineError>
        ensures { Returns arc_value result (numbered number (set_up_said self.now).areas) }
    {
        if number >= self.areas.len() as u64 {
            return Err(LineError::Fault(FaultName::Name));
        }
        let area = &self.areas[number as usize];
        Ok(Arc::try_clone(area)?)
    }

    /// The EXCP of a line, with its area.
    #[inline(always)]
    pub fn over_area(&self, line: ExcpLine) -> Result<Excp, LineError>
        ensures { Returns excp_said result (excp_over line (set_up_said self.now)) }
    {
        let area = self.area(line.area)?;
        Ok(line.over(area))
    }

    /// The command of an EXCP, with its area.
    #[inline(always)]
    #[tactic(auto, unfolding(crate::specs::Adding::excp_command))]
    pub(crate) fn excp(&self, line: ExcpLine) -> Result<ScriptCommand, LineError>
        ensures { Returns command_said result (excp_command line (set_up_said self.now)) }
    {
        Ok(ScriptCommand {
            line: line.line,
            task: line.task,
            action: Action::Excp(self.over_area(line)?),
        })
    }

    /// Adds what a line says, in the order of the faults that it may have.
    #[inline(always)]
    #[tactic(auto, unfolding(crate::specs::Adding::add_set_up))]
    pub fn add(&mut self, alloc: Global, line: SetUpLine) -> Result<(), LineError>
        ensures adds { Leads result (set_up_said self.new) (add_set_up (set_up_line_said line) (set_up_said self.old)) }
        ensures kept { OnErr result (set_up_said self.new ≡ set_up_said self.old) }
    {
        match line {
            SetUpLine::Tasks(line) => self.add_tasks(line),
            SetUpLine::Unit(line) => self.add_unit(alloc, line),
            SetUpLine::Record(unit, record) => self.add_record(usize::from(unit), record),
            SetUpLine::Item(unit, item) => self.add_item(usize::from(unit), item),
            SetUpLine::Fault(unit, fault) => self.add_fault(usize::from(unit), fault),
            SetUpLine::Opening(unit, opening) => self.add_opening(usize::from(unit), opening),
            SetUpLine::Area(area) => self.add_area(alloc, area),
        }
    }

    /// The tasks are declared once.
    #[inline(always)]
    #[tactic(auto, unfolding(crate::specs::Adding::add_tasks))]
    fn add_tasks(&mut self, line: TasksLine) -> Result<(), LineError>
        ensures adds { Leads result (set_up_said self.new) (add_tasks line.tasks (set_up_said self.old)) }
        ensures kept { OnErr result (set_up_said self.new ≡ set_up_said self.old) }
    {
        if self.tasks != 0 {
            return Err(LineError::Fault(FaultName::Order));
        }
        self.tasks = line.tasks;
        Ok(())
    }

    /// A unit has the next number.
    #[inline(always)]
    #[tactic(auto, unfolding(crate::specs::Adding::add_unit))]
    fn add_unit(&mut self, alloc: Global, line: UnitLine) -> Result<(), LineError>
        ensures adds { Leads result (set_up_said self.new) (add_unit line.number (unit_line_said line) (set_up_said self.old)) }
        ensures kept { OnErr result (set_up_said self.new ≡ set_up_said self.old) }
    {
        if usize::from(line.number) != self.units.len() {
            return Err(LineError::Fault(FaultName::Order));
        }
        self.units.push(UnitSetup::new(alloc, line))?;
        Ok(())
    }

    /// Adds a record to a disk.
    #[inline(always)]
    fn add_record(&mut self, place: usize, added: InitialRecord) -> Result<(), LineError>
        ensures adds { Leads result (set_up_said self.new) (change_unit place (add_record (record_said added)) (set_up_said self.old)) }
        ensures kept { OnErr result (set_up_said self.new ≡ set_up_said self.old) }
    {
        if place >= self.units.len() {
            return Err(LineError::Fault(FaultName::Name));
        }
        let unit = &mut self.units[place];
        unit.add_record(added)
    }

    /// Adds a block or a mark to a tape.
    #[inline(always)]
    fn add_item(&mut self, place: usize, item: InitialItem) -> Result<(), LineError>
        ensures adds { Leads result (set_up_said self.new) (change_unit place (add_item (initial item)) (set_up_said self.old)) }
        ensures kept { OnErr result (set_up_said self.new ≡ set_up_said self.old) }
    {
        if place >= self.units.len() {
            return Err(LineError::Fault(FaultName::Name));
        }
        let unit = &mut self.units[place];
        unit.add_item(item)
    }

    /// A unit meets a fault.
    #[inline(always)]
    fn add_fault(&mut self, place: usize, fault: DeviceFault) -> Result<(), LineError>
        ensures adds { Leads result (set_up_said self.new) (change_unit place (add_fault fault) (set_up_said self.old)) }
        ensures kept { OnErr result (set_up_said self.new ≡ set_up_said self.old) }
    {
        if place >= self.units.len() {
            return Err(LineError::Fault(FaultName::Name));
        }
        let unit = &mut self.units[place];
        unit.add_fault(fault)
    }

    /// A DCB has the next number of its unit.
    #[inline(always)]
    fn add_opening(&mut self, place: usize, opening: Opening) -> Result<(), LineError>
        ensures adds { Leads result (set_up_said self.new) (change_unit place (add_opening (opening_said opening)) (set_up_said self.old)) }
        ensures kept { OnErr result (set_up_said self.new ≡ set_up_said self.old) }
    {
        if place >= self.units.len() {
            return Err(LineError::Fault(FaultName::Name));
        }
        let unit = &mut self.units[place];
        unit.add_opening(opening)
    }

    /// An area has the next number.
    #[inline(always)]
    #[tactic(auto, unfolding(crate::specs::Adding::add_area))]
    fn add_area(&mut self, alloc: Global, added: AreaLine) -> Result<(), LineError>
        ensures adds { Leads result (set_up_said self.new) (add_area added.number (record { base = added.base; bytes = added.bytes.items }) (set_up_said self.old)) }
        ensures kept { OnErr result (set_up_said self.new ≡ set_up_said self.old) }
    {
        if added.number != self.areas.len() as u64 {
            return Err(LineError::Fault(FaultName::Order));
        }
        let area = new_area(alloc, added.base, &added.bytes)?;
        let area = Arc::new(alloc, area)?;
        self.areas.push(area)?;
        Ok(())
    }
}

impl UnitSetup {
    ghost use Rattle.job_script.specs.Adding.{add_fault, add_item, add_opening, add_record};
    ghost use Rattle.job_script.specs.LineViews.{unit_line_said};
    ghost use Rattle.job_script.specs.Outcomes.{Leads};
    ghost use Rattle.job_script.specs.Views.{opening_said, record_said, unit_said};
    ghost use Rattle.tape_unit.specs.Mount.{initial};

    /// The unit that a line declares. It is to meet no fault and has no DCB.
    fn new(alloc: Global, line: UnitLine) -> Self
        ensures { unit_said result ≡ unit_line_said line }
    {
        UnitSetup {
            line: line.line,
            isc: line.isc,
            medium: line.medium,
            faults: Vec::new(alloc),
            openings: Vec::new(alloc),
        }
    }

    /// Adds a record, if it is a disk.
    #[inline(always)]
    fn add_record(&mut self, added: InitialRecord) -> Result<(), LineError>
        ensures adds { Leads result (unit_said self.new) (add_record (record_said added) (unit_said self.old)) }
        ensures kept { OnErr result (unit_said self.new ≡ unit_said self.old) }
    {
        match &mut self.medium {
            InitialMedium::Disk(_, records) => {
                records.push(added)?;
                Ok(())
            }
            _ => Err(LineError::Fault(FaultName::Kind)),
        }
    }

    /// Adds an item, if it is a tape.
    #[inline(always)]
    fn add_item(&mut self, item: InitialItem) -> Result<(), LineError>
        ensures adds { Leads result (unit_said self.new) (add_item (initial item) (unit_said self.old)) }
        ensures kept { OnErr result (unit_said self.new ≡ unit_said self.old) }
    {
        match &mut self.medium {
            InitialMedium::Tape(_, items) => {
                items.push(item)?;
                Ok(())
            }
            _ => Err(LineError::Fault(FaultName::Kind)),
        }
    }

    /// It meets a fault.
    #[inline(always)]
    fn add_fault(&mut self, fault: DeviceFault) -> Result<(), LineError>
        ensures adds { Leads result (unit_said self.new) (add_fault fault (unit_said self.old)) }
        ensures kept { OnErr result (unit_said self.new ≡ unit_said self.old) }
    {
        self.faults.push(fault)?;
        Ok(())
    }

    /// It has one more DCB.
    #[inline(always)]
    fn add_opening(&mut self, opening: Opening) -> Result<(), LineError>
        ensures adds { Leads result (unit_said self.new) (add_opening (opening_said opening) (unit_said self.old)) }
        ensures kept { OnErr result (unit_said self.new ≡ unit_said self.old) }
    {
        self.openings.push(opening)?;
        Ok(())
    }
}

/// The area of these bytes from `base`.
fn new_area(alloc: Global, base: u32, bytes: &[u8]) -> Result<Area, LineError>
    ensures { MakesArea (record { base = base; bytes = bytes.now }) result }
{
    match Area::new(alloc, base, bytes) {
        Ok(area) => Ok(area),
        Err(AreaError::NoMemory) => Err(LineError::NoMemory),
        Err(_) => Err(LineError::Fault(FaultName::Area)),
    }
}
