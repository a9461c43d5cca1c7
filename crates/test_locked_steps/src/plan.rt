//! The set-up of a scenario: what the lines before its first event declare.

ghost use Rattle.std.specs.Prelude.{◌≡◌, ◌≤◌, All, IfOk, OnOk, vec_len};
ghost use Rattle.job_mount.specs.Books.{IsFresh};

use crate::line::ScenarioLine;
use crate::room_line::RoomLine;
use crate::rooms::Rooms;
use any_device::AnyDevice;
use job_mount::{mounted_book, open_dcbs};
use job_script::{FaultName, JobError, LineError, ScriptLine, SetUp, UnitSetup};
use std::alloc::Global;
use unit_book::UnitBook;

/// The units, tasks and areas of a scenario, and the sizes of its rows and books.
#[derive(Drop)]
pub struct Plan {
    pub set_up: SetUp,
    pub rooms: Rooms,
}

impl Plan {
    /// Declares nothing yet.
    pub fn new(alloc: Global) -> Self {
        Plan {
            set_up: SetUp::new(alloc),
            rooms: Rooms::new(),
        }
    }

    /// Adds what a line declares. Returns the line if it is an event.
    pub fn add(
        &mut self,
        alloc: Global,
        line: ScenarioLine,
    ) -> Result<Option<ScenarioLine>, LineError> {
        match line {
            ScenarioLine::Script(ScriptLine::SetUp(line)) => {
                self.set_up.add(alloc, line)?;
                Ok(None)
            }
            ScenarioLine::Room(room) => {
                if let RoomLine::Book(unit, _) = room {
                    self.set_up.names_unit(unit)?;
                }
                if self.rooms.has(room) {
                    return Err(LineError::Fault(FaultName::Order));
                }
                self.rooms.set(room);
                Ok(None)
            }
            ScenarioLine::Expect => Err(LineError::Fault(FaultName::Order)),
            line => Ok(Some(line)),
        }
    }

    /// Checks that the tasks and a unit are declared.
    pub fn whole(&self) -> Result<(), JobError>
        ensures tasks { OnOk result (1 ≤ self.now.set_up.tasks) }
        ensures units { OnOk result (1 ≤ vec_len self.now.set_up.units) }
    {
        if self.set_up.tasks == 0 || self.set_up.units.is_empty() {
            return Err(JobError::Line {
                line: 0,
                name: FaultName::Order,
            });
        }
        Ok(())
    }

    /// The books of the units, mounted, with their DCBs open.
    ///
    /// Errors: a unit cannot be mounted or a DCB cannot be opened; out of memory.
    pub fn books(&self, alloc: Global) -> Result<Vec<UnitBook<AnyDevice>>, JobError>
        ensures count { IfOk result (λ books. vec_len books ≡ vec_len self.now.set_up.units) }
        ensures fresh { IfOk result (λ books. All IsFresh books.items) }
    {
        let mut books = Vec::new(alloc);
        for (number, unit) in self.set_up.units.iter().enumerate() {
            let book = opened_book(alloc, unit, self.rooms.book(number))?;
            books.push(book)?;
        }
        Ok(books)
    }
}

/// The book of a unit, mounted. Its DCBs are open. It holds up to `capacity` requests at a time (1 to 65,536).
fn opened_book(
    alloc: Global,
    unit: &UnitSetup,
    capacity: usize,
) -> Result<UnitBook<AnyDevice>, JobError>
    requires some { 1 ≤ capacity }
    requires few { capacity ≤ 65536 }
    ensures { IfOk result IsFresh }
{
    let mut book = mounted_book(alloc, unit, None, capacity)?;
    match open_dcbs(&mut book, &unit.openings)? {
        None => Ok(book),
        Some(line) => Err(JobError::Line {
            line,
            name: FaultName::Extent,
        }),
    }
}
