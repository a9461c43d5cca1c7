//! The books of the units of a script: the units are mounted, then their DCBs opened, then the requests tried.

ghost use Rattle.std.specs.Prelude.{◌≡◌, ◌≤◌, All, IfOk, OnOk, length, map, vec_len};
ghost use Rattle.std.specs.Vec.Iter.{into_iter_items};
ghost use Rattle.job_mount.specs.Books.{HasRoom, IsFresh};
ghost use Rattle.job_mount.specs.Mounting.{books_with, first_given, given_after, tried, units_with};
ghost use Rattle.job_mount.specs.Openings.{earlier};
ghost use Rattle.job_mount.specs.Outcomes.{FindsDevice, MountsBook, Opens, Tries, all_without_spare};
ghost use Rattle.job_mount.specs.Requests.{CanBeDone};
ghost use Rattle.job_script.specs.Outcomes.{Gives};
ghost use Rattle.job_script.specs.Views.{command_said, opening_said, said, unit_said};

use crate::device::mounted;
use crate::requests::can_be_done;
use any_device::AnyDevice;
use device_port::MountError;
use job_script::{FaultName, JobError, Opening, Script, ScriptCommand, UnitSetup};
use std::alloc::{AllocError, Global};
use std::vec::IntoIter;
use unit_book::{OpenError, UnitBook};

/// The books of a script's units, in the order of their numbers, with the DCBs of the script open. Each is for up to
/// `capacity` requests at a time (1 to 65,536). `given` has the device that each unit is given, by its number, as one
/// from an image. A unit without one is mounted as its lines say.
///
/// Errors: the first fault of a medium, in the order of units; else of extents, in the order of lines; else of a
/// request, in the order of lines; out of memory.
#[tactic(auto, unfolding(crate::specs::Mounting::books_with))]
pub fn books(
    alloc: Global,
    script: &Script,
    given: Vec<Option<AnyDevice>>,
    capacity: usize,
) -> Result<Vec<UnitBook<AnyDevice>>, JobError>
    requires some { 1 ≤ capacity }
    requires few { capacity ≤ 65536 }
    ensures exact { Gives all_without_spare result (books_with given.items capacity (said script.now)) }
    ensures count { IfOk result (λ books. vec_len books ≡ vec_len script.now.set_up.units) }
    ensures fresh { IfOk result (λ books. All IsFresh books.items) }
    ensures room { IfOk result (λ books. All (HasRoom capacity) books.items) }
    ensures requests { OnOk result (All CanBeDone script.now.commands.items) }
{
    let books = opened_books(alloc, &script.set_up.units, given, capacity)?;
    try_requests(&script.commands)?;
    Ok(books)
}

/// The books of all units, mounted, with their DCBs open.
fn opened_books(
    alloc: Global,
    units: &[UnitSetup],
    given: Vec<Option<AnyDevice>>,
    capacity: usize,
) -> Result<Vec<UnitBook<AnyDevice>>, JobError>
    requires some { 1 ≤ capacity }
    requires few { capacity ≤ 65536 }
    ensures exact { Gives all_without_spare result (units_with capacity given.items (map unit_said units.now)) }
    ensures count { IfOk result (λ books. vec_len books ≡ length units.now) }
    ensures fresh { IfOk result (λ books. All IsFresh books.items) }
    ensures room { IfOk result (λ books. All (HasRoom capacity) books.items) }
{
    let mut given = given.into_iter();
    let mut books = Vec::new(alloc);
    let mut first = None;
    for unit in units {
        let device = next_given(&mut given);
        let mut book = mounted_book(alloc, unit, device, capacity)?;
        match open_dcbs(&mut book, &unit.openings)? {
            None => books.push(book)?,
            Some(line) => first = Some(earlier(first, line)),
        }
    }
    match first {
        None => Ok(books),
        Some(line) => Err(JobError::Line {
            line,
            name: FaultName::Extent,
        }),
    }
}

/// The device that is given for the next unit, if one is.
fn next_given(given: &mut IntoIter<Option<AnyDevice>>) -> Option<AnyDevice>
    ensures device { result ≡ first_given (into_iter_items given.old) }
    ensures rest { into_iter_items given.new ≡ given_after (into_iter_items given.old) }
{
    match given.next() {
        Some(device) => device,
        None => None,
    }
}

/// The book of a unit without a DCB, for up to `capacity` requests at a time (1 to 65,536). It is on the given device,
/// or else on the one that its lines say.
///
/// Errors: the fault `Medium` of the unit; out of memory.
pub fn mounted_book(
    alloc: Global,
    unit: &UnitSetup,
    given: Option<AnyDevice>,
    capacity: usize,
) -> Result<UnitBook<AnyDevice>, JobError>
    requires some { 1 ≤ capacity }
    requires few { capacity ≤ 65536 }
    ensures exact { MountsBook capacity given (unit_said unit.now) result }
    ensures fresh { IfOk result IsFresh }
    ensures room { IfOk result (HasRoom capacity) }
{
    match device(alloc, unit, given) {
        Ok(device) => Ok(UnitBook::new(alloc, device, unit.isc, capacity)?),
        Err(fault) => Err(fault),
    }
}

/// The device of a unit: the one that is given, or else the one that its lines say.
fn device(alloc: Global, unit: &UnitSetup, given: Option<AnyDevice>) -> Result<AnyDevice, JobError>
    ensures { FindsDevice given (unit_said unit.now) result }
{
    if let Some(device) = given {
        return Ok(device);
    }
    match mounted(alloc, unit) {
        Ok(device) => Ok(device),
        Err(MountError::NoMemory) => Err(JobError::NoMemory),
        Err(_) => Err(JobError::Line {
            line: unit.line,
            name: FaultName::Medium,
        }),
    }
}

/// Opens the DCBs of a unit, in the order of their lines. Returns the line of the first that cannot be opened.
pub fn open_dcbs(
    book: &mut UnitBook<AnyDevice>,
    openings: &[Opening],
) -> Result<Option<usize>, AllocError>
    requires { IsFresh book.old }
    ensures exact { Opens book.old (map opening_said openings.now) result book.new }
    ensures fresh { IsFresh book.new }
    ensures room { book.new.capacity ≡ book.old.capacity }
{
    for opening in openings {
        match book.open(opening.method, &opening.extents) {
            Ok(_) => {}
            Err(OpenError::NoMemory) => return Err(AllocError),
            Err(_) => return Ok(Some(opening.line)),
        }
    }
    Ok(None)
}

/// The first of a line that was found, if one was, and another.
fn earlier(found: Option<usize>, line: usize) -> usize
    ensures { result ≡ earlier found line }
{
    match found {
        None => line,
        Some(found) => found.min(line),
    }
}

/// Tries each request in the order of their lines.
fn try_requests(commands: &[ScriptCommand]) -> Result<(), JobError>
    ensures exact { Tries result (tried (map command_said commands.now)) }
    ensures each { OnOk result (All CanBeDone commands.now) }
{
    for command in commands {
        if !can_be_done(command) {
            return Err(JobError::Line {
                line: command.line,
                name: FaultName::Request,
            });
        }
    }
    Ok(())
}
