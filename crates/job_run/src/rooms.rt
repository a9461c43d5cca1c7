//! The rows and the books that a script is run on.

ghost use Rattle.std.specs.Prelude.{◌≡◌, ◌≤◌, All, IfOk, OnOk, vec_len};
ghost use Rattle.job_mount.specs.Requests.{CanBeDone};
ghost use Rattle.job_mount.specs.Mounting.{books_with};
ghost use Rattle.job_mount.specs.Outcomes.{all_without_spare};
ghost use Rattle.job_script.specs.Outcomes.{Gives};
ghost use Rattle.job_script.specs.Views.{said};
ghost use Rattle.job_run.specs.Rooms.{AreBooksOf, AreRowsOf, room_for, room_of_a_unit};

use crate::job::MOST_UNDER_WAY;
use any_device::AnyDevice;
use excp_system::Rows;
use job_mount::books;
use job_script::{JobError, Script};
use std::alloc::Global;
use unit_book::UnitBook;

/// The capacity of a row or a book for this many requests, of which `under_way` may be in progress.
fn room_for(under_way: usize, requests: usize) -> usize
    ensures { result ≡ room_for under_way requests }
{
    requests.max(1).min(under_way)
}

/// The rows and the books that a script is run on, each large enough for all its requests that may be under way. Units
/// are given these devices, by their numbers.
pub(crate) fn rows_and_books(
    alloc: Global,
    script: &Script,
    given: Vec<Option<AnyDevice>>,
) -> Result<(Rows, Vec<UnitBook<AnyDevice>>), JobError>
    requires tasks { (1 ≤ script.now.set_up.tasks) × (script.now.set_up.tasks ≤ 64) }
    requires units { (1 ≤ vec_len script.now.set_up.units) × (vec_len script.now.set_up.units ≤ 64) }
    ensures exact { Gives (λ made. all_without_spare made.1) result (books_with given.items (room_of_a_unit script.now) (said script.now)) }
    ensures rows { IfOk result (λ made. AreRowsOf script.now made.0) }
    ensures books { IfOk result (λ made. AreBooksOf script.now made.1.items) }
    ensures requests { OnOk result (All CanBeDone script.now.commands.items) }
{
    let of_all_tasks = MOST_UNDER_WAY * usize::from(script.set_up.tasks);
    let to_a_unit = room_for(of_all_tasks, script.most_to_a_unit());
    let of_a_task = room_for(MOST_UNDER_WAY, script.most_of_a_task());
    let books = books(alloc, script, given, to_a_unit)?;
    let units = script.set_up.units.len() as u16;
    let rows = Rows::new(alloc, script.set_up.tasks, units, to_a_unit, of_a_task)?;
    Ok((rows, books))
}
