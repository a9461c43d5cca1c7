//! The events of a scenario.

ghost use Rattle.std.specs.Prelude.{◌≡◌, ◌≤◌, All, true, vec_len};
ghost use Rattle.job_mount.specs.Books.{IsFresh};
ghost use Rattle.excp_system.specs.Opening.{AreFresh, site_of};

use crate::answer::write_end;
use crate::dialog::Dialog;
use crate::line_steps::LineSteps;
use crate::locked::Locked;
use crate::plan::Plan;
use crate::task_records::TaskRecords;
use crate::view::{View, Views};
use any_device::AnyDevice;
use book_states::Step;
use excp_system::{Opened, Rows, System};
use job_script::{JobError, LIMIT, SetUp};
use std::alloc::{AllocError, Global};
use std::io::{Read, Write};
use std::marker::Brand;
use std::sync::Wait;
use unit_book::UnitBook;

/// Makes the rows of a plan, and carries the events out.
pub fn with_rows<R: Wait, I: Read + Drop, W: Write, E: Write>(
    rt: &R,
    alloc: Global,
    plan: &Plan,
    views: Views,
    dialog: &mut Dialog<'_, I, W, E>,
) -> Result<(), JobError>
    requires units { 1 ≤ vec_len plan.now.set_up.units }
    requires tasks { 1 ≤ plan.now.set_up.tasks }
{
    let units = plan.set_up.units.len() as u16;
    let (intake, post) = (plan.rooms.intake(), plan.rooms.post());
    let mut rows = Rows::new(alloc, plan.set_up.tasks, units, intake, post)?;
    let books = plan.books(alloc)?;
    let view = View::new(alloc, views, &books)?;
    let past = TaskRecords::new(alloc, usize::from(plan.set_up.tasks), books.len())?;
    on_site::<Brand, R, I, W, E>(
        rt,
        alloc,
        &mut rows,
        books,
        &plan.set_up,
        view,
        past,
        dialog,
    )
}

/// Carries the events out on the units and rows of a site.
fn on_site<S: Opened<AnyDevice>, R: Wait, I: Read + Drop, W: Write, E: Write>(
    rt: &R,
    alloc: Global,
    rows: &mut Rows,
    books: Vec<UnitBook<AnyDevice>>,
    set_up: &SetUp,
    view: View,
    past: TaskRecords,
    dialog: &mut Dialog<'_, I, W, E>,
) -> Result<(), JobError>
    requires site { S.rows ≡ site_of rows.old }
    requires fresh { AreFresh rows.old }
    requires books { All IsFresh books.items }
    requires opened { S.opened ≡ books.items }
    requires count { vec_len books ≡ S.rows.units }
    requires own { S.own_calls ≡ true }
{
    let units = books.len();
    let (system, tasks, _) = System::<S, AnyDevice>::new(alloc, rows, books)?;
    let locked = Locked {
        rt,
        units,
        system,
        tasks,
    };
    all_events(alloc, locked, set_up, view, past, dialog)
}

/// Carries out all events, and prints their answers.
fn all_events<S: Opened<AnyDevice>, R: Wait, I: Read + Drop, W: Write, E: Write>(
    alloc: Global,
    mut locked: Locked<'_, '_, S, R>,
    set_up: &SetUp,
    mut view: View,
    mut past: TaskRecords,
    dialog: &mut Dialog<'_, I, W, E>,
) -> Result<(), JobError> {
    for _ in 0..=LIMIT {
        let Some(mut steps) = dialog.next(set_up)? else {
            return Ok(());
        };
        if steps.step() == Some(Step::Finish) {
            end(alloc, locked, &mut view, &mut past, dialog)?;
            break;
        }
        let text = &mut dialog.answer;
        make_all(alloc, &mut locked, &mut steps, &mut past, text)?;
        look(&locked, &mut view)?;
        dialog.print(&view.text)?;
    }
    // the lines after `finish` expect its answer
    dialog.next(set_up)?;
    Ok(())
}

/// Makes the steps of a line.
fn make_all<S: Opened<AnyDevice>, R: Wait>(
    alloc: Global,
    locked: &mut Locked<'_, '_, S, R>,
    steps: &mut LineSteps,
    past: &mut TaskRecords,
    text: &mut Vec<u8>,
) -> Result<(), AllocError> {
    for _ in 0..u64::MAX {
        let Some(step) = steps.step() else {
            break;
        };
        let supply = steps.supply();
        let answer = locked.make(alloc, step, supply)?;
        past.note(supply.excp, &answer)?;
        steps.answered(text, &answer, past)?;
    }
    Ok(())
}

/// Puts together what is printed of all units.
fn look<S: Opened<AnyDevice>, R: Wait>(
    locked: &Locked<'_, '_, S, R>,
    view: &mut View,
) -> Result<(), AllocError> {
    view.text.clear();
    for unit in 0..locked.units.min(64) {
        locked.look(unit as u16, view)?;
    }
    Ok(())
}

/// Ends every request, and prints the answer of that.
fn end<S: Opened<AnyDevice>, R: Wait, I: Read + Drop, W: Write, E: Write>(
    alloc: Global,
    locked: Locked<'_, '_, S, R>,
    view: &mut View,
    past: &mut TaskRecords,
    dialog: &mut Dialog<'_, I, W, E>,
) -> Result<(), JobError> {
    let (books, posts) = locked.finish(alloc)?;
    past.leave(&posts);
    write_end(&mut dialog.answer, &posts, past)?;
    view.text.clear();
    for (unit, book) in (0..=u16::MAX).zip(&books) {
        view.add(unit, book)?;
    }
    dialog.print(&view.text)
}
