//! What wakes the tasks of a run.

ghost use Rattle.excp_system.specs.Drained.{ArePlaced};

use crate::refusals::Refusals;
use crate::runner::Runner;
use crossbeam_utils::sync::Unparker;
use excp_system::{Gate, Point, Site};
use request_piece::Name;
use std::alloc::{AllocError, Global};
use std::sync::atomic::{AtomicBool, AtomicI64, Ordering};

/// A task that may sleep: what wakes it, and how many posts it still sleeps for.
#[derive(Drop)]
struct Sleeper {
    unparker: Unparker,
    wanted: AtomicI64,
}

/// Wakes a sleeping task when it has the posts that it sleeps for, or when its post row is full. Wakes all tasks when a
/// call of a worker runs out of memory in [`LASTING_TURNS`](crate::LASTING_TURNS) turns in a row. It is a gate that holds
/// nobody up.
#[derive(Drop)]
pub struct Alarm {
    tasks: Vec<Sleeper>,
    refusals: Refusals,
    raised: AtomicBool,
}

impl Alarm {
    /// Wakes the clients of these runners, which are those of all tasks, in order of number. No worker ran out of
    /// memory.
    pub fn of<'r, S: Site, O: Drop>(
        alloc: Global,
        runners: &[Runner<'r, S, O>],
    ) -> Result<Alarm, AllocError>
        requires { ArePlaced (λ runner. runner.client.number) S.rows.tasks runners.now }
    {
        let mut tasks = Vec::with_capacity(alloc, runners.len())?;
        for runner in runners {
            tasks.push(Sleeper {
                unparker: runner.client.unparker()?,
                wanted: AtomicI64::new(0),
            })?;
        }
        Ok(Alarm {
            tasks,
            refusals: Refusals::none(alloc)?,
            raised: AtomicBool::new(false),
        })
    }

    /// Wakes this task, which goes to sleep, once `posts` more were sent back to it. The task has to look once more for
    /// a post before it sleeps: one that was sent back before this call does not count.
    pub(crate) fn want(&self, task: u16, posts: u16) {
        if let Some(sleeper) = self.tasks.get(usize::from(task)) {
            sleeper.wanted.store(i64::from(posts), Ordering::SeqCst);
        }
    }

    /// Wakes this task.
    fn wake(&self, task: u16) {
        if let Some(sleeper) = self.tasks.get(usize::from(task)) {
            sleeper.unparker.unpark();
        }
    }

    /// Whether a worker ran out of memory for good.
    pub(crate) fn raised(&self) -> bool {
        self.raised.load(Ordering::SeqCst)
    }
}

impl Gate for Alarm {
    fn pass(&self, unit: u16, point: Point) {
        self.refusals.begin(unit, point);
    }

    fn lack_memory(&self, unit: u16, point: Point) {
        if self.refusals.refuse(unit, point) {
            self.raised.store(true, Ordering::SeqCst);
            for sleeper in &self.tasks {
                sleeper.unparker.unpark();
            }
        }
    }

    fn delivered(&self, request: Name) {
        if let Some(sleeper) = self.tasks.get(usize::from(request.task))
            && sleeper.wanted.fetch_sub(1, Ordering::SeqCst) == 1
        {
            sleeper.unparker.unpark();
        }
    }

    fn row_is_full(&self, request: Name) {
        self.wake(request.task);
    }
}
