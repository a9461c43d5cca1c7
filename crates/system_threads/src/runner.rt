//! The tasks of a system before a run and after it.

ghost use Rattle.std.specs.Prelude.{◌≡◌, ◌≤◌, [], All, IfOk, Some, is_some, length, map, true, vec_capacity};
ghost use Rattle.excp_system.specs.Drained.{ArePlaced};
ghost use Rattle.excp_system.specs.Opening.{AreTasks};

use crate::client::Client;
use excp_system::{Site, Task};
use std::alloc::{AllocError, Global};

/// The client of a task, and the outcome of the task when it has ended.
#[derive(Drop)]
pub struct Runner<'r, S: Site, O> {
    pub client: Client<'r, S>,
    pub outcome: Option<O>,
}

/// No thread can be made for a worker. The runners, whose tasks did not run.
#[derive(Drop)]
pub struct NoThread<'r, S: Site, O> {
    pub runners: Vec<Runner<'r, S, O>>,
}

/// The clients of the tasks of a system, which have not run yet.
pub fn runners<'r, S: Site, O: Drop>(
    alloc: Global,
    tasks: Vec<Task<'r, S>>,
) -> Result<Vec<Runner<'r, S, O>>, AllocError>
    requires { AreTasks S.rows.tasks S.rows.units tasks.items }
    ensures clients { IfOk result (λ runners. map (λ runner. runner.client) runners.items ≡ tasks.entry.items) }
    ensures placed { IfOk result (λ runners. ArePlaced (λ runner. runner.client.number) S.rows.tasks runners.items) }
{
    let mut runners = Vec::with_capacity(alloc, tasks.len())?;
    for task in tasks {
        let client = Client::new(alloc, task)?;
        runners.push(Runner {
            client,
            outcome: None,
        })?;
    }
    Ok(runners)
}

/// Room for what the runners of a run are taken apart into. It is made before the run, so that the run does not lose its
/// tasks if memory runs out.
#[derive(Drop)]
pub struct PartsRoom<'r, S: Site, O> {
    tasks: Vec<Task<'r, S>>,
    outcomes: Vec<O>,
    ghost no_tasks: { (tasks.items ≡ []) × (S.rows.tasks ≤ vec_capacity tasks) },
    ghost no_outcomes: { (outcomes.items ≡ []) × (S.rows.tasks ≤ vec_capacity outcomes) },
}

impl<'r, S: Site, O: Drop> PartsRoom<'r, S, O> {
    /// Room for all tasks of a site.
    pub fn new(alloc: Global, tasks: usize) -> Result<PartsRoom<'r, S, O>, AllocError>
        requires { tasks ≡ S.rows.tasks }
    {
        Ok(PartsRoom {
            tasks: Vec::with_capacity(alloc, tasks)?,
            outcomes: Vec::with_capacity(alloc, tasks)?,
        })
    }
}

/// The tasks and the outcomes of runners whose programs have ended, both in the order of the runners. Never allocates.
pub fn parted<'r, S: Site, O: Drop>(
    runners: Vec<Runner<'r, S, O>>,
    room: PartsRoom<'r, S, O>,
) -> (Vec<Task<'r, S>>, Vec<O>)
    requires placed { ArePlaced (λ runner. runner.client.number) S.rows.tasks runners.items }
    requires ran { All (λ runner. is_some runner.outcome ≡ true) runners.items }
    ensures tasks { result.0.items ≡ map (λ runner. runner.client) runners.entry.items }
    ensures outcomes { map Some result.1.items ≡ map (λ runner. runner.outcome) runners.entry.items }
    ensures placed { ArePlaced (λ task. task.number) S.rows.tasks result.0.items }
    ensures count { length result.1.items ≡ S.rows.tasks }
{
    let PartsRoom {
        mut tasks,
        mut outcomes,
    } = room;
    for runner in runners {
        let Runner { client, outcome } = runner;
        let Some(outcome) = outcome else {
            unreachable!()
        };
        tasks.push_reserved(client.into_task());
        outcomes.push_reserved(outcome);
    }
    (tasks, outcomes)
}
