//! What the requests of tasks show.

use crate::step_answer::{Issuing, StepAnswer};
use job_script::Excp;
use request_piece::{Name, Posted};
use run_record::TaskRecord;
use std::alloc::{AllocError, Global};

/// The requests and posts of tasks, by their numbers.
#[derive(Drop)]
pub struct TaskRecords {
    alloc: Global,
    tasks: Vec<TaskRecord>,
}

impl TaskRecords {
    /// Before the first step. `units` is how many units there are.
    pub fn new(alloc: Global, tasks: usize, units: usize) -> Result<Self, AllocError> {
        let mut records = Vec::with_capacity(alloc, tasks)?;
        for _ in 0..tasks {
            records.push(TaskRecord::new(alloc, units)?)?;
        }
        Ok(TaskRecords {
            alloc,
            tasks: records,
        })
    }

    /// Notes what a step did for a task. It issued this EXCP, whose post gets room. Or it collected a post.
    pub fn note(&mut self, excp: Option<&Excp>, answer: &StepAnswer) -> Result<(), AllocError> {
        match (answer, excp) {
            (StepAnswer::Pushed(Issuing::Accepted(name)), Some(excp)) => {
                if let Some(task) = self.tasks.get_mut(usize::from(name.task)) {
                    let (unit, len) = (excp.dcb.unit, excp.len as usize);
                    task.issue(self.alloc, unit, name.seq, excp.iob, excp.show, len)?;
                }
            }
            (StepAnswer::Collected(Some(posted)), _) => {
                if let Some(task) = self.tasks.get_mut(usize::from(posted.name().task)) {
                    task.collect(posted);
                }
            }
            _ => {}
        }
        Ok(())
    }

    /// Notes the posts that no task had collected at the end. Never allocates.
    pub fn leave(&mut self, posts: &[Posted]) {
        for posted in posts {
            if let Some(task) = self.tasks.get_mut(usize::from(posted.name().task)) {
                task.leave(posted);
            }
        }
    }

    /// The bytes of its area that a posted request shows, once the post is noted.
    pub fn shown(&self, posted: &Posted) -> &[u8] {
        let Name { task, seq } = posted.name();
        let Some(task) = self.tasks.get(usize::from(task)) else {
            return &[];
        };
        match task.ended(usize::from(posted.unit()), seq as usize) {
            Some(ended) => ended.shown,
            None => &[],
        }
    }
}
