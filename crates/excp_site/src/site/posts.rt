//! The posts that are on their way back to a task.

ghost use Rattle.std.specs.Prelude.{◌≡◌, Some, IfErr, IfOk, OnErr, OnOk, slice_get};
ghost use Rattle.excp_site.specs.Refusals.{PostRefused};
ghost use Rattle.unit_world.specs.PostLists.{list_of};
ghost use Rattle.unit_world.specs.Sites.{CollectsPost};

use crate::refusal::Refusal;
use crate::site::Site;
use request_piece::Posted;

impl Site {
    /// The first post that was delivered to a task. It stays.
    ///
    /// Errors: `NoTask`, `NoPost`.
    pub fn post(&self, task: u16) -> Result<&Posted, Refusal>
        ensures first { IfOk result (λ post. slice_get (list_of self.now.plain.rows task) 0 ≡ Some post.now) }
        ensures refused { IfErr result (PostRefused self.now.plain task) }
    {
        self.has_task(task)?;
        match self.plain.post(task, 0) {
            Some(post) => Ok(post),
            None => Err(Refusal::NoPost),
        }
    }

    /// Collects the first post that was delivered to a task.
    ///
    /// Errors: `NoTask`, `NoPost`.
    pub fn next_post(&mut self, task: u16) -> Result<Posted, Refusal>
        ensures first { IfOk result (λ post. slice_get (list_of self.old.plain.rows task) 0 ≡ Some post) }
        ensures collected { OnOk result (CollectsPost self.old.plain task self.new.plain) }
        ensures refused { IfErr result (PostRefused self.old.plain task) }
        ensures rest { self.new ≡ record self.old { plain = self.new.plain } }
        ensures err { OnErr result (self.new ≡ self.old) }
    {
        self.has_task(task)?;
        match self.plain.collect(task) {
            Some(post) => Ok(post),
            None => Err(Refusal::NoPost),
        }
    }
}
