//! What is collected of a task for the report.

ghost use Rattle.std.specs.Prelude.{◌≡◌, ◌≤◌, ◌<◌, ℕ, [], length, replicate, IfOk, OnOk, vec_capacity, vec_len};
ghost use Rattle.std.specs.List.{All};
ghost use Rattle.post_ledger.specs.Work.{Gathers, list_of, lists_of, items_of_all};

use excp_system::{Site, Task};
use request_piece::Posted;
use std::alloc::{AllocError, Global};
use std::marker::Model;
use std::sync::Wait;

/// Posted values of one task: a list for each unit, in order of posting. Contracts see the lists, in order of unit.
#[derive(Drop)]
pub struct Posts {
    units: Vec<Vec<Posted>>,
}

impl Model for Posts {
    ghost use Rattle.std.specs.Prelude.{List};
    ghost use Rattle.request_piece.specs.PostedState.{PostedState};
    ghost use Rattle.post_ledger.specs.Work.{items_of_all};

    ghost Value = { List (List PostedState) };

    ghost view = { λ p. items_of_all p.units.items };
}

impl Posts {
    /// An empty list for each of `units` units.
    fn new(alloc: Global, units: usize) -> Result<Posts, AllocError>
        ensures { IfOk result (λ posts. posts ≡ replicate units []) }
    {
        let mut lists = Vec::with_capacity(alloc, units)?;
        for _ in 0..units {
            lists.push_reserved(Vec::new(alloc));
        }
        Ok(Posts { units: lists })
    }

    /// The list of a unit.
    pub fn of_unit(&self, unit: u16) -> &[Posted]
        requires { unit < length self.now }
        ensures { result.now ≡ list_of self.now unit }
    {
        self.units[usize::from(unit)].as_slice()
    }

    /// The lists, in order of unit. It takes no memory.
    pub fn into_units(self) -> Vec<Vec<Posted>>
        ensures { items_of_all result.items ≡ self }
    {
        self.units
    }

    /// Collects what is on its way back to a task.
    pub(crate) fn gather<S: Site, R: Wait>(
        &mut self,
        rt: &R,
        task: &mut Task<'_, S>,
    ) -> Result<(), AllocError>
        requires { length self.old ≡ S.rows.units }
        ensures gathers { Gathers S.rows.units task.old task.new self.old self.new }
        ensures count { length self.new ≡ S.rows.units }
    {
        gather(rt, task, &mut self.units)
    }
}

/// Collects what is on its way back to a task, each value after those of its unit.
fn gather<S: Site, R: Wait>(
    rt: &R,
    task: &mut Task<'_, S>,
    lists: &mut Vec<Vec<Posted>>,
) -> Result<(), AllocError>
    requires { length lists.old.items ≡ S.rows.units }
    ensures gathers { Gathers S.rows.units task.old task.new (items_of_all lists.old.items) (items_of_all lists.new.items) }
    ensures count { length lists.new.items ≡ S.rows.units }
{
    for _ in rt.forever() {
        make_room(lists)?;
        match task.take_post(rt) {
            Some(value) => {
                let place = usize::from(value.unit());
                lists[place].push_reserved(value);
            }
            None => break,
        }
    }
    Ok(())
}

/// Makes room for one more value in each list.
fn make_room(lists: &mut Vec<Vec<Posted>>) -> Result<(), AllocError>
    ensures values { items_of_all lists.new.items ≡ items_of_all lists.old.items }
    ensures room { OnOk result (All (λ list. vec_len list < vec_capacity list) lists.new.items) }
{
    for place in 0..lists.len() {
        lists[place].reserve(1)?;
    }
    Ok(())
}

/// Makes the lists that are missing, for these numbers of tasks and units. If memory runs out, some stay missing.
pub(crate) fn make_lists(
    alloc: Global,
    posts: &mut Vec<Posts>,
    tasks: usize,
    units: usize,
) -> Result<(), AllocError>
    requires count { length posts.old.items ≤ tasks }
    requires lists { All (λ lists. length lists ≡ units) posts.old.items }
    ensures count { length posts.new.items ≤ tasks }
    ensures lists { All (λ lists. length lists ≡ units) posts.new.items }
    ensures values { (task unit : ℕ) →
        list_of (lists_of posts.new.items task) unit ≡ list_of (lists_of posts.old.items task) unit }
    ensures all { OnOk result (length posts.new.items ≡ tasks) }
{
    for _ in posts.len()..tasks {
        posts.push(Posts::new(alloc, units)?)?;
    }
    Ok(())
}
