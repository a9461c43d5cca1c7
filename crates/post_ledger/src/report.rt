//! The report of a run.

ghost use Rattle.std.specs.Prelude.{◌≡◌, ◌<◌, length};
ghost use Rattle.post_ledger.specs.Report.{list_at};
ghost use Rattle.post_ledger.specs.Work.{lists_of};

use crate::posts::Posts;
use device_port::Device;
use request_piece::Posted;
use std::marker::Model;
use unit_book::UnitBook;

/// The account of a run that was brought to its end. Contracts see the book of each unit, and for each task a list
/// for each unit.
#[derive(Drop)]
pub struct Report<D: Device> {
    units: Vec<UnitBook<D>>,
    tasks: Vec<Posts>,
}

impl<D: Device> Model for Report<D> {
    ghost use Rattle.post_ledger.specs.Report.{ReportState};

    ghost Value = { ReportState D };

    ghost view = { λ r. record { books = r.units.items; lists = r.tasks.items } };
}

impl<D: Device> Report<D> {
    /// The report of these books and lists.
    pub(crate) fn new(units: Vec<UnitBook<D>>, tasks: Vec<Posts>) -> Report<D>
        ensures { result ≡ record { books = units.items; lists = tasks.items } }
    {
        Report { units, tasks }
    }

    /// The books of the units, in order of number: their readers give the trace, the device as it was mounted, and
    /// the device as the trace leaves it.
    pub fn units(&self) -> &[UnitBook<D>]
        ensures { result.now ≡ self.now.books }
    {
        self.units.as_slice()
    }

    /// What a unit posted for a task and the task had not collected, in order of posting.
    pub fn posts(&self, task: u16, unit: u16) -> &[Posted]
        requires task { task < length self.now.lists }
        requires unit { unit < length (lists_of self.now.lists task) }
        ensures { result.now ≡ list_at self.now task unit }
    {
        self.tasks[usize::from(task)].of_unit(unit)
    }

    /// The books of the units, in order of number, and of each task what the units posted for it and it had not
    /// collected. It takes no memory.
    pub fn into_parts(self) -> (Vec<UnitBook<D>>, Vec<Posts>)
        ensures books { result.0.items ≡ self.books }
        ensures lists { result.1.items ≡ self.lists }
    {
        let Report { units, tasks } = self;
        (units, tasks)
    }
}
