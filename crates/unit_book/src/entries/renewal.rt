//! A book that begins again.

ghost use Rattle.std.specs.Prelude.{◌≡◌, [], None, reverse};
ghost use Rattle.unit_book.specs.Legal.{Settled};
ghost use Rattle.unit_book.specs.Renewal.{Renews, is_opening_or_close, openings_and_closes};
ghost use Rattle.unit_book.specs.Trace.{active, waiting};

use crate::entries::Entries;
use crate::entry::Entry;
use device_port::FixedSize;

impl<D: FixedSize> Entries<D> {
    /// Begins again on the device as it is now. The trace keeps openings and closes alone, and gives its other memory back.
    pub fn renew(&mut self)
        requires waiting { waiting self.old.trace ≡ [] }
        requires active { active self.old.trace ≡ None }
        requires out { self.old.out ≡ [] }
        ensures book { Renews D.meaning self.old self.new }
        ensures settled { Settled D.meaning self.new.mounted self.new.trace }
    {
        self.mounted.copy_from(self.channel.device().unwrap());
        self.dcbs.unflag_all();
        keep_openings_and_closes(&mut self.trace);
    }
}

/// Keeps the openings and closes of a trace, and no more room than these need.
fn keep_openings_and_closes(trace: &mut Vec<Entry>)
    ensures { reverse trace.new.items ≡ openings_and_closes (reverse trace.old.items) }
{
    trace.retain(|entry| entry.is_opening_or_close());
    trace.shrink_to_fit();
}
