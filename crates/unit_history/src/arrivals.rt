//! The arrivals of a trace.

ghost use Rattle.std.specs.Prelude.{ℕ, ◌≡◌, true, false, MatchOption};
ghost use Rattle.std.specs.List.{list_any};
ghost use Rattle.unit_book.specs.Trace.{arrives};
ghost use Rattle.unit_history.specs.Ties.{ArrivesAt};

use request_piece::{Issued, Name};
use unit_book::Entry;

/// The request of this name, if its arrival is this entry.
fn arrival(entry: &Entry, name: Name) -> Option<&Issued>
    ensures { MatchOption result (arrives name entry.now ≡ false) (λ issued. (entry.now ≡ Entry.Arrive issued.now) × (issued.now.name ≡ name)) }
{
    match entry {
        Entry::Arrive(issued) if issued.name() == name => Some(issued),
        _ => None,
    }
}

/// The request of this name that arrived among entries, and the index where it did.
fn find(entries: &[Entry], name: Name) -> Option<(usize, &Issued)>
    ensures { MatchOption result (list_any (arrives name) entries.now ≡ false) (λ found. ArrivesAt entries.now name found.0 found.1.now) }
{
    for place in 0..entries.len() {
        if let Some(issued) = arrival(&entries[place], name) {
            return Some((place, issued));
        }
    }
    None
}

/// The request of this name that arrived among entries, and the index where it did. The search begins at an index, and goes on
/// before it.
pub fn find_arrival(entries: &[Entry], from: usize, name: Name) -> Option<(usize, &Issued)>
    ensures { MatchOption result (list_any (arrives name) entries.now ≡ false) (λ found. ArrivesAt entries.now name found.0 found.1.now) }
{
    let from = from.min(entries.len());
    let (earlier, later) = entries.split_at(from);
    if let Some((place, issued)) = find(later, name) {
        return Some((from + place, issued));
    }
    let found = find(earlier, name)?;
    Some(found)
}

/// The request of this name, which arrived among the entries, and its index. The search begins at `from`.
pub(crate) fn arrival_of(entries: &[Entry], from: usize, name: Name) -> (usize, &Issued)
    requires { list_any (arrives name) entries.now ≡ true }
    ensures { ArrivesAt entries.now name result.0 result.1.now }
{
    let Some(found) = find_arrival(entries, from, name) else {
        unreachable!()
    };
    found
}
