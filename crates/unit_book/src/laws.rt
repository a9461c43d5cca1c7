//! Laws of every legal trace, those with halts, purges and closed DCBs included, and of the world of a unit.

ghost use Rattle.unit_book.specs.Laws.{FewStarts, NoDoomedStarts, OnePlace, PostsLast, StartsInOrder};
ghost use Rattle.unit_book.specs.WorldLaws.{FinishedOnce, HaveValues, WorldLaws};

use device_port::Device;

/// A name has at most one post, and none of its entries comes after it.
pub fn posts_are_last<D: Device>()
    ensures { PostsLast D.meaning }
{}

/// A name that arrived waits, is active or was posted, and just one of these.
pub fn names_have_one_place<D: Device>()
    ensures { OnePlace D.meaning }
{}

/// The first starts are a subsequence of the arrivals.
pub fn first_starts_keep_order<D: Device>()
    ensures { StartsInOrder D.meaning }
{}

/// What was doomed is never started, and what was covered is not started again. After a close no request of the DCB
/// has a first start, and only the request that was active then has any. While a DCB has the error flag, none of its
/// related requests has a first start.
pub fn doomed_are_not_started<D: Device>()
    ensures { NoDoomedStarts D.meaning }
{}

/// At most one request is active, and each has at most eleven starts.
pub fn starts_are_few<D: Device>()
    ensures { FewStarts D.meaning }
{}

/// A trace has as many posted values of a name as posts of it.
pub fn posts_have_values<D: Device>()
    ensures { HaveValues D.meaning }
{}

/// If nothing waits and nothing is active, each request that arrived has exactly one post.
pub fn finished_posts_once<D: Device>()
    ensures { FinishedOnce D.meaning }
{}

/// After every list of steps of a unit's world:
///
/// - What arrived of a task, and what is in flight of it, is what the task sent, numbered in the order of sending.
/// - The first starts of a task are in that order.
/// - What was posted of it is what it has got, what is on the way back to it and what is out.
/// - The trace is legal and nothing is due, so it has the laws above.
/// - Each request has at most one post, and exactly one once nothing is in flight, waits or is active.
pub fn worlds_keep_requests<D: Device>()
    ensures { WorldLaws D.meaning }
{}
