//! The rows of one system, by name.

use std::marker::{Brand, PhantomData};

/// The rows of one system, and whether its units' own calls may be used. It has no calls. Code that makes a system is
/// generic in it, and is called with [`Brand`]. So what comes back from a lock or a thread is on that system's rows.
pub trait Site {
    ghost use Rattle.std.specs.Prelude.{Bool};
    ghost use Rattle.excp_system.specs.Sites.{SiteRows};

    ghost rows: { SiteRows };

    // whether `open`, `purge`, `purge_task`, `close` and `reset` of a unit may be called. If not, each control is one that
    // a task asked, and no DCB is opened after the system was made
    ghost own_calls: { Bool };
}

impl Site for Brand {
    ghost use Rattle.std.specs.Prelude.{true};
    ghost use Rattle.excp_system.specs.Sites.{no_rows};

    ghost rows = { no_rows };

    ghost own_calls = { true };
}

/// The books that the units of a site began with, in order of unit. It has no calls. A call that makes a system
/// requires that these are its books.
pub trait Opened<D>: Site {
    ghost use Rattle.std.specs.Prelude.{List};
    ghost use Rattle.unit_book.specs.Book.{Book};

    ghost opened: { List (Book D) };
}

impl<D> Opened<D> for Brand {
    ghost use Rattle.std.specs.Prelude.{[]};

    ghost opened = { [] };
}

/// Which rows one sender reaches.
pub trait Reach {
    ghost use Rattle.excp_system.specs.Sites.{ReachedRows};

    ghost reached: { ReachedRows };
}

/// All intake rows of a site.
pub struct IntakeRows<S>(PhantomData<S>);

impl<S: Site> Reach for IntakeRows<S> {
    ghost use Rattle.excp_system.specs.Sites.{intake_rows};

    ghost reached = { intake_rows S.rows };
}

/// All post rows of a site.
pub struct PostRows<S>(PhantomData<S>);

impl<S: Site> Reach for PostRows<S> {
    ghost use Rattle.excp_system.specs.Sites.{post_rows};

    ghost reached = { post_rows S.rows };
}

/// All notice rows of a site.
pub struct NoticeRows<S>(PhantomData<S>);

impl<S: Site> Reach for NoticeRows<S> {
    ghost use Rattle.excp_system.specs.Sites.{notice_rows};

    ghost reached = { notice_rows S.rows };
}
