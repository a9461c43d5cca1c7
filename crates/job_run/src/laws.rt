//! The law of code 48 in scripts without controls.

ghost use Rattle.job_run.specs.Laws.{PurgesAfterErrors};

/// If a script asks for no purge, close or reset, a request is posted 48 only if it is related, and comes after a related request
/// to its DCB that ended in error. A script opens each DCB that its commands name, so no request is to a DCB that is not open.
pub fn purged_after_errors()
    ensures { PurgesAfterErrors }
{}
