//! What becomes of some scripts.

ghost use Rattle.job_mount.specs.Runs.{MountRuns};

/// Mounting gives these books and these faults.
pub fn worked_runs()
    ensures { MountRuns }
{}
