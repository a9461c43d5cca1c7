//! What the grammar says of some scripts.

ghost use Rattle.job_script.specs.Runs.{Runs};

/// The grammar gives these scripts and these faults.
pub fn worked_runs()
    ensures { Runs }
{}
