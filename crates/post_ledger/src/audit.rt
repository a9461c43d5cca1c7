//! The logs of units and the pens of tasks, which agree at the end of a run.

ghost use Rattle.std.specs.Prelude.{◌≡◌, ◌<◌, ℕ, length, Some, slice_get};
ghost use Rattle.excp_system.specs.Controls.{LogState, PensState};
ghost use Rattle.post_ledger.specs.Audit.{AllAudited, IsAudited};

use excp_system::{Log, Pens, Site};

/// Shows that the log of a unit has just the controls that the tasks asked of it, and those of the unit's own calls.
fn audit_unit<S: Site>(unit: usize, mut log: Log<'_, S>, hands: &mut Vec<Pens<'_, S>>)
    requires log { log.register ≡ S.rows.register unit }
    requires hands { (t : ℕ) (p : PensState) → slice_get hands.old.items t ≡ Some p → (p.number ≡ t) × (unit < length p.asked) }
    ensures hands { hands.new.items ≡ hands.old.items }
    ensures audited { IsAudited S.own_calls S.rows.tasks unit log.entry hands.old.items }
{
    log.holds();
    for task in 0..hands.len() {
        hands[task].audit(unit, &mut log);
    }
}

/// Shows it of each unit.
pub(crate) fn audit_all<S: Site>(logs: Vec<Log<'_, S>>, hands: &mut Vec<Pens<'_, S>>)
    requires logs { (unit : ℕ) (l : LogState) → slice_get logs.items unit ≡ Some l → l.register ≡ S.rows.register unit }
    requires hands { (t : ℕ) (p : PensState) → slice_get hands.old.items t ≡ Some p → (p.number ≡ t) × (length p.asked ≡ length logs.items) }
    ensures { AllAudited S.own_calls S.rows.tasks logs.entry.items hands.old.items }
{
    let mut unit = 0;
    for log in logs {
        audit_unit(unit, log, hands);
        unit += 1;
    }
}
