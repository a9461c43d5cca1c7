//! Which units of a worker have a turn in a pass.

ghost use Rattle.std.specs.Prelude.{◌≡◌, ◌≢◌, ◌==◌, ◌-◌, ℕ};
ghost use Rattle.excp_system.specs.Rests.{AreDue, AreShort, rest_of};

use std::marker::Model;

/// What a turn on a unit found.
#[derive(Clone, Copy, PartialEq, Eq)]
pub(crate) enum TurnResult {
    /// There was something to do.
    Served,
    /// A status is pending, or a post row is full: others go on first.
    Waiting,
    /// There was nothing to do.
    Idle,
}

/// The most units of a system (profile).
const MOST_UNITS: usize = 64;

/// The idle turns in a row after which the next one lets a unit sit out passes.
const PATIENCE: u8 = 4;

/// The most passes that a unit sits out.
const MOST_PASSES: usize = 32;

/// Says which units have a turn in a pass. A unit that has something to do has a turn in each pass. One that has had
/// nothing for some turns sits out passes, the more the fewer units are busy, and 32 at most. So a pass has about two
/// looks at idle units for each busy one. Contracts see how many passes each unit sits out.
#[derive(Drop)]
pub(crate) struct Rota {
    /// Of each unit, the idle turns in a row.
    idle_turns: [u8; MOST_UNITS],
    /// Of each unit, how many passes it sits out.
    passes: [usize; MOST_UNITS],
    busy: usize,
    passes_off: usize,
}

impl Model for Rota {
    ghost use Rattle.std.specs.Prelude.{◌≤◌, ℕ, List};
    ghost use Rattle.excp_system.specs.Rests.{AreShort};

    ghost Value = { List ℕ };

    ghost view = { λ r. r.passes };

    ghost invariant = { λ r. AreShort r.passes × (r.passes_off ≤ 32) };
}

impl Rota {
    /// All units are due.
    pub(crate) fn new() -> Rota
        ensures { AreDue result }
    {
        Rota {
            idle_turns: [0; MOST_UNITS],
            passes: [0; MOST_UNITS],
            busy: 0,
            passes_off: 0,
        }
    }

    /// All units are due in the next pass.
    pub(crate) fn call_all(&mut self)
        ensures { AreDue self.new }
    {
        self.passes = [0; MOST_UNITS];
    }

    /// A pass over `count` units begins.
    pub(crate) fn begin(&mut self, count: usize)
        ensures { self.new ≡ self.old }
    {
        self.passes_off = (count / 2 / self.busy.max(1)).min(MOST_PASSES);
        self.busy = 0;
    }

    /// Whether a unit has a turn in this pass. If not, it sits out one pass less from now on. So a unit at rest is asked
    /// again after 32 passes at most.
    pub(crate) fn is_due(&mut self, unit: u16) -> bool
        ensures due { result ≡ (rest_of self.old unit == 0) }
        ensures sooner { rest_of self.new unit ≡ rest_of self.old unit - 1 }
        ensures others { (other : ℕ) → other ≢ unit → rest_of self.new other ≡ rest_of self.old other }
        ensures short { AreShort self.old }
    {
        let place = usize::from(unit);
        if place >= MOST_UNITS || self.passes[place] == 0 {
            return true;
        }
        self.passes[place] -= 1;
        false
    }

    /// Notes what a turn on a unit found. Only an idle unit may rest after it.
    pub(crate) fn note(&mut self, unit: u16, turn: TurnResult)
        ensures busy { turn ≢ TurnResult.Idle → self.new ≡ self.old }
        ensures others { (other : ℕ) → other ≢ unit → rest_of self.new other ≡ rest_of self.old other }
        ensures short { AreShort self.new }
    {
        let place = usize::from(unit);
        if turn != TurnResult::Idle {
            self.busy = self.busy.saturating_add(1);
        }
        if place >= MOST_UNITS {
            return;
        }
        if turn != TurnResult::Idle {
            self.idle_turns[place] = 0;
        } else if self.idle_turns[place] < PATIENCE {
            self.idle_turns[place] += 1;
        } else {
            self.passes[place] = self.passes_off;
        }
    }
}
