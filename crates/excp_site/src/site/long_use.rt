//! A checkpoint: the book of a unit begins again on its medium as it is, so that its memory does not grow with each request.

ghost use Rattle.std.specs.Prelude.{◌≡◌, ◌<◌, length, slice_set, true, IfErr, IfOk, OnErr, OnOk};
ghost use Rattle.std.specs.Bool.{OnFalse, OnTrue};
ghost use Rattle.unit_book.specs.Dcbs.{dcb_state, flag};
ghost use Rattle.unit_book.specs.declared.dcb.DcbState.TheVariants as DcbState;
ghost use Rattle.unit_world.specs.Sites.{IsAtRest, OnPart};
ghost use Rattle.excp_site.specs.Checkpoints.{CheckpointRefused, Checkpoints, BesideAfter, IsFlagged, count_after, counts_after};
ghost use Rattle.excp_site.specs.Looks.{device_now};
ghost use Rattle.excp_site.specs.Sites.{beside_of};

use crate::refusal::Refusal;
use crate::site::Site;
use any_device::AnyDevice;
use std::alloc::AllocError;
use unit_book::{DcbState, Entry, UnitBook};

impl Site {
    /// Begins a unit at rest again, on its device as it is, with its DCBs opened and closed as before. What else happened is
    /// forgotten, and its memory given back. Numbers of requests go on ([`Site::number`]). It takes time in the bytes recorded on
    /// the medium, what happened, and the posts that wait.
    ///
    /// Errors, in this order: `NoUnit`; `NotIdle` if a request is in flight, waits, is active or out, or a post is not collected;
    /// `InError` if an open DCB is in error; `NoMemory`.
    pub fn checkpoint(&mut self, unit: u16) -> Result<(), Refusal>
        ensures ok { OnOk result (Checkpoints self.old unit self.new) }
        ensures refused { IfErr result (CheckpointRefused self.old unit) }
        ensures err { OnErr result (self.new ≡ self.old) }
    {
        self.has_unit(unit)?;
        if !self.is_at_rest(unit) {
            return Err(Refusal::NotIdle);
        }
        if has_error(self.plain.book(unit)) {
            return Err(Refusal::InError);
        }
        let counts = self.counts_after(unit)?;
        self.forget_written(unit);
        self.plain.renew(unit);
        self.earlier[usize::from(unit)] = counts;
        Ok(())
    }

    /// Forgets what the image of a unit has of what was written since its medium was mounted.
    fn forget_written(&mut self, unit: u16)
        requires unit { unit < length self.old.plain.units }
        ensures image { OnPart self.old.plain unit (λ p. BesideAfter (beside_of self.old unit) p.book.mounted (device_now p.book) (beside_of self.new unit)) }
        ensures beside { self.new.beside ≡ slice_set self.old.beside unit (beside_of self.new unit) }
        ensures rest { self.new ≡ record self.old { beside = self.new.beside } }
    {
        let book = self.plain.book(unit);
        if let Some(kept) = &mut self.beside[usize::from(unit)] {
            kept.forget_written(book.mounted(), book.device());
        }
    }

    /// Whether nothing of a unit is with anybody.
    fn is_at_rest(&self, unit: u16) -> bool
        requires unit { unit < length self.now.plain.units }
        ensures rest { OnTrue result (IsAtRest self.now.plain unit) }
        ensures busy { OnFalse result (IsAtRest self.now.plain unit → ⊥) }
    {
        if !self.plain.is_finished(unit) {
            return false;
        }
        if self.plain.book(unit).out_len() != 0 {
            return false;
        }
        self.plain.is_collected(unit)
    }

    /// How many requests of each task a unit had so far.
    fn counts_after(&self, unit: u16) -> Result<Vec<u64>, AllocError>
        requires unit { unit < length self.now.plain.units }
        ensures { IfOk result (λ counts. OnPart self.now.plain unit (λ p. counts.items ≡ counts_after self.now unit p)) }
    {
        let mut counts = Vec::new(self.alloc);
        for task in 0..self.plain.tasks() {
            // a site has at most 65,535 tasks, so the number always fits
            let Ok(number) = u16::try_from(task) else {
                return Err(AllocError);
            };
            counts.push(self.count_after(unit, number))?;
        }
        Ok(counts)
    }

    /// How many requests of a task a unit had so far.
    fn count_after(&self, unit: u16, task: u16) -> u64
        requires unit { unit < length self.now.plain.units }
        ensures { OnPart self.now.plain unit (λ p. result ≡ count_after self.now unit p task) }
    {
        self.earlier_of(unit, task)
            .saturating_add(u64::from(self.plain.issued_by(task, unit)))
    }
}

/// Whether an open DCB of a book is in error. The flag of a closed one dooms nothing more.
fn has_error(book: &UnitBook<AnyDevice>) -> bool
    ensures some { OnTrue result (IsFlagged book.now) }
    ensures none { OnFalse result (IsFlagged book.now → ⊥) }
{
    for entry in book.trace() {
        if let Entry::Opened(dcb, _, _) = entry {
            if is_flagged(book, *dcb) {
                return true;
            }
        }
    }
    false
}

/// Whether a DCB is open and in error.
fn is_flagged(book: &UnitBook<AnyDevice>, dcb: u16) -> bool
    ensures yes { OnTrue result (IsFlagged book.now) }
    ensures no { OnFalse result (dcb_state dcb book.now.trace ≡ DcbState.Open → flag dcb book.now.trace ≡ true → ⊥) }
{
    book.dcb_state(dcb) == DcbState::Open && book.dcb_flag(dcb)
}
