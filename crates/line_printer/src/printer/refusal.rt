//! What is wrong with a printer that is not mounted.

ghost use Rattle.std.specs.Prelude.{◌≡◌, IfNone, IfSome, false, true};
ghost use Rattle.line_printer.specs.Mount.{is_paper};
ghost use Rattle.line_printer.specs.Refusals.{PaperFails};

use super::is_paper;

/// Which number of a printer is outside its range.
#[derive(Clone, Copy)]
pub enum PaperRefusal {
    /// Its lines are not 1 to 100,000.
    Lines,
    /// Its pages are not 1 to 10,000.
    Pages,
}

/// Returns the first number that is outside its range, if a printer cannot have these numbers of lines and pages.
pub fn paper_refusal(lines: u64, pages: u64) -> Option<PaperRefusal>
    ensures none { IfNone result (is_paper lines pages ≡ true) }
    ensures some { IfSome result (λ r. is_paper lines pages ≡ false) }
    ensures number { IfSome result (PaperFails lines pages) }
{
    if is_paper(lines, pages) {
        None
    } else if lines == 0 || lines > 100_000 {
        Some(PaperRefusal::Lines)
    } else {
        Some(PaperRefusal::Pages)
    }
}
