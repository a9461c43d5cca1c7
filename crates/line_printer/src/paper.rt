//! The position of the paper, and how it moves.

ghost use Rattle.std.specs.Prelude.{◌≡◌, ◌≤◌, ◌<◌, ◌^◌};
ghost use Rattle.line_printer.specs.Paper.{IsOnPage, after_motion, spaced};

/// The lines of a page.
const PAGE_LINES: u8 = 66;

/// How the paper moves.
#[derive(Clone, Copy, Debug, PartialEq, Eq)]
pub enum Motion {
    /// By no line.
    Suppress,
    SpaceOne,
    SpaceTwo,
    SpaceThree,
    /// To line 1 of the next page.
    SkipToChannelOne,
}

/// The position of a line: its page, counted from 1, and its number there, 1 to 66.
#[derive(Clone, Copy, Debug, PartialEq, Eq)]
pub struct PaperPosition {
    pub page: u16,
    pub line: u8,
}

impl PaperPosition {
    /// Where a motion leads.
    pub fn moved(self, motion: Motion) -> Self
        requires on_page { IsOnPage self }
        requires small { self.page < 2 ^ 15 }
        ensures position { result ≡ after_motion motion self }
        ensures on_page { IsOnPage result }
    {
        match motion {
            Motion::Suppress => self,
            Motion::SpaceOne => self.spaced(1),
            Motion::SpaceTwo => self.spaced(2),
            Motion::SpaceThree => self.spaced(3),
            Motion::SkipToChannelOne => PaperPosition {
                page: self.page + 1,
                line: 1,
            },
        }
    }

    /// This many lines down.
    fn spaced(self, lines: u8) -> Self
        requires on_page { IsOnPage self }
        requires small { self.page < 2 ^ 15 }
        requires few { lines ≤ 66 }
        ensures position { result ≡ spaced lines self }
        ensures on_page { IsOnPage result }
    {
        let line = self.line + lines;
        if line <= PAGE_LINES {
            return PaperPosition {
                page: self.page,
                line,
            };
        }
        PaperPosition {
            page: self.page + 1,
            line: line - PAGE_LINES,
        }
    }
}
