//! What an image of a tape has and the tape has not: in which chunks its blocks are.

ghost use Rattle.std.specs.Prelude.{◌≡◌, ◌++◌, ◌∷◌, [], if◌then◌else◌, is_ok};
ghost use Rattle.aws_tape.specs.Writing.{common_parts, saved};

use crate::writer::{common, count_before};
use std::alloc::{AllocError, Global};
use std::marker::Model;
use tape_unit::Tape;

/// A chunk of a block that has several.
#[derive(Clone, Copy, Debug, PartialEq, Eq)]
pub struct Part {
    /// The index of its block among the items of the tape.
    pub item: u32,
    /// How many bytes of data it has.
    pub len: u16,
}

/// The chunks of each block that has several, in the order of the image. Most images have none.
#[derive(Debug, Drop)]
pub struct Layout {
    parts: Vec<Part>,
}

impl Model for Layout {
    ghost use Rattle.std.specs.Prelude.{List};
    ghost use Rattle.aws_tape.specs.declared.layout.Part.{Part};

    ghost Value = { List Part };

    ghost view = { λ l. l.parts.items };
}

impl Layout {
    /// The layout of an image that has one chunk for each block.
    pub fn canonical(alloc: Global) -> Self
        ensures { result ≡ [] }
    {
        Layout {
            parts: Vec::new(alloc),
        }
    }

    /// Forgets the chunks of what a tape does not have in common with the tape that was mounted. So its image stays the same
    /// if `now` is the one that was mounted from here on.
    pub fn forget_written(&mut self, mounted: &Tape, now: &Tape)
        ensures parts { self.new ≡ common_parts self.old mounted.now.reel.items now.now.reel.items }
        ensures image { saved self.new now.now.reel.items now.now.reel.items ≡ saved self.old mounted.now.reel.items now.now.reel.items }
    {
        let count = count_before(&self.parts, common(mounted, now));
        self.parts.truncate(count);
    }

    /// Adds a chunk. If memory runs out, it stays as it is.
    pub(crate) fn push(&mut self, part: Part) -> Result<(), AllocError>
        ensures { self.new ≡ (if is_ok result then self.old ++ part ∷ [] else self.old) }
    {
        match self.parts.push(part) {
            Ok(()) => Ok(()),
            Err(_) => Err(AllocError),
        }
    }

    /// The chunks.
    pub(crate) fn parts(&self) -> &[Part]
        ensures { result.now ≡ self.now }
    {
        self.parts.as_slice()
    }
}
