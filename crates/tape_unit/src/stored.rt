//! A reader of the items on a tape.

ghost use Rattle.std.specs.Prelude.{◌≡◌, ◌≤◌, MatchOption, true, length};
ghost use Rattle.std.specs.Iterator.{YieldsFirst, item_count};
ghost use Rattle.tape_unit.specs.Item.{tape_mark, block, item_with, is_item, is_mark, content_of};

use crate::position::Position;
use crate::reel::Reel;
use std::marker::Model;

/// An item on a tape: a block of data, or a tape mark.
#[derive(Drop)]
pub struct Stored<'a> {
    content: &'a [u8],
}

impl<'a> Model for Stored<'a> {
    ghost use Rattle.std.specs.Prelude.{◌≤◌, length};
    ghost use Rattle.tape_unit.specs.Item.{Item, item_with};

    ghost Value = { Item };

    ghost view = { λ s. item_with s.content.now };

    ghost invariant = { λ s. length s.content.now ≤ 65_535 };
}

impl<'a> Stored<'a> {
    /// The item that has this data: none is a tape mark's.
    pub(crate) fn new(content: &'a [u8]) -> Self
        requires { length content.now ≤ 65_535 }
        ensures { result ≡ item_with content.now }
    {
        Stored { content }
    }

    /// The data of a block, 1 to 65,535 bytes; none for a tape mark.
    pub fn block(&self) -> Option<&'a [u8]>
        ensures { MatchOption result (self.now ≡ tape_mark) (λ bytes. self.now ≡ block bytes.now) }
    {
        if self.is_mark() {
            None
        } else {
            Some(self.content)
        }
    }

    /// Whether it is a tape mark.
    pub fn is_mark(&self) -> bool
        ensures { result ≡ is_mark self.now }
    {
        self.content.is_empty()
    }

    /// How many bytes of data the item has; a tape mark has none.
    pub fn len(&self) -> u16
        ensures len { result ≡ length (content_of self.now) }
        ensures item { is_item self.now ≡ true }
    {
        self.content.len() as u16
    }

    /// The data of the item; a tape mark has none.
    pub fn content(&self) -> &'a [u8]
        ensures { result.now ≡ content_of self.now }
    {
        self.content
    }
}

/// The items of a tape that are left, in their order from the load point on.
#[derive(Drop)]
pub struct Items<'a> {
    reel: &'a Reel,
    at: Position,
}

impl<'a> Model for Items<'a> {
    ghost use Rattle.std.specs.Prelude.{List, drop};
    ghost use Rattle.tape_unit.specs.Item.{Item};
    ghost use Rattle.tape_unit.specs.Reel.{IsOn};

    ghost Value = { List Item };

    ghost view = { λ i. drop i.at.place i.reel.now.items };

    ghost invariant = { λ i. IsOn i.reel.now.items i.at };
}

impl<'a> Items<'a> {
    /// All items of a reel.
    pub(crate) fn new(reel: &'a Reel) -> Self
        ensures { result ≡ reel.now.items }
    {
        Items {
            reel,
            at: Position::load_point(),
        }
    }
}

impl<'a> Iterator for Items<'a> {
    type Item = Stored<'a>;

    ghost next_gives = { YieldsFirst (λ items. items) };

    ghost remaining = { item_count (λ items. items) };

    fn next(&mut self) -> Option<Stored<'a>> {
        if self.at.place == self.reel.len() {
            return None;
        }
        let item = self.reel.item(self.at);
        self.at = self.reel.next(self.at);
        Some(item)
    }
}
