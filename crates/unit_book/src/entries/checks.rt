//! What a book tests before it adds an entry.

ghost use Rattle.std.specs.Prelude.{◌≡◌, ◌≤◌, is_some};
ghost use Rattle.unit_book.specs.Answers.{takes};
ghost use Rattle.unit_book.specs.Book.{running_name};
ghost use Rattle.unit_book.specs.Dcbs.{is_refused, opened_count};

use crate::active::Standing;
use crate::entries::Entries;
use crate::extents::takes_extents;
use device_port::Device;
use io_images::Extent;
use request_piece::Request;

impl<D: Device> Entries<D> {
    /// Whether a program runs.
    pub fn is_running(&self) -> bool
        ensures { result ≡ is_some (running_name D.meaning self.now) }
    {
        match &self.active {
            Some(active) => match active.standing {
                Standing::OnChannel => !self.channel.pending(),
                Standing::AwaitsRestart(_) => false,
            },
            None => false,
        }
    }

    /// How many DCBs were opened.
    pub fn dcb_count(&self) -> usize
        ensures count { result ≡ opened_count self.now.trace }
        ensures few { result ≤ 65535 }
    {
        self.dcbs.len()
    }

    /// Whether a DCB may be opened with these extents.
    pub fn takes_extents(&self, extents: &[Extent]) -> bool
        ensures { result ≡ takes D.meaning self.now extents.now }
    {
        let mounted = &self.mounted;
        takes_extents(
            mounted.kind(),
            mounted.cylinders(),
            mounted.heads(),
            extents,
        )
    }

    /// Whether a request is doomed when it arrives.
    pub fn is_refused(&self, request: &Request) -> bool
        ensures { result ≡ is_refused request.now self.now.trace }
    {
        match self.dcbs.get(request.dcb()) {
            Some(row) => row.closed || (request.is_related() && row.in_error),
            None => true,
        }
    }
}
