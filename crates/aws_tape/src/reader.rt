//! Images of tapes, read chunk by chunk.

ghost use Rattle.std.specs.Prelude.{◌≡◌, ◌+◌, ◌≤◌, IfErr, IfOk, IfSome, length};
ghost use Rattle.tape_unit.specs.Item.{tape_mark, block};
ghost use Rattle.aws_tape.specs.Reading.{of_kind};

use crate::chunk::{ChunkKind, HEADER, Header, number};
use crate::fault::AwsFault;
use crate::image::TapeImage;
use crate::layout::{Layout, Part};
use image_source::fill;
use std::alloc::Global;
use std::io::Read;
use std::marker::Model;
use tape_unit::{LONGEST_BLOCK, Recording, RecordingError};

/// What is known of an image between two chunks. It keeps one block beside the tape.
#[derive(Drop)]
pub struct Reader {
    tape: Recording,
    is_open: bool,
    block: Vec<u8>,
    layout: Layout,
    previous: u16,
}

impl Model for Reader {
    ghost use Rattle.std.specs.Prelude.{◌≤◌, length};
    ghost use Rattle.aws_tape.specs.Between.{Between};

    ghost Value = { Between };

    ghost view = { λ r. record { reel = r.tape; is_open = r.is_open; block = r.block.items; layout = r.layout; previous = r.previous } };

    ghost invariant = { λ r. length r.block.items ≤ 65_535 };
}

/// Where a chunk of this kind may be, and what its header says, if the block has this many bytes so far.
fn placed(
    kind: Option<ChunkKind>,
    len: u16,
    so_far: usize,
    is_open: bool,
) -> Result<Header, AwsFault>
    requires { so_far ≤ 65_535 }
    ensures header { result ≡ of_kind kind len so_far is_open }
    ensures short { IfOk result (λ header. so_far + header.len ≤ 65_535) }
{
    let Some(kind) = kind else {
        return Err(AwsFault::BadFlags);
    };
    match (kind, is_open) {
        (ChunkKind::Mark, true) => Err(AwsFault::MarkInBlock),
        (ChunkKind::Mark, false) if len != 0 => Err(AwsFault::MarkWithData),
        (ChunkKind::Whole | ChunkKind::First, true) => Err(AwsFault::BlockInBlock),
        (ChunkKind::Middle | ChunkKind::Last, false) => Err(AwsFault::NoBlockOpen),
        _ if so_far + len as usize > LONGEST_BLOCK => Err(AwsFault::LongBlock),
        _ => Ok(Header { kind, len }),
    }
}

impl Reader {
    ghost use Rattle.std.specs.Prelude.{Ok, IfErr, OnOk};
    ghost use Rattle.aws_tape.specs.Reading.{IsOfImage, Answers, start, header_after, after_data, block_ended, recorded, with_chunk_part, image_end};
    ghost use Rattle.aws_tape.specs.Stepping.{FetchesChunk, ReadsData, ReadsChunk};

    /// Begins an image. Its items go to the tape.
    pub fn new(alloc: Global, tape: Recording) -> Self
        ensures { result ≡ start tape }
    {
        Reader {
            tape,
            is_open: false,
            block: Vec::new(alloc),
            layout: Layout::canonical(alloc),
            previous: 0,
        }
    }

    /// Reads the six bytes of a header.
    ///
    /// Errors: the first rule that the header breaks.
    fn header(&self, header: &[u8]) -> Result<Header, AwsFault>
        requires { length header.now ≡ 6 }
        ensures header { result ≡ header_after self.now header.now }
        ensures short { IfOk result (λ h. length self.now.block + h.len ≤ 65_535) }
    {
        let flags = header[4];
        if flags % 4 != 0 {
            return Err(AwsFault::Compressed);
        }
        if header[5] != 0 {
            return Err(AwsFault::BadSpare);
        }
        if number(&header[2..]) != self.previous {
            return Err(AwsFault::BadPrevious);
        }
        placed(
            ChunkKind::decode(flags),
            number(header),
            self.block.len(),
            self.is_open,
        )
    }

    /// Reads the data of a chunk to the end of the block.
    ///
    /// Errors: `DataCutShort`, `Unreadable`, `NoMemory`.
    fn fetch<R: Read>(&mut self, len: u16, source: &mut R) -> Result<(), AwsFault>
        requires { length self.old.block + len ≤ 65_535 }
        ensures { FetchesChunk self.old self.new len (R.remaining source.old) (R.remaining source.new) result }
    {
        let start = self.block.len();
        let Ok(()) = self.block.resize(start + len as usize, 0) else {
            return Err(AwsFault::NoMemory);
        };
        let Ok(count) = fill(source, &mut self.block[start..]) else {
            return Err(AwsFault::Unreadable);
        };
        if count < len as usize {
            return Err(AwsFault::DataCutShort);
        }
        self.previous = len;
        Ok(())
    }

    /// Notes that the chunk that was read last is a part of the block that is open.
    ///
    /// Error: `NoMemory`.
    fn note_part(&mut self) -> Result<(), AwsFault>
        ensures noted { OnOk result (self.new ≡ with_chunk_part self.old) }
        ensures fault { IfErr result (λ e. e ≡ AwsFault.NoMemory) }
    {
        let part = Part {
            item: self.tape.len() as u32,
            len: self.previous,
        };
        self.is_open = true;
        match self.layout.push(part) {
            Ok(()) => Ok(()),
            Err(_) => Err(AwsFault::NoMemory),
        }
    }

    /// Records the block that ends.
    ///
    /// Errors, in this order: `EmptyBlock`, `TapeFull`, `NoMemory`.
    fn end_block(&mut self) -> Result<(), AwsFault>
        ensures ended { OnOk result (block_ended self.old ≡ Ok self.new) }
        ensures fault { IfErr result (λ e. IsOfImage e → block_ended self.old ≡ Err e) }
    {
        match self.tape.write_block(&self.block) {
            Ok(()) => {
                self.is_open = false;
                self.block.clear();
                Ok(())
            }
            Err(RecordingError::BadBlock) => Err(AwsFault::EmptyBlock),
            Err(RecordingError::Full) => Err(AwsFault::TapeFull),
            Err(_) => Err(AwsFault::NoMemory),
        }
    }

    /// Records a tape mark.
    ///
    /// Errors, in this order: `TapeFull`, `NoMemory`.
    fn record_mark(&mut self) -> Result<(), AwsFault>
        ensures ended { OnOk result (recorded self.old tape_mark ≡ Ok self.new) }
        ensures fault { IfErr result (λ e. IsOfImage e → recorded self.old tape_mark ≡ Err e) }
    {
        match self.tape.write_tape_mark() {
            Ok(()) => {
                self.is_open = false;
                self.block.clear();
                Ok(())
            }
            Err(RecordingError::Full) => Err(AwsFault::TapeFull),
            Err(_) => Err(AwsFault::NoMemory),
        }
    }

    /// Ends a chunk whose data is there.
    ///
    /// Errors: the first rule that the chunk breaks, or `NoMemory`.
    fn end_chunk(&mut self, kind: ChunkKind) -> Result<(), AwsFault>
        ensures ended { OnOk result (after_data self.old kind ≡ Ok self.new) }
        ensures fault { IfErr result (λ e. IsOfImage e → after_data self.old kind ≡ Err e) }
    {
        match kind {
            ChunkKind::Mark => self.record_mark(),
            ChunkKind::Whole => self.end_block(),
            ChunkKind::First | ChunkKind::Middle => self.note_part(),
            ChunkKind::Last => {
                self.note_part()?;
                self.end_block()
            }
        }
    }

    /// Reads the data of the chunk with this header.
    ///
    /// Errors: the first rule that the chunk breaks, `Unreadable`, or `NoMemory`.
    fn data<R: Read>(&mut self, header: Header, source: &mut R) -> Result<(), AwsFault>
        requires { length self.old.block + header.len ≤ 65_535 }
        ensures { ReadsData self.old self.new header (R.remaining source.old) (R.remaining source.new) result }
    {
        self.fetch(header.len, source)?;
        self.end_chunk(header.kind)
    }

    /// Reads the next chunk, and returns how many bytes of data it has; nothing at the end of the image.
    ///
    /// Errors: the first rule that the chunk breaks, `Unreadable`, or `NoMemory`.
    pub fn chunk<R: Read>(&mut self, source: &mut R) -> Result<Option<u16>, AwsFault>
        ensures read { ReadsChunk self.old self.new (R.remaining source.old) (R.remaining source.new) result }
        ensures short { IfOk result (λ found. IfSome found (λ len. len ≤ 65_535)) }
    {
        let mut bytes = [0; HEADER];
        let Ok(count) = fill(source, &mut bytes) else {
            return Err(AwsFault::Unreadable);
        };
        if count == 0 {
            return Ok(None);
        }
        if count < HEADER {
            return Err(AwsFault::HeaderCutShort);
        }
        let header = match self.header(&bytes) {
            Ok(header) => header,
            Err(fault) => return Err(fault),
        };
        match self.data(header, source) {
            Ok(()) => Ok(Some(header.len)),
            Err(fault) => Err(fault),
        }
    }

    /// The tape and the layout after the last chunk.
    ///
    /// Error: `BlockWithoutEnd`.
    pub fn end(self) -> Result<TapeImage, AwsFault>
        ensures { result ≡ image_end self }
    {
        if self.is_open {
            return Err(AwsFault::BlockWithoutEnd);
        }
        Ok(TapeImage {
            tape: self.tape,
            layout: self.layout,
        })
    }
}
