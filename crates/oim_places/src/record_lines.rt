//! The lines at which the records of a file begin, found in one pass.

ghost use Rattle.std.specs.Prelude.{◌≡◌, ◌<◌, ◌^◌, ◌-◌, IfOk, IfSome, IfNone, None, Some, true};
ghost use Rattle.oim_places.specs.LineNumbers.{IsLineOf, line_of_record};

use crate::line_number::LineCounter;
use ghost_value::GhostValue;
use oim_records::{PieceReader, ReadFault};
use std::alloc::{AllocError, Global};
use std::io::Read;
use std::marker::Model;
use std::mem;

/// How many bytes of a file are looked at once, or some thousand more, up to the end of a record.
const PIECE: usize = 65_536;

/// A file whose records are passed in order, with the line at which each begins.
///
/// Contracts see the file's bytes, if they are known, and the number of the next record that can be
/// found.
#[derive(Drop)]
pub(crate) struct RecordLines<R: Read + Drop> {
    file: GhostValue<R>,
    pieces: PieceReader<R>,
    piece: Vec<u8>,
    // How many bytes of the piece were passed.
    at: usize,
    lines: LineCounter,
    next: usize,
    // Whether the file has ended, or was not read to its end.
    has_ended: bool,
}

impl<R: Read + Drop> Model for RecordLines<R> {
    ghost use Rattle.std.specs.Prelude.{◌≡◌, ◌≤◌, ◌^◌, ◌-◌, false};
    ghost use Rattle.oim_records.specs.PieceTaking.{bytes_left};
    ghost use Rattle.oim_places.specs.state.RecordLines.{FileLines, IsOn};

    ghost Value = { FileLines };

    ghost view = { λ a. record { file = R.remaining a.file.value; next = a.next } };

    ghost invariant = { λ a. a.has_ended ≡ false → IsOn (R.remaining a.file.value) a.next a.lines a.piece.items a.at (bytes_left a.pieces) };
}

impl<R: Read + Drop> RecordLines<R> {
    /// Starts before the header of a file, whose number is 0. Skips one byte-order mark.
    pub(crate) fn open(alloc: Global, reader: R) -> Result<RecordLines<R>, ReadFault>
        ensures { IfOk result (λ lines. lines.file ≡ R.remaining reader) }
    {
        let file = GhostValue::seen(&reader);
        let mut pieces = PieceReader::new(alloc, reader);
        pieces.skip_mark()?;
        Ok(RecordLines {
            file,
            pieces,
            piece: Vec::new(alloc),
            at: 0,
            lines: LineCounter::of(0),
            next: 0,
            has_ended: false,
        })
    }

    // Looks for the record with this number, and returns whether it may be found.
    fn look_for(&mut self, number: usize) -> bool
        ensures same { self.new.file ≡ self.old.file }
        ensures next { result ≡ true → (self.new.next ≡ number) × (number < 2 ^ 64 - 1) }
    {
        if self.has_ended || number < self.next || number == usize::MAX {
            return false;
        }
        let Some(lines) = self.lines.further(number - self.next) else {
            return false;
        };
        self.lines = lines;
        self.next = number;
        true
    }

    // Passes bytes of the piece until the record begins, at most all. Returns its line.
    fn pass(&mut self) -> Option<u64>
        requires { self.old.next < 2 ^ 64 - 1 }
        ensures same { self.new.file ≡ self.old.file }
        ensures next { IfNone result (self.new.next ≡ self.old.next) }
        ensures line { IfSome result (λ line. IfSome self.old.file (λ bytes. line_of_record self.old.next bytes ≡ Some line)) }
    {
        if self.has_ended {
            return None;
        }
        let (lines, count) = self.lines.until_begun(&self.piece[self.at..]);
        self.at += count;
        let Some(line) = lines.line() else {
            self.lines = lines;
            return None;
        };
        self.lines = lines.resumed();
        self.next += 1;
        Some(line)
    }

    // Takes the next piece if the last one was passed, and returns whether there is one.
    fn load(&mut self) -> Result<bool, AllocError>
        ensures { self.new ≡ self.old }
    {
        if self.has_ended {
            return Ok(false);
        }
        if self.at < self.piece.len() {
            return Ok(true);
        }
        self.has_ended = true;
        let piece = match self.pieces.next(PIECE, false) {
            Ok(Some(piece)) => piece,
            Ok(None) | Err(ReadFault::Read) => return Ok(false),
            Err(ReadFault::Memory) => return Err(AllocError),
        };
        self.pieces
            .keep_spare(mem::replace(&mut self.piece, piece.bytes));
        self.at = 0;
        self.has_ended = false;
        Ok(true)
    }

    /// Returns the line at which the record with this number begins, which is not before one that
    /// was found. Returns `None` if the record does not exist or the reader fails.
    ///
    /// After the end or a failure no record is found.
    pub(crate) fn line_of(&mut self, number: usize) -> Result<Option<u64>, AllocError>
        ensures same { self.new.file ≡ self.old.file }
        ensures line { IfSome self.old.file (λ bytes. IfOk result (IsLineOf number bytes)) }
    {
        if !self.look_for(number) {
            return Ok(None);
        }
        for _ in 0..u64::MAX {
            if let Some(line) = self.pass() {
                return Ok(Some(line));
            }
            if !self.load()? {
                return Ok(None);
            }
        }
        Err(AllocError)
    }
}
