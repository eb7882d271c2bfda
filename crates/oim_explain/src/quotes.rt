//! A quotation mark that opens a text which is never closed.

use oim_files::Folder;
use oim_names::Text;
use oim_places::place_in_file;
use oim_records::PieceReader;
use std::alloc::{AllocError, Global};
use std::io::Read;

/// What is wrong with a record that such a text swallows.
pub(crate) const UNCLOSED: &str = "a quotation mark opens a text that is never closed";

/// How many bytes of a file are looked at once.
const PIECE: usize = 65_536;

/// Where the next byte of a file of records is.
#[derive(Clone, Copy)]
enum FieldPart {
    /// At the start of a field.
    Start,
    /// In a field without quotes, or after the closing quote of one.
    Field,
    /// Inside quotes.
    Quoted,
    /// After a quote inside quotes, which ends them or is doubled.
    Quote,
}

/// Where the reading of a file is.
#[derive(Clone, Copy)]
struct Quotes {
    spot: FieldPart,
    /// The line of the next byte, counted from 1.
    line: u64,
    /// Whether the byte before it is a CR.
    after_cr: bool,
    /// The line of the last quote that opened a text.
    opened: u64,
}

impl Quotes {
    /// Returns where the byte after this one is, and notes a quote that opens a text.
    fn after(&mut self, byte: u8) -> FieldPart {
        match (self.spot, byte) {
            (FieldPart::Start, b'"') => {
                self.opened = self.line;
                FieldPart::Quoted
            }
            (FieldPart::Quoted, b'"') => FieldPart::Quote,
            (FieldPart::Quote, b'"') | (FieldPart::Quoted, _) => FieldPart::Quoted,
            (_, b',' | b'\n' | b'\r') => FieldPart::Start,
            _ => FieldPart::Field,
        }
    }

    /// Reads one more byte.
    fn pass(&mut self, byte: u8) {
        self.spot = self.after(byte);
        if byte == b'\r' || (byte == b'\n' && !self.after_cr) {
            self.line = self.line.saturating_add(1);
        }
        self.after_cr = byte == b'\r';
    }
}

/// Returns the line of the quotation mark that opens a text which the file does not close, or
/// `None` if there is none or the file is not read to its end.
fn unclosed_line<R: Read + Drop>(alloc: Global, reader: R) -> Option<u64> {
    let mut pieces = PieceReader::new(alloc, reader);
    if pieces.skip_mark().is_err() {
        return None;
    }
    let mut quotes = Quotes {
        spot: FieldPart::Start,
        line: 1,
        after_cr: false,
        opened: 0,
    };
    for _ in 0..u64::MAX {
        let Ok(piece) = pieces.next(PIECE, false) else {
            return None;
        };
        let Some(piece) = piece else {
            break;
        };
        for byte in piece.bytes.as_slice() {
            quotes.pass(*byte);
        }
    }
    match quotes.spot {
        FieldPart::Quoted => Some(quotes.opened),
        FieldPart::Start | FieldPart::Field | FieldPart::Quote => None,
    }
}

/// Returns the line that names the quotation mark which opens a text at this line or later that the
/// file at this path does not close, if there is one.
pub(crate) fn unclosed_quote<R: Read + Drop, F: Folder<R>>(
    alloc: Global,
    folder: &mut F,
    path: &str,
    from: Option<u64>,
) -> Result<Option<Text>, AllocError> {
    let Some(reader) = folder.open(path) else {
        return Ok(None);
    };
    let line = match unclosed_line(alloc, reader) {
        Some(line) if line >= from.unwrap_or(1) => line,
        _ => return Ok(None),
    };
    let place = place_in_file(alloc, path, Some(line), None)?;
    let place = place.as_str();
    Ok(Some(Text::new(format!(in alloc; "{place}: the quotation mark that opens it")?)))
}
