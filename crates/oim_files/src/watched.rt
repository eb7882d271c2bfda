//! A reader that remembers whether one of its reads failed.

ghost use Rattle.std.specs.Prelude.{◌≡◌, ◌≢◌, false, true};

use std::io::{self, ErrorKind, Read};

/// A reader, and whether one of its reads failed for another reason than that it was interrupted or
/// that memory ran out.
#[derive(Drop)]
pub(crate) struct Watched<R: Read + Drop> {
    reader: R,
    has_failed: bool,
}

/// Returns whether an error of this kind is a failed read.
fn is_failure(kind: ErrorKind) -> bool
    ensures interrupted { kind ≡ ErrorKind.Interrupted → result ≡ false }
    ensures memory { kind ≡ ErrorKind.OutOfMemory → result ≡ false }
    ensures failed { kind ≢ ErrorKind.Interrupted → kind ≢ ErrorKind.OutOfMemory → result ≡ true }
{
    match kind {
        ErrorKind::Interrupted | ErrorKind::OutOfMemory => false,
        _ => true,
    }
}

impl<R: Read + Drop> Watched<R> {
    /// Watches a reader. No read has failed yet.
    pub(crate) fn new(reader: R) -> Watched<R>
        ensures { (result.reader ≡ reader) × (result.has_failed ≡ false) }
    {
        Watched {
            reader,
            has_failed: false,
        }
    }

    /// Returns whether a read has failed.
    pub(crate) fn has_failed(&self) -> bool
        ensures { result ≡ self.now.has_failed }
    {
        self.has_failed
    }
}

impl<R: Read + Drop> Read for Watched<R> {
    ghost use Rattle.std.specs.Prelude.{◌≡◌, ◌≢◌, IfErr, IfOk, true};
    ghost use Rattle.std.specs.Io.{ReadsAtMost};
    ghost use Rattle.std.specs.Io.KnownBytes.{ReadConsumes};
    ghost use Rattle.std.specs.IoError.{error_kind};

    ghost remaining = { λ w. R.remaining w.reader };

    fn read(&mut self, buf: &mut [u8]) -> io::Result<usize>
        ensures bound { ReadsAtMost result buf.new }
        ensures bytes { ReadConsumes (R.remaining self.old.reader) (R.remaining self.new.reader) result buf.new }

        // Exactly a failed read is remembered.
        ensures failed { IfErr result (λ e. error_kind e ≢ ErrorKind.Interrupted → error_kind e ≢ ErrorKind.OutOfMemory → self.new.has_failed ≡ true) }
        ensures interrupted { IfErr result (λ e. error_kind e ≡ ErrorKind.Interrupted → self.new.has_failed ≡ self.old.has_failed) }
        ensures memory { IfErr result (λ e. error_kind e ≡ ErrorKind.OutOfMemory → self.new.has_failed ≡ self.old.has_failed) }
        ensures read { IfOk result (λ _. self.new.has_failed ≡ self.old.has_failed) }
    {
        match self.reader.read(buf) {
            Ok(count) => Ok(count),
            Err(error) => {
                if is_failure(error.kind()) {
                    self.has_failed = true;
                }
                Err(error)
            }
        }
    }
}
