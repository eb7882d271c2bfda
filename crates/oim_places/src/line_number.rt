//! The line of a file at which a record begins, counted over its bytes.

ghost use Rattle.std.specs.Prelude.{◌≡◌, ◌≤◌, IfSome, false, fold, length, take, true};
ghost use Rattle.oim_records.specs.Lines.{ends_line};
ghost use Rattle.oim_places.specs.LineNumbers as spec;
ghost use Rattle.oim_places.specs.LineNumbers.{after_byte, after_spot, counter_for};
ghost use Rattle.oim_places.specs.state.RecordLines as steps;
ghost use Rattle.oim_places.specs.state.RecordLines.{StopsAt};

/// Where the next byte of a file of records is.
#[derive(Clone, Copy)]
pub(crate) enum Spot {
    /// Between records: the next byte begins one, unless it ends a line.
    Between,
    /// At the start of a field after a comma.
    Start,
    /// In a field without quotes, or after the closing quote of one.
    Field,
    /// Inside quotes.
    Quoted,
    /// After a quote inside quotes, which ends them or is doubled.
    Quote,
}

/// Counts lines until the record that is looked for begins.
#[derive(Clone, Copy)]
pub(crate) struct LineCounter {
    /// Where the next byte is.
    spot: Spot,
    /// Whether the byte before it is a CR, so that an LF here ends no further line.
    after_cr: bool,
    /// The line of the next byte, counted from 1.
    line: u64,
    /// How many records begin before the one that is looked for.
    before: usize,
    /// Whether that one has begun, at this line.
    has_begun: bool,
}

/// Returns whether a byte ends a line: LF, CR.
fn is_end(byte: u8) -> bool
    ensures { result ≡ ends_line byte }
{
    byte == b'\n' || byte == b'\r'
}

/// Returns where the byte after this one is. This one is not a quote, and is outside of quotes.
fn after_plain(byte: u8) -> Spot
    ensures { result ≡ spec.after_plain byte }
{
    if is_end(byte) {
        Spot::Between
    } else if byte == b',' {
        Spot::Start
    } else {
        Spot::Field
    }
}

/// Returns where the byte after a quote is.
fn after_quote(spot: Spot) -> Spot
    ensures { result ≡ spec.after_quote spot }
{
    match spot {
        Spot::Between | Spot::Start | Spot::Quote => Spot::Quoted,
        Spot::Quoted => Spot::Quote,
        Spot::Field => Spot::Field,
    }
}

/// Returns where the byte after this one is.
fn after(spot: Spot, byte: u8) -> Spot
    ensures { result ≡ after_spot spot byte }
{
    if byte == b'"' {
        return after_quote(spot);
    }
    match spot {
        Spot::Quoted => Spot::Quoted,
        Spot::Between | Spot::Start | Spot::Field | Spot::Quote => after_plain(byte),
    }
}

/// Returns whether a record begins with this byte.
fn begins(spot: Spot, byte: u8) -> bool
    ensures { result ≡ spec.begins spot byte }
{
    match spot {
        Spot::Between => !is_end(byte),
        Spot::Start | Spot::Field | Spot::Quoted | Spot::Quote => false,
    }
}

impl LineCounter {
    /// Looks for the record with this number, the header being 0, from the start of a file.
    pub(crate) fn of(number: usize) -> LineCounter
        ensures { result ≡ counter_for number }
    {
        LineCounter {
            spot: Spot::Between,
            after_cr: false,
            line: 1,
            before: number,
            has_begun: false,
        }
    }

    /// Returns the line of the byte after this one.
    fn line_after(self, byte: u8) -> u64
        ensures { result ≡ spec.line_after self byte }
    {
        if is_end(byte) && !(self.after_cr && byte == b'\n') {
            self.line.saturating_add(1)
        } else {
            self.line
        }
    }

    /// Returns the counter after one more byte, before the record begins.
    fn moved(self, byte: u8) -> LineCounter
        ensures { result ≡ spec.one_byte_on self byte }
    {
        LineCounter {
            spot: after(self.spot, byte),
            after_cr: byte == b'\r',
            line: self.line_after(byte),
            before: if begins(self.spot, byte) {
                self.before.saturating_sub(1)
            } else {
                self.before
            },
            has_begun: self.before == 0 && begins(self.spot, byte),
        }
    }

    /// Returns the counter after one more byte.
    fn next(self, byte: u8) -> LineCounter
        ensures { result ≡ after_byte self byte }
    {
        if self.has_begun {
            self
        } else {
            self.moved(byte)
        }
    }

    /// Returns whether it is clear that nothing changes with this byte. Most bytes of a field are
    /// such, and are passed much faster.
    fn stays(self, byte: u8) -> bool
        ensures { result ≡ true → after_byte self byte ≡ self }
    {
        byte > b',' && !self.after_cr && matches!(self.spot, Spot::Field | Spot::Quoted)
    }

    /// Reads bytes of the file until the record begins, at most all. Returns the counter after them
    /// and how many they are.
    pub(crate) fn until_begun(self, bytes: &[u8]) -> (LineCounter, usize)
        requires { self.has_begun ≡ false }
        ensures within { result.1 ≤ length bytes.now }
        ensures counter { result.0 ≡ fold after_byte self (take result.1 bytes.now) }
        ensures found { result.0.has_begun ≡ true → StopsAt self bytes.now result.1 }
        ensures all { result.0.has_begun ≡ false → result.1 ≡ length bytes.now }
    {
        let mut lines = self;
        let mut at = 0;
        while at < bytes.len() {
            let byte = bytes[at];
            at += 1;
            if lines.stays(byte) {
                continue;
            }
            lines = lines.next(byte);
            if lines.has_begun {
                return (lines, at);
            }
        }
        (lines, at)
    }

    /// Returns the counter for the record that many after the one that is looked for, which has not
    /// begun. Returns `None` if the number is too large.
    pub(crate) fn further(self, records: usize) -> Option<LineCounter>
        ensures { IfSome result (λ c. c ≡ steps.further records self) }
    {
        Some(LineCounter {
            before: self.before.checked_add(records)?,
            ..self
        })
    }

    /// Returns the counter for the next record, after the first byte of the one that has begun.
    pub(crate) fn resumed(self) -> LineCounter
        ensures { result ≡ steps.resumed self }
    {
        LineCounter {
            has_begun: false,
            ..self
        }
    }

    /// Returns the line at which the record begins, if it has begun.
    pub(crate) fn line(&self) -> Option<u64>
        ensures { result ≡ spec.line_in self.now }
    {
        if self.has_begun {
            Some(self.line)
        } else {
            None
        }
    }
}

/// Proves that the line of a record (`line_of_record`) is that of its first byte.
///
/// After the bytes before it, which end the lines before it, the file's text has the records that
/// are left from this one on. A number without a line belongs to no record. The call does nothing.
pub fn lines_are_of_records()
    ensures { spec.LineLaw }
{}
