//! The count of the records of a CSV file, byte by byte.

ghost use Rattle.std.specs.Prelude.{◌≡◌};
ghost use Rattle.xbrl_json_cli.specs.RecordCounts.{all_passed, at_field, count_after, ends_record, in_field, records_in, state_after};

/// Where a CSV file is: in its byte-order mark, between two records, at the start of a later field,
/// in a field, inside quotes, or after a quote inside quotes.
#[derive(Clone, Copy, PartialEq, Eq, Drop)]
pub enum RecordState {
    /// At the start of the file.
    Start,
    /// After the first byte of a byte-order mark.
    MarkBegun,
    /// After its second byte.
    MarkHalf,
    Between,
    FieldStart,
    Field,
    Quoted,
    QuoteSeen,
}

/// The state of a count: where the file is, and how many records have ended.
#[derive(Clone, Copy, Drop)]
pub struct RecordCount {
    pub state: RecordState,
    /// At most 2^64 - 1.
    pub ended: u64,
}

/// The count before a file's first byte.
pub const NO_RECORDS: RecordCount = RecordCount {
    state: RecordState::Start,
    ended: 0,
};

/// Returns the state after a byte in a field.
#[inline(always)]
fn within_field(byte: u8) -> RecordState
    ensures { result ≡ in_field byte }
{
    match byte {
        b',' => RecordState::FieldStart,
        b'\n' | b'\r' => RecordState::Between,
        _ => RecordState::Field,
    }
}

/// Returns the state after a byte at the start of a field.
#[inline(always)]
fn at_start(byte: u8) -> RecordState
    ensures { result ≡ at_field byte }
{
    if byte == b'"' {
        RecordState::Quoted
    } else {
        within_field(byte)
    }
}

/// Returns the state after a byte.
#[inline(always)]
fn moved(state: RecordState, byte: u8) -> RecordState
    ensures { result ≡ state_after state byte }
{
    match state {
        RecordState::Start if byte == 0xEF => RecordState::MarkBegun,
        RecordState::MarkBegun if byte == 0xBB => RecordState::MarkHalf,
        RecordState::MarkHalf if byte == 0xBF => RecordState::Between,
        RecordState::Start | RecordState::Between | RecordState::FieldStart => at_start(byte),
        RecordState::MarkBegun | RecordState::MarkHalf | RecordState::Field => within_field(byte),
        RecordState::Quoted if byte == b'"' => RecordState::QuoteSeen,
        RecordState::Quoted => RecordState::Quoted,
        RecordState::QuoteSeen if byte == b'"' => RecordState::Quoted,
        RecordState::QuoteSeen => within_field(byte),
    }
}

/// Returns whether a byte ends a record.
#[inline(always)]
fn ends(state: RecordState, byte: u8) -> bool
    ensures { result ≡ ends_record state byte }
{
    match state {
        RecordState::Start | RecordState::Between | RecordState::Quoted => false,
        _ => byte == b'\n' || byte == b'\r',
    }
}

/// Returns the count after a byte.
#[inline(always)]
pub fn after_byte(count: RecordCount, byte: u8) -> RecordCount
    ensures { result ≡ count_after count byte }
{
    let ended = if ends(count.state, byte) {
        count.ended.saturating_add(1)
    } else {
        count.ended
    };
    RecordCount {
        state: moved(count.state, byte),
        ended,
    }
}

/// Returns the count after these bytes.
pub fn after_bytes(count: RecordCount, bytes: &[u8]) -> RecordCount
    ensures { result ≡ all_passed count bytes.now }
{
    let mut now = count;
    for byte in bytes {
        now = after_byte(now, *byte);
    }
    now
}

/// Returns the number of records of a file that ends here: those that ended, and one that began.
pub fn records(count: RecordCount) -> u64
    ensures { result ≡ records_in count }
{
    match count.state {
        RecordState::Start | RecordState::Between => count.ended,
        _ => count.ended.saturating_add(1),
    }
}
