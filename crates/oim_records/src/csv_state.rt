//! The states of a scan for cuts, which follow the machine that reads records.

ghost use Rattle.std.specs.Prelude.{◌≡◌};
ghost use Rattle.oim_records.specs.state.Places.{ends_record, place_after};

/// The state of a scan: between two records, at the start of a later field, in a field, inside
/// quotes, or after a quote inside quotes.
#[derive(Clone, Copy, PartialEq, Eq, Debug, Drop)]
pub(crate) enum CsvState {
    Between,
    FieldStart,
    Field,
    Quoted,
    QuoteSeen,
}

/// Returns the state after `byte`.
#[inline(always)]
pub(crate) fn step(place: CsvState, byte: u8) -> CsvState
    ensures { result ≡ place_after place byte }
{
    match place {
        CsvState::Quoted => {
            if byte == b'"' {
                return CsvState::QuoteSeen;
            }
            return CsvState::Quoted;
        }
        CsvState::Field => {}
        CsvState::Between | CsvState::FieldStart | CsvState::QuoteSeen => {
            if byte == b'"' {
                return CsvState::Quoted;
            }
        }
    }
    match byte {
        b',' => CsvState::FieldStart,
        b'\n' | b'\r' => CsvState::Between,
        _ => CsvState::Field,
    }
}

/// Returns whether `byte` ends a record.
#[inline(always)]
pub(crate) fn ends(place: CsvState, byte: u8) -> bool
    ensures { result ≡ ends_record place byte }
{
    match place {
        CsvState::Between | CsvState::Quoted => false,
        CsvState::FieldStart | CsvState::Field | CsvState::QuoteSeen => byte == b'\n'
            || byte == b'\r',
    }
}
