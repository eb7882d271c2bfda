//! The size limits of a report.

ghost use Rattle.std.specs.Prelude.{◌≡◌};

/// The size limits of a report. A value equal to its limit is accepted.
#[derive(Clone, Copy, Debug, PartialEq, Eq)]
pub struct Limits {
    /// Rows of one table. Calls that take limits require at most 4,294,967,294.
    pub rows: u32,
    /// Tables of a report.
    pub tables: usize,
    /// Columns of a template.
    pub columns: usize,
    /// Bytes of the metadata file.
    pub metadata: usize,
}

impl Limits {
    /// Returns the limits of this profile: 100,000,000 rows, 4,096 tables, 4,096 columns,
    /// 67,108,864 bytes.
    pub fn profile() -> Limits
        ensures { result ≡ record { rows = 100_000_000; tables = 4_096; columns = 4_096; metadata = 67_108_864 } }
    {
        Limits {
            rows: 100_000_000,
            tables: 4_096,
            columns: 4_096,
            metadata: 67_108_864,
        }
    }
}
