//! The answer that a caller gets.

ghost use Rattle.std.specs.Prelude.{◌≡◌, []};
ghost use Rattle.xbrl_json_c.specs.Answers.{IsEmpty};

/// How a conversion ended. The caller frees each text by `free` if its length is not 0.
#[repr(C)]
#[derive(Clone, Copy)]
pub struct CallAnswer {
    /// The exit status of the program: 0 if the document is written, 1 if the report has a fault or
    /// a table is refused, 2 if the call is wrong, and 3 if memory runs out or the metadata, the
    /// types table or the parameters file does not exist.
    pub status: u32,
    /// The document: whole with status 0. With refused tables it is unfinished, up to and including
    /// the first of them.
    pub document: &'static [u8],
    /// What the program prints with `--explain`: the line of each fault, and what there is to say
    /// of it. Empty if memory runs out for it.
    pub lines: &'static [u8],
    /// The file that the program writes with `--faults`: with status 0 and 1 its header, and a
    /// record of each fault. Empty if memory runs out for it.
    pub faults: &'static [u8],
}

/// The texts of a run's faults: the lines for a person, and the records.
#[derive(Drop)]
pub(crate) struct FaultTexts {
    pub(crate) lines: Vec<u8>,
    pub(crate) faults: Vec<u8>,
}

/// Hands out the bytes of a vector, which are the caller's from then on.
fn handed_out(bytes: Vec<u8>) -> &'static [u8]
    ensures { result.now ≡ bytes.items }
{
    if bytes.is_empty() {
        return b"";
    }
    bytes.leak()
}

impl CallAnswer {
    /// Returns the answer to a call that is wrong.
    pub(crate) fn refused() -> CallAnswer
        ensures status { result.status ≡ 2 }
        ensures empty { IsEmpty result }
    {
        CallAnswer {
            status: 2,
            document: b"",
            lines: b"",
            faults: b"",
        }
    }

    /// Returns the answer with this status, document and faults.
    pub(crate) fn of(status: u8, document: Vec<u8>, texts: FaultTexts) -> CallAnswer
        ensures status { result.status ≡ status }
        ensures document { result.document.now ≡ document.items }
    {
        let FaultTexts { lines, faults } = texts;
        CallAnswer {
            status: u32::from(status),
            document: handed_out(document),
            lines: handed_out(lines),
            faults: handed_out(faults),
        }
    }
}
