//! The files of a report, as a caller hands them over.

ghost use Rattle.std.specs.Prelude.{◌≡◌, List, ℕ, Option, Some, option_map};
ghost use Rattle.xbrl_json_c.specs.Answers.{files_at};

use oim_files::Folder;

/// A file: its path, and its bytes.
#[repr(C)]
#[derive(Clone, Copy)]
pub struct File<'a> {
    pub path: &'a [u8],
    pub bytes: &'a [u8],
}

/// A folder of these files. If two have the same path, the first counts.
#[derive(Clone, Copy)]
pub(crate) struct Files<'a> {
    pub(crate) files: &'a [File<'a>],
}

/// Returns the bytes of the first file with this path.
fn bytes_at<'a>(files: &'a [File<'a>], path: &[u8]) -> Option<&'a [u8]>
    ensures { option_map (λ b. b.now) result ≡ files_at files.now path.now }
{
    for file in files {
        if file.path == path {
            return Some(file.bytes);
        }
    }
    None
}

impl<'a> Folder<&'a [u8]> for Files<'a> {
    ghost files = { λ s. Some (files_at s.files.now) };

    fn open(&mut self, path: &str) -> Option<&'a [u8]> {
        bytes_at(self.files, path.as_bytes())
    }
}
