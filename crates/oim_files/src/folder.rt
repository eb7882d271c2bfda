//! Folders, from which the files of a report are read.

ghost use Rattle.std.specs.Prelude.{◌≡◌, ℕ, List, Option, Some, None, IfSome, option_map, string_bytes};
ghost use Rattle.oim_files.specs.Folders.{IsFolderOf, first_at};
ghost use Rattle.oim_records.specs.Reads.{IsFileOf};

use std::io::Read;

/// Files by their paths. Opening a file changes none of them.
pub trait Folder<R: Read> {
    /// The bytes of the file at each path, if they are known.
    ghost files: { Self → Option (List ℕ → Option (List ℕ)) } = { λ _. None };

    /// Opens the file at the path.
    ///
    /// Returns a reader of exactly its bytes, or `None` exactly if the file does not exist.
    fn open(&mut self, path: &str) -> Option<R>
        ensures same { files self.new ≡ files self.old }
        ensures opens { IfSome (files self.old) (λ at. IsFileOf R.remaining result (at path.now)) };

    /// Finds the file at the path.
    ///
    /// Returns a reader of exactly its bytes, or `None` exactly if the file does not exist. By
    /// default it opens the file. A folder may do it another way: its reader may open the file at
    /// the first read, so that not all files are open at once.
    fn find(&mut self, path: String) -> Option<R>
        ensures same { files self.new ≡ files self.old }
        ensures finds { IfSome (files self.old) (λ at. IsFileOf R.remaining result (at (string_bytes path))) }
    {
        self.open(path.as_str())
    }
}

/// Files in memory, each with its path. If two have the same path, the first counts.
#[derive(Clone, Copy)]
pub struct Texts<'a> {
    /// The paths with the bytes.
    pub files: &'a [(&'a str, &'a [u8])],
}

/// Returns the bytes of the first file with this path.
fn bytes_at<'a>(files: &'a [(&'a str, &'a [u8])], path: &str) -> Option<&'a [u8]>
    ensures { option_map (λ b. b.now) result ≡ first_at files.now path.now }
{
    match files.split_first() {
        None => None,
        Some((first, rest)) => {
            if first.0 == path {
                Some(first.1)
            } else {
                bytes_at(rest, path)
            }
        }
    }
}

impl<'a> Folder<&'a [u8]> for Texts<'a> {
    ghost files = { λ s. Some (first_at s.files.now) };

    fn open(&mut self, path: &str) -> Option<&'a [u8]> {
        bytes_at(self.files, path)
    }
}

/// Returns the folder of the file at a path: the path up to and including its last `/`, or the
/// empty text if it has none.
pub fn folder_of(path: &str) -> &str
    ensures { IsFolderOf result.now path.now }
{
    match path.rfind('/') {
        Some(at) => &path[..at + 1],
        None => "",
    }
}
