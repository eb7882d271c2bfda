//! Plain paths: relative file paths that mean the same as URLs.

ghost use Rattle.std.specs.Prelude.{◌≡◌};
ghost use Rattle.std.specs.List.{list_any};
ghost use Rattle.oim_names.specs.PlainPath.{is_barred as barred, is_bad_segment as bad_segment, first_segment, later_segments, is_plain_path as plain_path};

/// Returns whether a path has a control character or one of `\ : ? # %`.
fn has_barred(path: &[u8]) -> bool
    ensures { result ≡ list_any barred path.now }
{
    for byte in path {
        if *byte < 32 || matches!(*byte, b'\\' | b':' | b'?' | b'#' | b'%') {
            return true;
        }
    }
    false
}

/// Returns whether the first segment of a text is empty, `.` or `..`.
fn begins_badly(text: &[u8]) -> bool
    ensures { result ≡ bad_segment (first_segment text.now) }
{
    matches!(
        text,
        [] | [b'/', ..] | [b'.'] | [b'.', b'/', ..] | [b'.', b'.'] | [b'.', b'.', b'/', ..]
    )
}

/// Returns whether such a segment follows a slash.
fn goes_on_badly(path: &[u8]) -> bool
    ensures { result ≡ list_any bad_segment (later_segments path.now) }
{
    for i in 0..path.len() {
        if path[i] == b'/' && begins_badly(&path[i + 1..]) {
            return true;
        }
    }
    false
}

/// Returns whether a path is relative and plain, so that it means the same as a URL and as a file
/// path.
///
/// It has no control character (U+0000 to U+001F), none of `\ : ? # %`, and no segment that is
/// empty, `.` or `..`.
#[tactic(auto, unfolding(crate::specs::PlainPath::is_plain_path))]
pub fn is_plain_path(path: &str) -> bool
    ensures { result ≡ plain_path path.now }
{
    let bytes = path.as_bytes();
    !has_barred(bytes) && !begins_badly(bytes) && !goes_on_badly(bytes)
}
