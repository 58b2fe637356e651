//! Which paths are below a folder.

ghost use Rattle.std.specs.Prelude.{◌≡◌, true};
ghost use Rattle.tftp_folder.specs.Uploads.{IsBelow};

/// Whether the path is that of a file in this folder or below.
pub(crate) fn is_below(folder: &[u8], path: &[u8]) -> bool
    ensures { result ≡ true → IsBelow folder.now path.now }
{
    match path.strip_prefix(folder) {
        Some([first, ..]) => *first == b'/',
        _ => false,
    }
}
