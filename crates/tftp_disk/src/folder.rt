//! The path of the folder of a path.

ghost use Rattle.std.specs.Prelude.{◌≡◌};
ghost use Rattle.tftp_disk.specs.Folder.{IsFolderOf, folder_or_root};

/// The path of the folder of a path: what is before its last slash, or `.` without a slash.
pub fn folder_of(path: &str) -> &str
    ensures { IsFolderOf path.now result.now }
{
    match path.rsplit_once('/') {
        Some((folder, _)) => folder_or_root(folder),
        None => ".",
    }
}

/// The path of a folder that was cut before a slash, as a path of the system.
pub fn folder_or_root(path: &str) -> &str
    ensures { result.now ≡ folder_or_root path.now }
{
    if path.is_empty() { "/" } else { path }
}
