//! Replaces a file of the system atomically.

ghost use Rattle.std.specs.Prelude.{◌≡◌, ◌≢◌, ◌⊎◌, ◌↔◌, ◌/◌, bit_and, bit_or, false, true};

use crate::atomic_target::AtomicTarget;
use crate::paths::{file_at, folder_and_name, led_to};
use crate::unfinished::unfinished_path;
use std::fs::{Metadata, OpenFile, OpenOptions, Permissions};
use std::os::unix::fs::{MetadataExt, OpenOptionsExt, PermissionsExt};
use std::rt::Files;
use std::{fs, io};

/// The number of names that are tried for the new file. The files that interrupted commands have left never take all of them.
const NAMES: u32 = 1_000_000;

/// The mode of a file that did not exist before; the process's umask applies.
const NEW_MODE: u32 = 0o666;

/// The mode of a new file until it has the permissions of the old one.
const PRIVATE_MODE: u32 = 0o600;

/// A path with or without a file. The new text is written to another file in the same folder, which then replaces the file, or is removed if the text is
/// discarded.
#[derive(Drop)]
pub struct AtomicFile<'a, R: Files> {
    files: &'a R,
    path: String,
    old: Option<Metadata>,
    beside: String,
}

impl<'a, R: Files + AllocGlobal> AtomicFile<'a, R> {
    /// The place at a path. A link is followed, also one to a file that does not exist yet. It is an error if the path has something other than a file,
    /// such as a device or a folder, or if it cannot be examined, as with a link to itself.
    pub fn new(files: &'a R, path: &str) -> io::Result<AtomicFile<'a, R>> {
        let old = file_at(files, path)?;
        Ok(AtomicFile {
            files,
            path: led_to(files, path)?,
            old,
            beside: String::new(files.alloc()),
        })
    }

    fn folder(&self) -> &str {
        folder_and_name(self.path.as_str()).0
    }

    // Several runs may write to the same folder, so an existing name is left alone.
    fn create(&mut self) -> io::Result<R::File> {
        let mode = if self.old.is_some() {
            PRIVATE_MODE
        } else {
            NEW_MODE
        };
        let mut last = io::Error::from(io::ErrorKind::AlreadyExists);
        for number in 0..NAMES {
            self.beside = unfinished_path(self.files.alloc(), self.folder(), number)?;
            match create_new(self.files, self.beside.as_str(), mode) {
                Err(fault) if fault.kind() == io::ErrorKind::AlreadyExists => last = fault,
                done => return done,
            }
        }
        Err(last)
    }

    fn remove(&self) {
        // If the file cannot be removed, it remains.
        let _ = fs::remove_file(self.files, self.beside.as_str());
    }

    // Prepares the replacement of a file. The system would replace a file without asking for the right to write to it, and would report a file that
    // may not be replaced only in the end.
    fn prepare(&self, file: &R::File, old: &Metadata) -> io::Result<()> {
        let mut options = OpenOptions::new();
        options.write(true);
        options.open(self.files, self.path.as_str())?;
        let folder = fs::metadata(self.files, self.folder())?;
        let user = file.metadata()?.uid();
        if !may_replace(user, old.uid(), folder.uid(), folder.mode()) {
            return Err(io::Error::from(io::ErrorKind::PermissionDenied));
        }
        take_access(self.files, self.beside.as_str(), file, old)
    }

    // Whether the new file still has its name. A command that could not lock the folder loses the file to one that removes what is left over.
    fn has_name(&self, file: &R::File) -> bool {
        match (
            fs::metadata(self.files, self.beside.as_str()),
            file.metadata(),
        ) {
            (Ok(there), Ok(ours)) => there.dev() == ours.dev() && there.ino() == ours.ino(),
            _ => false,
        }
    }

    fn put(&self, text: &R::File) -> io::Result<()> {
        text.sync_all()?;
        fs::rename(self.files, self.beside.as_str(), self.path.as_str())
    }

    // The rename itself must reach the device, too; some file systems cannot sync a folder.
    fn sync_folder(&self) {
        if let Ok(folder) = fs::open(self.files, self.folder()) {
            let _ = folder.sync_all();
        }
    }
}

fn create_new<R: Files>(files: &R, path: &str, mode: u32) -> io::Result<R::File> {
    let mut options = OpenOptions::new();
    options.write(true).create_new(true).mode(mode);
    options.open(files, path)
}

/// Gives the new file the group, the owner and the permissions of the old one, so that nobody can read the new text who could not read the old one. The
/// system lets few users give a file away, and only to some groups: the owner then changes, and a group that cannot be kept has no permissions.
fn take_access<R: Files>(files: &R, path: &str, file: &R::File, old: &Metadata) -> io::Result<()> {
    // Another user may have put a link in the file's place, which these calls do not follow.
    let _ = files.lchown(path, None, Some(old.gid()));
    let _ = files.lchown(path, Some(old.uid()), None);
    let keeps_group = file.metadata()?.gid() == old.gid();
    let mode = mode_after(old.mode(), keeps_group);
    file.set_permissions(Permissions::from_mode(mode))
}

/// The mode of a file that replaces one with this mode: only the permissions of the owner, the group and the others. Without its group, the members of the
/// old group are among the others, who thus have no more than the group had.
fn mode_after(mode: u32, keeps_group: bool) -> u32
    ensures kept { keeps_group ≡ true → result ≡ bit_and mode 0o777 }
    ensures lost { keeps_group ≡ false
        → result ≡ bit_or (bit_and mode 0o700) (bit_and (bit_and mode (mode / 8)) 0o007) }
{
    if keeps_group {
        return mode & 0o777;
    }
    let group_as_others = mode / 8;
    (mode & 0o700) | (mode & group_as_others & 0o007)
}

/// The flag of a folder in which only root and the owners of the folder and of a file replace that file.
const RESTRICTED: u32 = 0o1000;

/// Whether the system lets a user replace a file of this owner in a folder of this owner and mode to which the user may write.
fn may_replace(user: u32, file_owner: u32, folder_owner: u32, folder_mode: u32) -> bool
    ensures free { bit_and folder_mode 0o1000 ≡ 0 → result ≡ true }
    ensures restricted { bit_and folder_mode 0o1000 ≢ 0
        → (result ≡ true ↔ ((user ≡ 0) ⊎ ((user ≡ file_owner) ⊎ (user ≡ folder_owner)))) }
{
    if folder_mode & RESTRICTED == 0 {
        return true;
    }
    user == 0 || user == file_owner || user == folder_owner
}

impl<R: Files + AllocGlobal> AtomicTarget for AtomicFile<'_, R> {
    type Text = R::File;

    fn begin(&mut self) -> io::Result<R::File> {
        let file = self.create()?;
        if let Some(old) = self.old.take()
            && let Err(fault) = self.prepare(&file, &old)
        {
            self.remove();
            return Err(fault);
        }
        Ok(file)
    }

    fn commit(&mut self, text: R::File) -> io::Result<()> {
        if !self.has_name(&text) {
            return Err(io::Error::from(io::ErrorKind::NotFound));
        }
        let done = self.put(&text);
        match done {
            Ok(()) => self.sync_folder(),
            Err(_) => self.remove(),
        }
        done
    }

    fn discard(&mut self, text: R::File) {
        if self.has_name(&text) {
            self.remove();
        }
    }
}
