// A flow saved in the file that it was read from: it is written to a new file beside it, which then takes its name, so that the file holds either the old flow or the new
// one, whole. Two programs at once are kept apart by the launcher, which locks the folder before the program is there.
use crate::Command;
use crate::reading::{LONGEST_NAME, path_at, text_of};
use crate::saving::{create_beside, known_of, put_name, remove, rename, stored};
use layout::Flow;
use std::fs::{File, Metadata, OpenOptions, Permissions};
use std::io;
use std::os::fd::AsRawFd;
use std::os::unix::fs::{MetadataExt, PermissionsExt, fchown};

// Whose a file is, and who may use it.
#[derive(Clone, Copy)]
pub struct Access {
    pub owner: u32,
    pub group: u32,
    pub mode: u32,
}

// A file that is to be replaced by another: it is open, and its access.
#[derive(Drop)]
pub struct Old {
    pub file: File,
    pub access: Access,
}

// The file that a command replaces by another: its name, and the access that the other is given.
#[derive(Clone, Copy)]
pub struct Target<'a> {
    pub command: Command<'a>,
    pub path: &'a [u8],
    pub access: Access,
}

// A file that is open for reading and writing.
fn opened(rt: &HostRuntime, path: &[u8]) -> io::Result<File> {
    OpenOptions::new()
        .read(true)
        .write(true)
        .open(rt, text_of(path)?)
}

// What the system knows of a regular file; nothing where it is none, or the system does not tell.
fn status_of(file: &File) -> Option<Metadata> {
    match file.metadata() {
        Ok(known) if known.is_file() => Some(known),
        _ => None,
    }
}

// An open file with what the system knows of it.
fn old_file(file: File, status: Metadata) -> Old {
    Old {
        file,
        access: Access {
            owner: status.uid(),
            group: status.gid(),
            mode: status.mode() & 0o777,
        },
    }
}

// Gives a new file to those who had the old one, and answers whether it could. The system may keep the owner from being changed; then the group at least is.
fn given_back(file: &File, owner: u32, group: u32) -> bool {
    if fchown(file, Some(owner), Some(group)).is_ok() {
        return true;
    }
    let _ = fchown(file, None, Some(group));
    false
}

// Gives a new file the old one's mode and the flow, and waits until the device has it.
fn filled(file: &mut File, mode: u32, flow: &[u8]) -> io::Result<()> {
    file.set_permissions(Permissions::from_mode(mode))?;
    stored(file, flow)
}

impl Command<'_> {
    // Opens a file for writing too, so that a file that may not be written is not replaced. A descriptor below 3 is that of an input or an output that was closed: what is
    // printed would go into the file. None, with one line on standard error, where it cannot be changed.
    fn open_update(&self, path: &[u8]) -> Option<File> {
        match opened(self.rt, path) {
            Ok(file) => self.apart(path, file),
            Err(why) => {
                self.unsaved(path, b" cannot be changed", why);
                None
            }
        }
    }

    // An open file that stands where no input or output does; closed, with one line on standard error, where it stands there.
    fn apart(&self, path: &[u8], file: File) -> Option<File> {
        if file.as_raw_fd() < 3 {
            drop(file);
            self.tell_of(
                path,
                b" is as it was: standard input, output and error must be open\n",
            );
            return None;
        }
        Some(file)
    }

    // Says in one line on standard error why a file cannot be replaced.
    fn turned_down(&self, path: &[u8], why: &[u8]) -> Option<Old> {
        self.tell_of(path, why);
        None
    }

    // Opens a file that is to be replaced by another. Only a regular file can be, and at a link, the new file would take the place of the link and
    // not of the file behind it. Where it cannot be replaced, one line on standard error says so, and there is none.
    pub fn open_old(&self, path: &[u8]) -> Option<Old> {
        let file = self.open_update(path)?;
        if known_of(self.rt, path).is_ok_and(|known| known.is_symlink()) {
            return self.turned_down(path, b" is a link: name the file itself\n");
        }
        match status_of(&file) {
            Some(status) => Some(old_file(file, status)),
            None => self.turned_down(path, b" is not a regular file\n"),
        }
    }

    // Changes the flow in a file, which stays open meanwhile: what it gives up to one byte more than the longest flow, so that a longer file is refused.
    fn change_at<F: FnOnce(&Target<'_>, &mut [u8])>(&self, path: &[u8], act: F)
        requires { F.IsAlwaysCallable act }
    {
        let Some(mut old) = self.open_old(path) else {
            return;
        };
        // Kept: no heap, as in `with_flow`.
        let mut room = [0u8; Flow::MOST_BYTES + 1];
        let Some(n) = self.read_open(path, &mut old.file, &mut room) else {
            return;
        };
        let target = Target {
            command: *self,
            path,
            access: old.access,
        };
        act(&target, &mut room[..n]);
    }

    // Has an act change the flow in the file that the first argument names. Where the file cannot be changed, one line on standard error says so.
    pub fn change_file<F: FnOnce(&Target<'_>, &mut [u8])>(&self, act: F)
        requires { F.IsAlwaysCallable act }
    {
        let mut path = [0u8; LONGEST_NAME];
        match path_at(self.rt, 1, &mut path) {
            Ok(n) => self.change_at(&path[..n], act),
            Err(why) => self.unsaved(b"FILE", b" cannot be changed", why),
        }
    }
}

impl Target<'_> {
    // One line on standard error where the file is left as it was, with the system's reason.
    fn unsaved(&self, what: &[u8], why: io::Error) -> bool {
        self.command.unsaved(self.path, what, why);
        false
    }

    // Fills a new file and closes it.
    fn written(&self, mut file: File, flow: &[u8]) -> bool {
        match filled(&mut file, self.access.mode, flow) {
            Ok(()) => true,
            Err(why) => self.unsaved(b" is as it was, since the new file cannot be written", why),
        }
    }

    // Has a new file take the old one's name.
    fn renamed(&self, new: &[u8]) -> bool {
        match rename(self.command.rt, new, self.path) {
            Ok(()) => true,
            Err(why) => self.unsaved(
                b" is as it was, since the new file cannot take its place",
                why,
            ),
        }
    }

    // Gives a new file the flow and then the old file's name. Where either fails, the new file is removed.
    fn replaced(&self, file: File, new: &[u8], flow: &[u8]) -> bool {
        if self.written(file, flow) && self.renamed(new) {
            return true;
        }
        remove(self.command.rt, new);
        false
    }

    // Has a new file take the old one's place. One line on standard error says where its owner or group could not be kept.
    fn put_in_place(&self, done: &[u8], file: File, new: &[u8], flow: &[u8]) -> bool {
        let kept = given_back(&file, self.access.owner, self.access.group);
        let replaced = self.replaced(file, new, flow);
        if replaced && !kept {
            self.command.tell_yours(self.path, done);
        }
        replaced
    }

    // Makes the new file, and has it take the old one's place. Until then it is for nobody but its maker to read.
    fn saved_as(&self, done: &[u8], new: &mut [u8], flow: &[u8]) -> bool {
        match create_beside(self.command.rt, new, 0o600) {
            Ok(file) => self.put_in_place(done, file, new, flow),
            Err(why) => self.unsaved(
                b" is as it was, since no new file can be made beside it",
                why,
            ),
        }
    }

    // Saves a flow under the name of the old one, and answers whether it could. `done` is the word for what was done to it.
    pub fn replace(&self, done: &[u8], flow: &[u8]) -> bool {
        let mut room = [0u8; LONGEST_NAME];
        let n = put_name(&mut room, self.path);
        self.saved_as(done, &mut room[..n], flow)
    }
}
