// A flow saved in a file: what the programs that save one have in common.
ghost use Rattle.std.specs.Prelude.{◌≡◌, ◌-◌, ◌≤◌, length, take};

use crate::reading::{NO_ARGUMENT, text_of};
use std::fs::{File, Metadata, OpenOptions};
use std::io::{ErrorKind, Write};
use std::os::unix::fs::OpenOptionsExt;
use std::random::RandomSource;
use std::{fs, io};

// What the system knows of what has a name: of a link itself, and not of the file behind it.
pub fn known_of(rt: &HostRuntime, path: &[u8]) -> io::Result<Metadata> {
    fs::symlink_metadata(rt, text_of(path)?)
}

// The name of a new file: that of the file to be saved with a dot and six characters behind it, which `create_beside` chooses. It is empty where
// the room is too short.
pub fn put_name(room: &mut [u8], path: &[u8]) -> usize
    ensures within { result ≤ length room.new }
    ensures cut { result ≡ length (take result room.new) }
{
    if room.len() < 7 || room.len() - 7 < path.len() {
        return 0;
    }
    text::put_part(room, 0, path);
    text::put_part(room, path.len(), b".XXXXXX");
    path.len() + 7
}

// What a name of a new file may end in.
const LETTERS: &[u8; 62] = b"0123456789ABCDEFGHIJKLMNOPQRSTUVWXYZabcdefghijklmnopqrstuvwxyz";

// A character of a name by chance.
fn letter(chance: u8) -> u8 {
    LETTERS[(chance % 62) as usize]
}

// Puts six characters by chance at the end of a name.
fn choose(rt: &HostRuntime, name: &mut [u8]) -> io::Result<()>
    ensures { take (length name.old - 6) name.new ≡ take (length name.old - 6) name.old }
{
    let mut chances = [0u8; 6];
    rt.fill_bytes(&mut chances)?;
    if let Some(end) = name.last_chunk_mut::<6>() {
        *end = chances.map(letter);
    }
    Ok(())
}

// Makes the file of a name that nothing has, for writing, and with this mode as far as the system lets new files have it.
pub fn create(rt: &HostRuntime, path: &[u8], mode: u32) -> io::Result<File> {
    OpenOptions::new()
        .write(true)
        .create_new(true)
        .mode(mode)
        .open(rt, text_of(path)?)
}

// How many names are tried for a new file. That each is taken does not happen.
const MOST_NAMES: usize = 10_000;

// Makes a file whose name ends in six characters that are chosen by chance, until nothing has that name. A name that is shorter is none. What stands before them
// stays, whatever is answered.
pub fn create_beside(rt: &HostRuntime, name: &mut [u8], mode: u32) -> io::Result<File>
    ensures { take (length name.old - 6) name.new ≡ take (length name.old - 6) name.old }
{
    if name.len() < 6 {
        return Err(io::Error::from_raw_os_error(NO_ARGUMENT));
    }
    for _ in 0..MOST_NAMES {
        choose(rt, name)?;
        match create(rt, name, mode) {
            Err(why) if why.kind() == ErrorKind::AlreadyExists => {}
            made => return made,
        }
    }
    Err(io::Error::from(ErrorKind::AlreadyExists))
}

// Takes a file away.
pub fn remove(rt: &HostRuntime, path: &[u8]) {
    if let Ok(path) = text_of(path) {
        let _ = fs::remove_file(rt, path);
    }
}

// Gives a file another's name, in whose place it is then.
pub fn rename(rt: &HostRuntime, from: &[u8], to: &[u8]) -> io::Result<()> {
    fs::rename(rt, text_of(from)?, text_of(to)?)
}

// Gives an open file the flow, and waits until the device has it.
pub fn stored(file: &mut File, flow: &[u8]) -> io::Result<()> {
    file.write_all(flow)?;
    file.sync_all()
}
