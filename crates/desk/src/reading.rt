// Arguments, what they name, and a flow read whole.
ghost use Rattle.std.specs.Prelude.{◌≤◌, length, IfOk, IfSome};

use crate::Command;
use layout::Flow;
use std::env::FillError;
use std::fs::File;
use std::io::{Read, Stdin};
use std::rt::Env;
use std::{io, str};

// The longest name of a file that the system takes, with the byte that ends it there.
pub const LONGEST_NAME: usize = 4096;

// The system's numbers of what can be wrong with an argument: there is none, it is too long for a name, or it is no text, and then the library cannot ask for it.
pub const NO_ARGUMENT: i32 = 22;

const NAME_TOO_LONG: i32 = 36;

const NO_TEXT: i32 = 84;

// What is read: standard input, or a file.
#[derive(Drop)]
pub enum Source {
    Input(Stdin),
    Named(File),
}

impl Read for Source {
    fn read(&mut self, buf: &mut [u8]) -> io::Result<usize> {
        match self {
            Source::Input(stdin) => stdin.read(buf),
            Source::Named(file) => file.read(buf),
        }
    }
}

// How many words the program was started with, its own name among them.
pub fn count_words(rt: &HostRuntime) -> usize {
    let mut none = [0u8; 0];
    for i in 0..usize::MAX {
        if let Err(FillError::NotPresent) = rt.arg(i, &mut none) {
            return i;
        }
    }
    usize::MAX
}

// Puts the i-th argument into the room and answers its length: 0 where it is missing or longer than the room.
pub fn word_at(rt: &HostRuntime, i: usize, room: &mut [u8]) -> usize
    ensures { result ≤ length room.old }
{
    rt.arg(i, room).unwrap_or(0)
}

// Why an argument is not in a room, as the system has it.
fn why_not(missing: FillError) -> io::Error {
    match missing {
        FillError::NotPresent => io::Error::from_raw_os_error(NO_ARGUMENT),
        FillError::TooLong => io::Error::from_raw_os_error(NAME_TOO_LONG),
    }
}

// Puts the i-th argument, which names a file, into the room and answers its length; the reason where it is missing or longer than the room.
pub fn path_at(rt: &HostRuntime, i: usize, room: &mut [u8]) -> io::Result<usize>
    ensures { IfOk result (λ n. n ≤ length room.old) }
{
    rt.arg(i, room).map_err(why_not)
}

// A name as the library asks the system for it.
pub fn text_of(path: &[u8]) -> io::Result<&str> {
    str::from_utf8(path).map_err(|_| io::Error::from_raw_os_error(NO_TEXT))
}

// The i-th argument as a number. Of a missing word, and of one of more than twenty bytes, `word_at` gives no byte, and an empty word is no number.
pub fn number_at(rt: &HostRuntime, i: usize) -> Option<u64> {
    let mut word = [0u8; 20];
    let n = word_at(rt, i, &mut word);
    args::decimal(&word[..n])
}

// Whether a word stands for standard input.
fn is_dash(word: &[u8]) -> bool {
    word == b"-".as_slice()
}

// A file that is open for reading.
pub fn opened(rt: &HostRuntime, path: &[u8]) -> io::Result<File> {
    File::open(rt, text_of(path)?)
}

// Reads until the room is full, the input ends or a read fails, and answers how many bytes it put there, and whether no read failed. Nothing is read after an end, so
// that a clerk who types a flow ends it once.
pub fn fill<R: Read>(reader: &mut R, room: &mut [u8]) -> (usize, io::Result<()>)
    ensures { result.0 ≤ length room.old }
{
    let mut done: usize = 0;
    // Kept: a read moves the count by as much as the system gave; a `for` would count reads, and need this test too.
    while done < room.len() {
        match reader.read(&mut room[done..]) {
            Ok(0) => return (done, Ok(())),
            Ok(more) => done += more,
            Err(why) => return (done, Err(why)),
        }
    }
    (done, Ok(()))
}

impl Command<'_> {
    // One line on standard error for what a word names and could not be read, with the system's reason.
    fn unread_word(&self, word: &[u8], why: io::Error) {
        if is_dash(word) {
            self.unread(b"standard input", why);
        } else {
            self.unread(word, why);
        }
    }

    // Puts the word of the i-th argument into the room and answers its length; a word that is missing is -. None, with one line on standard error, where the room
    // is too short for the word, which then goes by its name in the usage.
    pub fn name_at(&self, name: &[u8], i: usize, room: &mut [u8]) -> Option<usize>
        ensures { IfSome result (λ n. n ≤ length room.old) }
    {
        match self.rt.arg(i, room) {
            Ok(n) => Some(n),
            Err(FillError::NotPresent) if 0 < room.len() => {
                room[0] = b'-';
                Some(1)
            }
            Err(missing) => {
                self.unread_word(name, why_not(missing));
                None
            }
        }
    }

    // Opens what a word names: a file, or standard input for -. None, with one line on standard error, where it cannot be opened.
    pub fn open_named(&self, word: &[u8]) -> Option<Source> {
        if is_dash(word) {
            return Some(Source::Input(self.rt.stdin()));
        }
        match opened(self.rt, word) {
            Ok(file) => Some(Source::Named(file)),
            Err(why) => {
                self.unread_word(word, why);
                None
            }
        }
    }

    // Reads what is open and goes by the word to its end, or until the room is full, and answers how many bytes it put there; where a read fails, one line on standard
    // error says so.
    pub fn read_open<R: Read>(&self, word: &[u8], reader: &mut R, room: &mut [u8]) -> Option<usize>
        ensures { IfSome result (λ n. n ≤ length room.old) }
    {
        let (n, read) = fill(reader, room);
        match read {
            Ok(()) => Some(n),
            Err(why) => {
                self.unread_word(word, why);
                None
            }
        }
    }

    // Reads what the i-th argument names; a word that is missing is standard input. None, with one line on standard error, where it cannot be read.
    pub fn read_word(&self, name: &[u8], i: usize, room: &mut [u8]) -> Option<usize>
        ensures { IfSome result (λ n. n ≤ length room.old) }
    {
        let mut word = [0u8; LONGEST_NAME];
        let n = self.name_at(name, i, &mut word)?;
        let word = &word[..n];
        let mut source = self.open_named(word)?;
        self.read_open(word, &mut source, room)
    }

    // Reads the flow that the i-th argument names, as `read_word` does, and hands it to an act. The room holds one byte more than the longest flow, so that a longer one is
    // refused.
    pub fn with_flow<F: FnOnce(&mut [u8])>(&self, i: usize, act: F)
        requires { F.IsAlwaysCallable act }
    {
        // Kept: no heap: the flow is read into a room of fixed length, and a slice of it goes on.
        let mut room = [0u8; Flow::MOST_BYTES + 1];
        if let Some(n) = self.read_word(b"FILE", i, &mut room) {
            act(&mut room[..n]);
        }
    }
}
