// One line on standard error for what went wrong, in the name of the command that the clerk typed. Where standard error takes nothing, nobody can be told.
use crate::Command;
use crate::reading::{number_at, word_at};
use std::fmt::InlineText;
use std::io;

// Writes bytes to standard error.
fn tell(rt: &HostRuntime, bytes: &[u8]) {
    let _ = rt.stderr().write_all(bytes);
}

// The words of a reason. Behind the system's own the library puts the number of the error, which a clerk is not shown.
fn words_of(text: &str) -> &str {
    match text.split_once(" (os error ") {
        Some((words, _)) => words,
        None => text,
    }
}

// The end of a line on standard error: the system's reason.
fn end_with(rt: &HostRuntime, why: io::Error) {
    let text = InlineText::<120>::of(why);
    let _ = eprintln!(rt; ": {}", words_of(text.as_str()));
}

// A line on standard error: what failed, and the system's reason.
pub fn fail(rt: &HostRuntime, what: &[u8], why: io::Error) {
    tell(rt, what);
    end_with(rt, why);
}

// The end of a line on standard error: the word of an argument, where it is short.
fn end_line(rt: &HostRuntime, i: usize) {
    let mut word = [0u8; 40];
    let n = word_at(rt, i, &mut word);
    if 0 < n {
        tell(rt, b", and not ");
        tell(rt, &word[..n]);
    }
    tell(rt, b"\n");
}

impl Command<'_> {
    // The start of a line on standard error: the command as a clerk types it.
    pub fn begin_line(&self) {
        tell(self.rt, b"./f24 ");
        tell(self.rt, self.name);
        tell(self.rt, b": ");
    }

    // One line on standard error: what was wrong, and how the command is used.
    pub fn misused(&self, what: &[u8], usage: &[u8]) {
        self.begin_line();
        tell(self.rt, what);
        tell(self.rt, b"; usage: ./f24 ");
        tell(self.rt, self.name);
        tell(self.rt, b" ");
        tell(self.rt, usage);
        tell(self.rt, b"\n");
    }

    // One line on standard error about the named file; the words end it.
    pub fn tell_of(&self, path: &[u8], what: &[u8]) {
        self.begin_line();
        tell(self.rt, path);
        tell(self.rt, what);
    }

    // One line on standard error where a flow could not be saved under the name, with the system's reason.
    pub fn unsaved(&self, path: &[u8], what: &[u8], why: io::Error) {
        self.begin_line();
        tell(self.rt, path);
        fail(self.rt, what, why);
    }

    // One line on standard error where a file was replaced, and its owner or group could not be kept.
    pub fn tell_yours(&self, path: &[u8], done: &[u8]) {
        self.begin_line();
        tell(self.rt, path);
        tell(self.rt, b" is ");
        tell(self.rt, done);
        tell(
            self.rt,
            b", and is now yours: its owner or group could not be kept\n",
        );
    }

    // One line on standard error for what could not be read, with the system's reason.
    pub fn unread(&self, what: &[u8], why: io::Error) {
        self.begin_line();
        tell(self.rt, b"cannot read ");
        fail(self.rt, what, why);
    }

    // One line on standard error for an argument that is no number: its name, what a number is, and the word itself where it is short.
    pub fn no_number(&self, name: &[u8], i: usize) {
        self.begin_line();
        tell(self.rt, name);
        let _ = eprint!(self.rt; " must be a number in digits, at most {}", u64::MAX);
        end_line(self.rt, i);
    }

    // The i-th argument as a number. Where it is none, one line on standard error says so, in which it goes by its name in the usage.
    pub fn number_at(&self, name: &[u8], i: usize) -> Option<u64> {
        let number = number_at(self.rt, i);
        if number.is_none() {
            self.no_number(name, i);
        }
        number
    }

    // One line on standard error for a portion of zero, with the word itself.
    pub fn no_portion(&self, i: usize) {
        self.begin_line();
        tell(self.rt, b"a portion is a number above zero");
        end_line(self.rt, i);
    }
}
