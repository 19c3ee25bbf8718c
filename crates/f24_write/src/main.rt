// Writes the flow of a working sheet to a new file, FLOW. The flow is written to a file beside it and brought to the disk. Then FLOW is made, empty, by
// the call that fails where anything has that name; and the very next call has the written file take its place. So nothing that exists is ever replaced, and FLOW holds no
// part of a flow at any time. The library has no rename that replaces nothing, which would do it in one call.
#![tactic(auto)]

use desk::Command;
use layout::Flow;
use std::fs::File;
use std::io;
use std::io::ErrorKind;

// No sheet of more bytes can be cut into the 546 records of a flow: besides head, tail and the count of deleghe it has room for 181 deleghe, each of three records and five counts.
const MOST_BYTES: usize = 2 * Flow::RECORD + 3 + 181 * (3 * Flow::RECORD + 10);

// What a new file may be asked for: to be read and written by all that the system lets.
const NEW_MODE: u32 = 0o666;

// The new file: the command that makes it, and its name.
#[derive(Clone, Copy)]
struct NewFile<'a> {
    command: Command<'a>,
    path: &'a [u8],
}

impl NewFile<'_> {
    // One line on standard error where the name of the new file is taken.
    fn exists(&self) -> bool {
        self.command.tell_of(
            self.path,
            b" exists already and is left as it is: a flow is written to a new file\n",
        );
        false
    }

    // One line on standard error where the new file is not made, with the system's reason.
    fn unsaved(&self, what: &[u8], why: io::Error) -> bool {
        self.command.unsaved(self.path, what, why);
        false
    }

    // Has the written file take the place of the new one, which has just been made and is empty. Where that fails, the name is given back.
    fn moved(&self, beside: &[u8]) -> bool {
        match desk::rename(self.command.rt, beside, self.path) {
            Ok(()) => true,
            Err(why) => {
                self.unsaved(
                    b" is not made, since the written file cannot take its name",
                    why,
                );
                desk::remove(self.command.rt, self.path);
                false
            }
        }
    }

    // Takes the name of the new file, and at once has the written file take its place.
    fn named(&self, beside: &[u8]) -> bool {
        match desk::create(self.command.rt, self.path, NEW_MODE) {
            Ok(file) => {
                let moved = self.moved(beside);
                drop(file);
                moved
            }
            Err(why) if why.kind() == ErrorKind::AlreadyExists => self.exists(),
            Err(why) => self.unsaved(b" cannot be made", why),
        }
    }

    // Gives the file beside the flow and then the new name. Where an output was closed, the descriptor may be that output's: nothing is printed while it is open but a
    // failure, after which the file is removed.
    fn saved_in(&self, file: &mut File, beside: &[u8], flow: &[u8]) -> bool {
        match desk::stored(file, flow) {
            Ok(()) => self.named(beside),
            Err(why) => self.unsaved(b" is not made, since it cannot be written", why),
        }
    }

    // Has the file beside become the new file. Where that fails, it is removed, and before it is closed: while something lies beside FLOW, the program has it open, and
    // the launcher can see that.
    fn saved_from(&self, mut file: File, beside: &[u8], flow: &[u8]) -> bool {
        let saved = self.saved_in(&mut file, beside, flow);
        if !saved {
            desk::remove(self.command.rt, beside);
        }
        saved
    }

    // Makes the file beside, with the rights of any new file, and has it become the new file.
    fn saved_as(&self, beside: &mut [u8], flow: &[u8]) -> bool {
        match desk::create_beside(self.command.rt, beside, NEW_MODE) {
            Ok(file) => self.saved_from(file, beside, flow),
            Err(why) => self.unsaved(b" is not made, since no file can be made beside it", why),
        }
    }

    // Saves the flow in the new file, and prints its judgement.
    fn deliver(&self, flow: &[u8]) {
        let mut room = [0u8; desk::LONGEST_NAME];
        let n = desk::put_name(&mut room, self.path);
        if self.saved_as(&mut room[..n], flow) {
            desk::print_judgement(self.command.rt, judge::judge(flow));
        }
    }
}

// Writes the flow of a sheet that was read.
fn write_flow(new: &NewFile, sheet: &[u8]) {
    let mut room = [0u8; Flow::MOST_BYTES];
    match write::write(sheet, &mut room) {
        Ok(n) => new.deliver(&room[..n]),
        Err(why) => desk::print_refusal(new.command.rt, why),
    }
}

// Reads the sheet that the first argument names, up to one byte more than the longest, and writes its flow.
fn write_sheet(new: &NewFile) {
    let command = new.command;
    let mut room = [0u8; MOST_BYTES + 1];
    let Some(n) = command.read_word(b"SHEET", 1, &mut room) else {
        return;
    };
    if MOST_BYTES < n {
        command.tell_of(
            b"SHEET",
            b" has more than 67,213 bytes, and no such sheet can be cut into 546 records\n",
        );
        return;
    }
    write_flow(new, &room[..n]);
}

// A name that is taken, if only by a link that leads nowhere, is told before the sheet is read; one that is taken meanwhile, when the file is made.
fn write_to(new: &NewFile) {
    if desk::known_of(new.command.rt, new.path).is_ok() {
        new.exists();
        return;
    }
    write_sheet(new);
}

fn main(rt: HostRuntime) {
    let command = Command {
        rt: &rt,
        name: b"write",
    };
    if desk::count_words(&rt) != 3 {
        command.misused(b"two arguments are needed", b"SHEET FLOW");
        return;
    }
    let mut path = [0u8; desk::LONGEST_NAME];
    match desk::path_at(&rt, 2, &mut path) {
        Ok(n) => {
            let path = &path[..n];
            write_to(&NewFile { command, path });
        }
        Err(why) => command.unsaved(b"FLOW", b" cannot be made", why),
    }
}
