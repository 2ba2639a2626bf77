// The reason of an error in words.

use std::io::{Cursor, Write};
use std::{fmt, io};

// Displays an error as the system words it: "No such file or directory", without the number that std adds.
#[derive(Clone, Copy)]
pub struct Reason(pub io::Error);

const NUMBER: &str = " (os error ";

impl fmt::Display for Reason {
    fn fmt<W: fmt::Write>(&self, f: &mut fmt::Formatter<W>) -> fmt::Result {
        let mut room = Cursor::new([0u8; 256]);
        // What does not fit is left out.
        let _ = write!(room, "{}", self.0);
        let n = room.position();
        let all = room.into_inner();
        let text = str::from_utf8(&all[..(n.min(256) as usize)]).unwrap_or("");
        match text.rsplit_once(NUMBER) {
            Some((words, _)) => f.write_str(words),
            None => f.write_str(text),
        }
    }
}
