// Reads files in blocks, from any place. A file that does not allow this, such as a pipe, cannot be read twice.

ghost use Rattle.std.specs.Prelude.{◌≤◌, length, IfOk};

use listing_read::inner::{judge_block, verdict};
use listing_read::{Verdict, top};
use std::fs::File;
use std::io;
use std::os::unix::fs::FileExt;
use std::rt::Files;

// A place past the end of every file.
pub const END: u64 = 0x4000_0000_0000_0000;

// The error of a file with more bytes than can be read here.
pub fn too_large() -> io::Error {
    io::Error::from(io::ErrorKind::FileTooLarge)
}

pub fn tell_unread(rt: &impl Eprint, name: &str, error: io::Error) {
    let _ = eprint!(rt; "compare: cannot read ");
    console::fail(rt, name, error);
}

fn tell_once(rt: &impl Eprint, name: &str, error: io::Error) {
    let _ = eprint!(rt; "compare: cannot read {name}");
    console::fail(rt, " twice", error);
}

// Opens the file of a name for reading. If that fails, prints the reason on standard error.
pub fn opened(rt: &(impl Files<File = File> + Eprint), name: &str) -> Option<File> {
    let file = match File::open(rt, name) {
        Ok(file) => file,
        Err(e) => {
            tell_unread(rt, name, e);
            return None;
        }
    };
    let mut byte = [0u8; 1];
    match file.read_at(&mut byte, 0) {
        Ok(_) => Some(file),
        Err(e) => {
            if e.kind() == io::ErrorKind::NotSeekable {
                tell_once(rt, name, e);
            } else {
                tell_unread(rt, name, e);
            }
            None
        }
    }
}

// Reads a block from a place on, and returns how many bytes are read: 0 at the end of the file.
pub fn read_at(file: &File, block: &mut [u8], from: u64) -> io::Result<usize>
    ensures { IfOk result (λ n. n ≤ length block.new) }
{
    if END < from {
        return Err(too_large());
    }
    file.read_at(block, from)
}

// The verdict on a file, block by block.
pub fn judge(file: &File) -> io::Result<Verdict> {
    let mut buffer = [0u8; 65_536];
    let block: &mut [u8] = &mut buffer;
    let mut j = top();
    // Each turn passes as many bytes as the file gives, so there is no count to go over.
    while j.read <= END {
        let n = read_at(file, block, j.read)?;
        if n == 0 {
            return Ok(verdict(j));
        }
        j = judge_block(j, &block[..n]);
    }
    Err(too_large())
}
