// What the programs share to reach outside: reading an input whole, taking an argument, and telling of an error.
//
// No contract can say what a program reads, so these have only the bounds that their callers need.

#![tactic(auto)]

mod reason;

ghost use Rattle.std.specs.Prelude.{◌≤◌, length, IfOk};

use reason::Reason;
use std::env::FillError;
use std::io;
use std::io::Read;
use std::rt::Env;

// What the system answers to a name that is too long, to one that is missing, and to one that is no text.
const TOO_LONG: i32 = 36;

const MISSING: i32 = 22;

const NO_TEXT: i32 = 84;

// Reads until `buf` is full or the input ends, and returns how many bytes are read.
pub fn read_full(input: &mut impl Read, buf: &mut [u8]) -> io::Result<usize>
    ensures in_bounds { IfOk result (λ n. n ≤ length buf.new) }
{
    let mut done = 0;
    // Each turn passes as many bytes as `read` gives, so there is no count to go over.
    while done < buf.len() {
        let n = input.read(&mut buf[done..])?;
        if n == 0 {
            break;
        }
        done += n;
    }
    Ok(done)
}

// Whether the program has that argument. Argument 0 is the program's own name.
pub fn has_argument(env: &impl Env, i: usize) -> bool {
    let mut byte = [0u8; 1];
    match env.arg(i, &mut byte) {
        Ok(_) => true,
        Err(FillError::TooLong) => true,
        Err(FillError::NotPresent) => false,
    }
}

// An argument as text, which is put at the start of `room`.
pub fn argument<'a>(env: &impl Env, i: usize, room: &'a mut [u8]) -> io::Result<&'a str> {
    let n = match env.arg(i, room) {
        Ok(n) => n,
        Err(FillError::TooLong) => return Err(io::Error::from_raw_os_error(TOO_LONG)),
        Err(FillError::NotPresent) => return Err(io::Error::from_raw_os_error(MISSING)),
    };
    match str::from_utf8(&room[..n]) {
        Ok(text) => Ok(text),
        Err(_) => Err(io::Error::from_raw_os_error(NO_TEXT)),
    }
}

// Prints on standard error what failed, as the caller names it, and why.
pub fn fail(rt: &impl Eprint, what: &str, error: io::Error) {
    let _ = eprintln!(rt; "{what}: {}", Reason(error));
}
