// The messages of the two programs on standard error, each with its own name.

use std::io;
use strip_order::Form;

pub fn tell_use(rt: &impl Eprint, form: Form) {
    let _ = match form {
        Form::Plain => rt.eprint("use: strip < INPUT\n"),
        Form::Whole => rt.eprint("use: strip144 < INPUT\n"),
    };
}

pub fn tell_unread(rt: &impl Eprint, form: Form, error: io::Error) {
    match form {
        Form::Plain => console::fail(rt, "strip: cannot read standard input", error),
        Form::Whole => console::fail(rt, "strip144: cannot read standard input", error),
    }
}

pub fn tell_unwritten(rt: &impl Eprint, form: Form, error: io::Error) {
    match form {
        Form::Plain => console::fail(rt, "strip: cannot write the listing", error),
        Form::Whole => console::fail(rt, "strip144: cannot write the listing", error),
    }
}
