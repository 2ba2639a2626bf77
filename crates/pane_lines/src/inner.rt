// The answer to a line, written at a place of a buffer with room for it.

ghost use Rattle.std.specs.Prelude.{◌+◌, ◌≤◌};
ghost use Rattle.line_form.specs.Spelled.{spaced, line_text, Puts};
ghost use Rattle.pane_lines.specs.Answers.{taken_items, frame_items, answer_items};

use crate::Answer;
use base::Reason;
use line_form::put::{Out, end_line, put_floats, put_numbers, put_refused};
use pane_live::{FrameAnswer, TakeAnswer};
use state::Vector;
use text_write::inner::put_bytes;

fn put_taken<R: Reason>(out: &mut Out, at: usize, answer: TakeAnswer<R>) -> usize
    requires { at + 512 ≤ 65_536 }
    ensures { Puts out.old at (spaced (taken_items R.told answer)) out.new 1 512 result }
{
    match answer {
        TakeAnswer::Taken(_) => put_bytes(out, at, b"OK "),
        TakeAnswer::Unchanged => put_bytes(out, at, b"UNCHANGED "),
        TakeAnswer::Refused(refusal) => put_refused(out, at, refusal.told()),
    }
}

fn put_frame<R: Reason>(out: &mut Out, from: usize, answer: FrameAnswer<Vector, R>) -> usize
    requires { from + 512 ≤ 65_536 }
    ensures { Puts out.old from (spaced (frame_items R.told answer)) out.new 1 512 result }
{
    match answer {
        FrameAnswer::Current(p) => {
            let at = put_bytes(out, from, b"CURRENT ");
            put_floats(out, at, &[p.x, p.y, p.z])
        }
        FrameAnswer::Late(late) => {
            let at = put_bytes(out, from, b"LATE ");
            put_numbers(out, at, &[late])
        }
        FrameAnswer::Empty => put_bytes(out, from, b"EMPTY "),
        FrameAnswer::Refused(refusal) => put_refused(out, from, refusal.told()),
    }
}

fn put_items<R: Reason>(out: &mut Out, at: usize, answer: Answer<R>) -> usize
    requires { at + 512 ≤ 65_536 }
    ensures { Puts out.old at (spaced (answer_items R.told answer)) out.new 1 512 result }
{
    match answer {
        Answer::Taken(taken) => put_taken(out, at, taken),
        Answer::Frame(frame) => put_frame(out, at, frame),
        Answer::Cleared => put_bytes(out, at, b"EMPTY "),
        Answer::Unreadable => put_bytes(out, at, b"UNREADABLE "),
    }
}

// The line of an answer, and the place after it.
pub fn put_line<R: Reason>(out: &mut Out, at: usize, answer: Answer<R>) -> usize
    requires { at + 512 ≤ 65_536 }
    ensures { Puts out.old at (line_text (answer_items R.told answer)) out.new 1 512 result }
{
    let end = put_items(out, at, answer);
    end_line(out, end);
    end
}
