// The lines of a run in portions, for an order and a book that have passed the checks: inner functions of the program.

ghost use Rattle.std.specs.Prelude.{true, ◌≡◌, ◌≤◌};
ghost use Rattle.run_checks.specs.Start.{within_steps};
ghost use Rattle.listing_write.specs.Course.{OnCourse, Advanced, start_of, portion_of};

use crate::lines::{LONGEST_LINE, put_state};
use crate::{Course, Portion};
use gravity::Guesses;
use run::Outcome;
use run::inner::step_under;
use state::{Setting, State};

// The start of a run with steps of h.
pub fn start(state: State, h: u32, target: u64) -> Course
    requires { (2 ≤ h) × (within_steps state.moment h target ≡ true) }
    ensures { result ≡ start_of state h target }
{
    let entries = Guesses {
        moon: 0,
        sun: 0,
        venus: 0,
        mars: 0,
        jupiter: 0,
    };
    let moment = state.moment;
    Course {
        state,
        entries,
        left: (target - moment) / (h as u64),
        done: 0,
    }
}

fn portion_of(
    outcome: Outcome,
    state: State,
    entries: Guesses,
    left: u64,
    done: u64,
    written: usize,
) -> Portion
    ensures { result ≡ portion_of outcome state entries left done written }
{
    let course = Course {
        state,
        entries,
        left,
        done,
    };
    Portion {
        outcome,
        course,
        written,
    }
}

// A line for each state reached, while a whole line still fits.
pub fn portion(book: &[u8], setting: Setting, h: u32, from: Course, out: &mut [u8]) -> Portion
    requires { OnCourse book.now setting h from }
    ensures { Advanced book.now setting h from out.old out.new result }
{
    let calm = book::inner::book_calm(book);
    let mut now = from.state;
    let mut entries = from.entries;
    let mut left = from.left;
    let mut done = from.done;
    let mut at: usize = 0;
    // No `for`: the lines differ in length.
    while at + LONGEST_LINE <= out.len() {
        if left == 0 {
            return portion_of(Outcome::Arrived, now, entries, left, done, at);
        }
        // the last entry of each body is the first guess for the next step
        let stepped = step_under(book, setting, now, h, entries, calm);
        match stepped {
            Ok(next) => {
                at = put_state(out, at, next.state);
                now = next.state;
                entries = next.entries;
                left -= 1;
                done += 1;
            }
            Err(refusal) => {
                return portion_of(Outcome::Refused(refusal), now, entries, left, done, at);
            }
        }
    }
    portion_of(Outcome::Going, now, entries, left, done, at)
}
