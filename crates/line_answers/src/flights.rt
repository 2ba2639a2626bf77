// The calls that need the book. An old line is the new one about the Earth, with J, A and K zero, by the old rule, from the acceleration that
// the rule gives.

ghost use Rattle.std.specs.Prelude.{◌≡◌, ◌+◌, ◌≤◌, drop};
ghost use Rattle.line_answers.specs.Calls.{run_from, body_call, accel_call, run_call, pull_call, inject_call, move_call, fly_call, answer_of, questions};

use line_form::form::{Numbers, reads};
use line_types::Answer;
use line_values::inner::{
    guesses_from, injection_from, narrowed, old_setting, setting_of, state_from, vector_from,
};
use run::RunAnswer;
use state::{Setting, State};

// After the setting and the state, from a field on, come h, the target, the budget and the guesses.
fn run_from(book: &[u8], setting: Setting, state: State, v: &Numbers, i: usize) -> RunAnswer
    requires { i + 8 ≤ 30 }
    ensures { result ≡ run_from book.now setting state v.now i }
{
    let guesses = guesses_from(v, i + 3);
    let h = narrowed(v[i]);
    let budget = narrowed(v[i + 2]);
    run::run(book, setting, state, h, v[i + 1], budget, guesses)
}

fn body_line(book: &[u8], v: &Numbers) -> Answer
    ensures { result ≡ (body_call book.now).answer v.now }
{
    Answer::Position(book::position(book, v[0], v[1]))
}

fn accel_line(book: &[u8], v: &Numbers) -> Answer
    ensures { result ≡ (accel_call book.now).answer v.now }
{
    let position = vector_from(v, 8);
    Answer::Acceleration(gravity::acceleration(book, old_setting(v), 1, v[7], position))
}

fn run_line(book: &[u8], v: &Numbers) -> Answer
    ensures { result ≡ (run_call book.now).answer v.now }
{
    let setting = old_setting(v);
    let injection = injection_from(v, v[7], 1, 8);
    let state = gravity_stored::launch(book, setting, injection);
    Answer::Run(run_from(book, setting, state, v, 14))
}

fn pull_line(book: &[u8], v: &Numbers) -> Answer
    ensures { result ≡ (pull_call book.now).answer v.now }
{
    let position = vector_from(v, 13);
    Answer::Acceleration(gravity::acceleration(book, setting_of(v), v[12], v[11], position))
}

fn inject_line(book: &[u8], v: &Numbers) -> Answer
    ensures { result ≡ (inject_call book.now).answer v.now }
{
    let injection = injection_from(v, v[11], v[12], 13);
    Answer::Injected(gravity_stored::inject(book, setting_of(v), injection))
}

fn move_line(book: &[u8], v: &Numbers) -> Answer
    ensures { result ≡ (move_call book.now).answer v.now }
{
    let state = state_from(v, 11);
    Answer::Moved(centre::move_to(book, setting_of(v), state, v[22]))
}

fn fly_line(book: &[u8], v: &Numbers) -> Answer
    ensures { result ≡ (fly_call book.now).answer v.now }
{
    let state = state_from(v, 11);
    Answer::Flown(run_from(book, setting_of(v), state, v, 22))
}

// pull, inject, move or fly, whose first eleven numbers are the setting, or none of the calls.
fn setting_call(book: &[u8], line: &[u8]) -> Answer
    ensures { result ≡ answer_of (drop 14 (questions book.now)) line.now }
{
    let mut v = [0u64; 30];
    if reads(line, b"pull", b"FFFFFFSFFFDDDFFF", &mut v) {
        return pull_line(book, &v);
    }
    if reads(line, b"inject", b"FFFFFFSFFFDDDFFFFFF", &mut v) {
        return inject_line(book, &v);
    }
    if reads(line, b"move", b"FFFFFFSFFFDDDFFFFFFFFFD", &mut v) {
        return move_line(book, &v);
    }
    if reads(line, b"fly", b"FFFFFFSFFFDDDFFFFFFFFFSDSDDDDD", &mut v) {
        return fly_line(book, &v);
    }
    Answer::Unreadable
}

// body, accel or run, or a call with the whole setting.
pub fn book_call(book: &[u8], line: &[u8]) -> Answer
    ensures { result ≡ answer_of (drop 11 (questions book.now)) line.now }
{
    let mut v = [0u64; 30];
    if reads(line, b"body", b"DD", &mut v) {
        return body_line(book, &v);
    }
    if reads(line, b"accel", b"FFFFFFSDFFF", &mut v) {
        return accel_line(book, &v);
    }
    if reads(line, b"run", b"FFFFFFSDFFFFFFSDSDDDDD", &mut v) {
        return run_line(book, &v);
    }
    setting_call(book, line)
}
