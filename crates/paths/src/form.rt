// The form of a path: a machine that reads its bytes by their classes.
ghost use Rattle.std.specs.Prelude.{◌≡◌, ◌<◌};
ghost use Rattle.rules.specs.Path.{given};
ghost use Rattle.paths.specs.Machine.{step_of};
ghost use Rattle.paths.specs.Form.{form_of, is_event, verdict_of};

use crate::answer::Form;
use crate::classes::CLASSES;
use octets::compare::same;
use octets::sizes::{LONGEST_ABSOLUTE, LONGEST_RELATIVE};

// A row for each state, a column for each class: letter, digit, slash, `@`, other. States and classes are numbers, as the
// review sheet prints them.
const STEPS: [[u8; 5]; 8] = [
    // 0: nothing read
    [4, 4, 1, 6, 7],
    // 1: the root's slash
    [2, 2, 7, 2, 7],
    // 2: in a name of an absolute path
    [2, 2, 3, 2, 7],
    // 3: after a slash in one
    [2, 2, 7, 2, 7],
    // 4: in a name of a relative path
    [4, 4, 5, 4, 7],
    // 5: after a slash in one
    [4, 4, 7, 4, 7],
    // 6: after an `@` in front
    [6, 6, 6, 6, 6],
    // 7: malformed
    [7, 7, 7, 7, 7],
];

// The state after a byte of a class.
pub fn step(state: u8, class: u8) -> u8
    requires { (state < 8) × (class < 5) }
    ensures { result ≡ step_of state class }
{
    STEPS[state as usize][class as usize]
}

// Whether a text is one of the two event names.
pub fn is_event(s: &[u8]) -> bool
    ensures { result ≡ is_event s.now }
{
    same(s, b"@introduceDomain") || same(s, b"@releaseDomain")
}

// What a text is that led the machine to a state.
fn verdict(state: u8, s: &[u8]) -> Form
    ensures { result ≡ verdict_of state s.now }
{
    match state {
        1 | 2 if s.len() <= LONGEST_ABSOLUTE => Form::Absolute,
        4 if s.len() <= LONGEST_RELATIVE => Form::Relative,
        6 if is_event(s) => Form::Special,
        _ => Form::Malformed,
    }
}

// The form of a path in a payload. The two tables are laid out once, before the first byte.
pub fn form(s: &[u8]) -> Form
    ensures { result ≡ form_of (given s.now) }
{
    let classes = CLASSES;
    let steps = STEPS;
    let mut state: u8 = 0;
    for b in s {
        let class = classes[*b as usize];
        state = steps[state as usize][class as usize];
    }
    verdict(state, s)
}
