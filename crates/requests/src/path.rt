// The full path of a request.
ghost use Rattle.std.specs.Prelude.{[], ◌+◌, ◌≤◌, length};
ghost use Rattle.rules.specs.Path.{path_text};
ghost use Rattle.octets.specs.Numbers.{Put};
ghost use Rattle.payload.specs.Meaning.{names_at, PathSound};

use octets::parts::copy;
use paths::answer::Form;
use paths::full::full;
use payload::answer::Path;

// Room for the full path of any path in a payload.
pub const PATH_ROOM: usize = 4136;

// Puts the full path that a domain gave in a payload to the front of a buffer, and gives its length. What is no path of a node is read as `/`.
pub fn full_path(s: &[u8], path: Path, domain: u32, into: &mut [u8]) -> usize
    requires { PathSound s.now path × (length s.now + 35 ≤ length into.old) }
    ensures { Put 0 (path_text (names_at domain s.now path)) into.old into.new result }
{
    let form = path.form;
    let end = path.end;
    match form {
        Form::Absolute => {
            copy(into, 0, &s[..end]);
            end
        }
        Form::Relative => full(into, domain, &s[..end]),
        Form::Special => root(into),
        Form::Malformed => root(into),
    }
}

// Puts `/`.
fn root(into: &mut [u8]) -> usize
    requires { 1 ≤ length into.old }
    ensures { Put 0 (path_text []) into.old into.new result }
{
    into[0] = b'/';
    1
}
