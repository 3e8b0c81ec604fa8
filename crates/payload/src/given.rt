// The paths of a payload: its first string.
ghost use Rattle.std.specs.Prelude.{◌≡◌, ◌≤◌, length, take};
ghost use Rattle.rules.specs.Path.{given};
ghost use Rattle.paths.specs.Form.{form_of};
ghost use Rattle.payload.specs.Answers.{named_of, placed_of, is_root, depth_fits};

use crate::answer::Path;
use paths::answer::Form;
use paths::form::form;

// The path of a node that ends at `end`, if it is well formed.
pub fn named(s: &[u8], end: usize) -> Option<Path>
    requires { end ≤ length s.now }
    ensures { result ≡ named_of end (form_of (given (take end s.now))) }
{
    let path = placed(s, end)?;
    if path.form == Form::Special {
        return None;
    }
    Some(path)
}

// The path or event's name that ends at `end`, if it is well formed.
pub fn placed(s: &[u8], end: usize) -> Option<Path>
    requires { end ≤ length s.now }
    ensures { result ≡ placed_of end (form_of (given (take end s.now))) }
{
    let form = form(&s[..end]);
    if form == Form::Malformed {
        return None;
    }
    Some(Path { end, form })
}

// Whether a well-formed path is `/`.
pub fn is_root(path: Path) -> bool
    ensures { result ≡ is_root path }
{
    path.form == Form::Absolute && path.end == 1
}

// Whether a watch of this path may have depth k: an event's name takes 1 alone.
pub fn depth_fits(path: Path, k: u32) -> bool
    ensures { result ≡ depth_fits path k }
{
    path.form != Form::Special || k == 1
}
