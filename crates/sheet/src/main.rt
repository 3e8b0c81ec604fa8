// Prints what a mechanic reviews by eye: the class of each byte, and the steps of the path machine.
#![tactic(auto)]

ghost use Rattle.std.specs.Prelude.{◌<◌};

use paths::classes::class_of;
use paths::form::step;

// A byte as it is shown: itself, or a dot where it is no character.
fn shown(b: u8) -> u8 {
    if b < 33 || 126 < b {
        return b'.';
    }
    b
}

fn hex(n: u8) -> u8
    requires { n < 16 }
{
    if n < 10 {
        return 48 + n;
    }
    87 + n
}

// Prints bytes. A write that fails is passed over.
fn print(rt: &impl Print, text: &[u8]) {
    let _ = rt.write_all(text);
}

// The classes of sixteen bytes, and the bytes.
fn grid_row(rt: &impl Print, high: u8)
    requires { high < 16 }
{
    let mut line = [b' '; 56];
    line[0] = hex(high);
    line[1] = b'_';
    for low in 0..16u8 {
        let b = high * 16 + low;
        let at = low as usize;
        line[4 + 2 * at] = b'0' + class_of(b);
        line[39 + at] = shown(b);
    }
    line[55] = b'\n';
    print(rt, &line);
}

// Where each class leads from a state.
fn step_row(rt: &impl Print, state: u8, word: &[u8])
    requires { state < 8 }
{
    print(rt, word);
    let mut line = [b' '; 35];
    for class in 0..5u8 {
        let at = class as usize;
        line[5 + 7 * at] = b'0' + step(state, class);
    }
    line[34] = b'\n';
    print(rt, &line);
}

fn grid(rt: &impl Print) {
    print(rt, b"    0 1 2 3 4 5 6 7 8 9 a b c d e f\n");
    for high in 0..16u8 {
        grid_row(rt, high);
    }
}

fn steps(rt: &impl Print) {
    print(
        rt,
        b"                            letter  digit  slash      @  other\n",
    );
    step_row(rt, 0, b"0 nothing read              ");
    step_row(rt, 1, b"1 the root's slash          ");
    step_row(rt, 2, b"2 absolute, in a name       ");
    step_row(rt, 3, b"3 absolute, after a slash   ");
    step_row(rt, 4, b"4 relative, in a name       ");
    step_row(rt, 5, b"5 relative, after a slash   ");
    step_row(rt, 6, b"6 began with an @           ");
    step_row(rt, 7, b"7 malformed                 ");
}

fn main(rt: HostRuntime) {
    grid(&rt);
    print(&rt, b"\n");
    steps(&rt);
}
