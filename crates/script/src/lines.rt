// The lines of a run, taken from a script.
ghost use Rattle.std.specs.Prelude.{◌≤◌};

use crate::arguments::Arguments;

// A run has so many lines at most. A higher number counts as this one.
pub const MOST: usize = 512;

// A run, with zeros behind its lines.
#[derive(Clone, Copy)]
pub struct Run {
    pub count: usize,
    pub output: [bool; MOST],
    pub action: [u8; MOST],
    pub stamp: [u64; MOST],
    pub ghost most: { count ≤ 512 },
}

// The number of lines, and of each: output, action, stamp.
pub fn read(arguments: &mut Arguments<'_>) -> Run {
    let count = arguments.size().min(MOST);
    let mut output = [false; MOST];
    let mut action = [0; MOST];
    let mut stamp = [0; MOST];
    for i in 0..count {
        output[i] = arguments.flag();
        action[i] = arguments.byte();
        stamp[i] = arguments.word();
    }
    Run {
        count,
        output,
        action,
        stamp,
    }
}
