// A console for every public call: reads a packed script of calls from standard input, keeps a session between them, and prints what
// each call gives back (docs/CALLS.md).
#![tactic(auto)]

ghost use Rattle.std.specs.Prelude.{◌≤◌, length, IfOk};

mod forms;
mod numbers;
mod orders;
mod sessions;
mod steps;

use script::arguments::Arguments;
use script::text::Page;
use session_record::Session;
use std::fmt::Write;
use std::io::Read;
use std::{fmt, io};

// So many bytes of a script are read.
const MOST: usize = 524288;

// No call has this name: nothing behind it is read.
fn unknown(page: &mut Page, name: u8, arguments: &mut Arguments<'_>) -> fmt::Result {
    *arguments = Arguments::new(&[]);
    writeln!(page, "? {name}")
}

// The call of this name.
fn call(
    page: &mut Page,
    name: u8,
    arguments: &mut Arguments<'_>,
    session: &mut Session,
) -> fmt::Result {
    match name {
        b'F' => steps::fresh(page, arguments, session),
        b'L' => steps::line(page, arguments, session),
        b'G' => steps::mark(page, arguments, session),
        b'W' => steps::walk_on(page, arguments, session),
        b'T' => steps::given(page, arguments, session),
        b'J' => forms::judge(page, arguments),
        b'K' => forms::read_tap(page, arguments),
        b'N' => forms::name_of(page, arguments),
        b'P' => forms::read_property(page, arguments),
        b'Q' => forms::write_property(page, arguments),
        b'R' => forms::read_record(page, arguments),
        b'S' => forms::write_record(page, arguments),
        b'V' => forms::refused(page, arguments),
        b'Y' => orders::explain(page, arguments),
        b'v' => forms::version(page),
        _ => unknown(page, name, arguments),
    }
}

// All calls of the script, up to its end or a byte 0, from a session of zeros. Each takes a byte of it or more.
fn run(rt: &impl Print, script: &[u8]) -> io::Result<()> {
    let mut arguments = Arguments::new(script);
    let mut session = sessions::read(&mut Arguments::new(&[]));
    let mut page = Page::new();
    for _ in script {
        let name = arguments.byte();
        if name == 0 {
            break;
        }
        page.clear();
        // What does not fit is left out.
        let _ = call(&mut page, name, &mut arguments, &mut session);
        rt.write_all(page.as_str().as_bytes())?;
    }
    Ok(())
}

// Made apart: where a long array is made and lent in one function, the check counts its places one by one.
fn room() -> [u8; MOST] {
    [0; MOST]
}

// Reads until the room is full or the input ends, and gives the number of bytes that were read.
fn read(rt: &impl Input, script: &mut [u8]) -> io::Result<usize>
    ensures { IfOk result (λ n. n ≤ length script.new) }
{
    let mut input = rt.reader();
    let mut done = 0;
    // A `while`, since a turn fills as many bytes as came.
    while done < script.len() {
        let n = input.read(&mut script[done..])?;
        if n == 0 {
            break;
        }
        done += n;
    }
    Ok(done)
}

// A read or a write that fails ends the program with its error.
fn main(rt: HostRuntime) -> io::Result<()> {
    let mut script = room();
    let n = read(&rt, &mut script)?;
    run(&rt, &script[..n])?;
    if n == MOST {
        rt.print("cut\n")?;
    }
    Ok(())
}
