// The listings of the files that its arguments name, each after a line with the name: the printing program's many inputs for
// the gate, which gives a program one standard input only. README.md says what each file of data/ is.
#![tactic(auto)]

use listing_shell::Form;
use std::env::{Env, FillError};
use std::fs::File;
use std::str;

fn list_path(rt: &HostRuntime, path: &str) {
    match File::open(rt, path) {
        Ok(mut file) => {
            let mut out = rt.stdout();
            listing_shell::write_all(&mut out, b"== ");
            listing_shell::write_all(&mut out, path.as_bytes());
            listing_shell::write_all(&mut out, b"\n");
            listing_shell::list(&mut file, &mut out, Form::Record);
        }
        Err(e) => {
            let _ = eprintln!(rt; "{path}: {e}");
        }
    }
}

// Lists the file that argument i names, and answers whether there is one. A name that is longer than any path is read as none.
fn list_file(rt: &HostRuntime, i: usize) -> bool {
    // `env::args` would give a `String`: the rule is no heap, so the name comes into fixed memory.
    let mut name = [0u8; 4096];
    let n = match rt.arg(i, &mut name) {
        Ok(n) => n,
        Err(FillError::TooLong) => 0,
        Err(FillError::NotPresent) => return false,
    };
    match str::from_utf8(&name[..n]) {
        Ok(path) => list_path(rt, path),
        Err(_) => {
            let _ = eprintln!(rt; "argument {i}: its name is no text");
        }
    }
    true
}

fn main(rt: HostRuntime) {
    for i in 1..usize::MAX {
        if !list_file(&rt, i) {
            return;
        }
    }
}
