// The program on each stored input that an argument names, one after the other.
#![tactic(auto)]

use std::rt::Files;
use std::{env, fs, io};

// A file that cannot be opened is passed over, with a line that says so.
fn one(rt: &(impl Files + Print + Eprint), path: &str) -> io::Result<()> {
    match fs::open(rt, path) {
        Ok(mut file) => console::run_on(&mut file, &mut io::writer(rt)),
        Err(e) => eprintln!(rt; "{path}: {e}"),
    }
}

fn main(rt: HostRuntime) -> io::Result<()> {
    for path in env::args(&rt)?.skip(1) {
        one(&rt, &path)?;
    }
    Ok(())
}
