// Reads a sheet, step count and t from standard input, and prints what came of it (document 01, 'Figures to meet').
#![tactic(auto)]

use std::io;

fn main(rt: HostRuntime) -> io::Result<()> {
    console::run(&rt)
}
