// The program on a reader and a writer, and on standard input and output. Where the bytes of both are known, a contract says that what is written is
// `program`'s text for what was read; of standard input and output no contract can say which bytes they are.
#![tactic(auto)]

ghost use Rattle.std.specs.Prelude.{◌≡◌, ◌≤◌, length, take, IfOk, IfSome, OnOk};
ghost use Rattle.std.specs.Io.KnownBytes.{Appends};
ghost use Rattle.program.specs.Program.{program_text};

use program::{INPUT_MOST, program};
use std::io::{self, Read, Write};

// Writes the text for this input.
fn respond<W: Write>(input: &[u8], to: &mut W) -> io::Result<()>
    ensures { OnOk result (Appends (W.contents to.old) (W.contents to.new) (program_text input.now)) }
{
    // no heap: room for the longest text
    let mut out = [0u8; 65_536];
    let n = program(input, &mut out);
    to.write_all(&out[..n])
}

// Reads until `buf` is full or the input ends, and answers how many bytes it put at the start of `buf`. A read gives as many bytes as it likes, so
// this is a `while`: `read_exact` loses how many came before the end, and `read_to_end` wants a heap.
fn read_full<R: Read>(from: &mut R, buf: &mut [u8]) -> io::Result<usize>
    ensures within { IfOk result (λ n. n ≤ length buf.new) }
    ensures length { length buf.new ≡ length buf.old }
    ensures bytes { IfOk result (λ n. IfSome (R.remaining from.old) (λ xs. take n buf.new ≡ take (length buf.old) xs)) }
{
    let mut done = 0;
    while done < buf.len() {
        let n = from.read(&mut buf[done..])?;
        if n == 0 {
            break;
        }
        done += n;
    }
    Ok(done)
}

// Reads all that a reader has, at most one byte more than the longest input: the program finds that too long as well.
pub fn run_on<R: Read, W: Write>(from: &mut R, to: &mut W) -> io::Result<()>
    ensures { OnOk result (IfSome (R.remaining from.old) (λ xs. Appends (W.contents to.old) (W.contents to.new) (program_text (take 12_377 xs)))) }
{
    // no heap: room for the longest input
    let mut input = [0u8; INPUT_MOST + 1];
    let n = read_full(from, &mut input)?;
    respond(&input[..n], to)
}

// The same on standard input and output.
pub fn run(rt: &(impl Input + Print)) -> io::Result<()> {
    run_on(&mut rt.reader(), &mut io::writer(rt))
}
