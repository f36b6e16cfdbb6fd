// The program (document 01, "Sheet and program"): it reads a sheet from standard input, solves it, and prints the record and, for
// outcome 2, the answer table. The whole print is put into a buffer first (crate printer), so that it can be stated what is written.
#![tactic(auto)]

ghost use Rattle.std.specs.Prelude.{◌≡◌};
ghost use Rattle.sheets.specs.Program.{program_text};
ghost use Rattle.input.specs.Reading.{text_of, Whole};

use input::Input;
use std::io::{Print, Stderr, Stdout};

// Writes the print of what was read to standard output; whether all of it was written. No contract can say what a program has written, so
// what is written is stated here as what the caller has to show of the bytes handed over. This function is the program's only way to
// standard output.
fn write_print(input: Input, print: &[u8], stdout: Stdout) -> bool
    requires whole { Whole input }
    requires print_value { print.now ≡ program_text (text_of input) }
{
    stdout.write_all(print).is_ok()
}

// Solves what was read and prints its answer.
fn answer(input: Input, stdout: Stdout) -> bool
    requires { Whole input }
{
    let mut print = [0u8; printer::PRINT_ROOM];
    let end = printer::put_print(input.text(), &mut print[..]);
    write_print(input, &print[..end], stdout)
}

// A failure is told on standard error alone, and the program ends with status 0 all the same. Where a read fails no record is printed.
fn tell_unread(stderr: Stderr) {
    let _ = stderr.write_all(b"solve: standard input cannot be read\n");
}

fn tell_unwritten(stderr: Stderr) {
    let _ = stderr.write_all(b"solve: standard output cannot be written\n");
}

fn main(rt: HostRuntime) {
    let input = Input::read(rt.stdin());
    if input.failed() {
        tell_unread(rt.stderr());
        return;
    }
    if !answer(input, rt.stdout()) {
        tell_unwritten(rt.stderr());
    }
}
