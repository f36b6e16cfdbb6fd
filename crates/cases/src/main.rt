// Further cases: the sheets of data/, whose names are the program's arguments, and for each what the program solve prints. Behind it
// stand, for an accepted table, the record and the normal form of each row; for outcomes 0 and 2 the record and the value of each row under
// the pattern whose bits 0, 3, 6, .. are 1; and for outcome 2 the record and the pattern of the fresh bits 0, 2, 4, .. being 1, and of
// 1, 3, 5, .. being 1. The file stdout is made by an enumeration in C of all patterns (host/print_cases.c), which shares no code with this;
// the sheets of 64 variables have too many patterns, and are solved by the plain solver in C.
#![tactic(auto)]

ghost use Rattle.std.specs.Prelude.{length, ◌≤◌};

use std::env::{Env, FillError};
use std::fs::File;
use std::io::{Print, Read, Stdout};

// How many bytes are read at the most: one more than a sheet may have.
const MOST_READ: usize = 16385;

// The bytes of the longest name.
const MOST_NAME: usize = 255;

// The numbers of a table.
const TABLE: usize = 2048;

// What is printed behind the record and the answer.
fn print_table(stdout: Stdout, table: &[u16], out: &mut [u8]) {
    let mut answer = [0u16; solver::ANSWER];
    let mut work = [0u16; solver::MEMORY];
    let found = solver::solve(table, &mut answer[..], &mut work[..]);
    if found.outcome > 2 {
        return;
    }
    details::print_forms(stdout, table, out);
    if found.outcome == 1 {
        return;
    }
    let free = found.free as usize;
    details::print_values(stdout, table, free + found.ties as usize, out);
    if found.outcome == 0 {
        return;
    }
    let _ = stdout.write_all(b"patterns\n");
    let len = (found.pieces as usize * answers::ROW).min(solver::ANSWER);
    details::print_pattern(stdout, table, &answer[..len], 0, free, out);
    details::print_pattern(stdout, table, &answer[..len], 1, free, out);
}

// All that is printed for a sheet behind its name.
fn print_sheet(stdout: Stdout, text: &[u8], out: &mut [u8]) {
    let len = printer::put_print(text, out);
    details::write_first(stdout, out, len);
    let mut table = [0u16; TABLE];
    let read = reader::read_sheet(text, &mut table[..]);
    // Kept: the C interface: a record's outcome is a number, which is printed.
    if read.outcome != 0 {
        return;
    }
    let numbers = (read.pieces as usize * 4).min(TABLE);
    print_table(stdout, &table[..numbers], out);
}

// Reads a file until the text is full, the file ends or a read fails; how many bytes were read.
// Kept: a while, since each read steps by a length that it finds.
fn read_full(mut file: File, text: &mut [u8]) -> usize
    ensures { result ≤ length text.new }
{
    let mut len = 0;
    while len < text.len() {
        match file.read(&mut text[len..]) {
            Ok(0) | Err(_) => break,
            Ok(got) => len += got,
        }
    }
    len
}

// Opens the sheet of a name; no sheet has a name that is no text.
fn open_sheet(rt: HostRuntime, name: &[u8]) -> Option<File> {
    match str::from_utf8(name) {
        Ok(path) => File::open(&rt, path).ok(),
        Err(_) => None,
    }
}

// Reads the sheet of a name, and prints the name and what the sheet gives.
fn print_case(rt: HostRuntime, name: &[u8], out: &mut [u8]) {
    let stdout = rt.stdout();
    let _ = stdout.write_all(name);
    let _ = stdout.write_all(b"\n");
    match open_sheet(rt, name) {
        None => {
            let _ = stdout.write_all(b"no such sheet\n");
        }
        Some(file) => {
            let mut text = [0u8; MOST_READ];
            let len = read_full(file, &mut text[..]).min(MOST_READ);
            print_sheet(stdout, &text[..len], out);
        }
    }
}

// The length of the program's argument of a number, put at the start of the name: 0 where it is too long for it, and none behind the last.
fn argument(rt: HostRuntime, i: usize, name: &mut [u8]) -> Option<usize> {
    match rt.arg(i, name) {
        Ok(len) => Some(len),
        Err(FillError::TooLong) => Some(0),
        Err(FillError::NotPresent) => None,
    }
}

fn main(rt: HostRuntime) {
    let mut out = [0u8; printer::PRINT_ROOM];
    let mut name = [0u8; MOST_NAME];
    for i in 1..usize::MAX {
        match argument(rt, i, &mut name[..]) {
            None => break,
            Some(found) => {
                let len = found.min(MOST_NAME);
                print_case(rt, &name[..len], &mut out[..]);
            }
        }
    }
}
