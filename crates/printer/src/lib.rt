// What the program prints for a text (document 01, "Sheet and program"), put into a buffer: the record and, for outcome 2, the answer table.
#![tactic(auto)]

ghost use Rattle.std.specs.Prelude.{◌≡◌, length};
ghost use Rattle.sheets.specs.Program.{text_record, text_answer, print_length, print_after};

use terms::Record;

// The room for a print: three lines and at most 4,096 more, of at most 80 bytes each.
pub const PRINT_ROOM: usize = 327920;

// Solves a text: the reader's refusal, else the solver's record and answer table.
fn solve_text(text: &[u8], answer: &mut [u16]) -> Record
    ensures record { result ≡ text_record text.now (length answer.old) }
    ensures answer { answer.new ≡ text_answer text.now answer.old }
{
    let mut table = [0u16; 2048];
    let read = reader::read_sheet(text, &mut table[..]);
    // Kept: the C interface: a record's outcome is a number, which is printed.
    if read.outcome != 0 {
        return read;
    }
    let len = read.pieces as usize * 4;
    let mut work = [0u16; solver::MEMORY];
    solver::solve(&table[..len], answer, &mut work[..])
}

// Writes all that is printed for a text to the beginning of a buffer, and gives how many bytes that is. A buffer without room for the
// longest print is left as it is, and 0 bytes are written.
pub fn put_print(text: &[u8], out: &mut [u8]) -> usize
    ensures length { result ≡ print_length text.now (length out.old) }
    ensures bytes { out.new ≡ print_after text.now out.old }
{
    if out.len() < PRINT_ROOM {
        return 0;
    }
    let mut answer = [0u16; solver::ANSWER];
    let found = solve_text(text, &mut answer[..]);
    let behind = writer::put_record(found, out, 0);
    if found.outcome != 2 {
        return behind;
    }
    let len = found.pieces as usize * answers::ROW;
    writer::put_answer(&answer[..len], out, behind)
}
