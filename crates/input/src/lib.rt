// Standard input, read to its end, or to one byte more than a sheet may have. What was read is passed by value, and its fields are seen
// here alone: no program can make one up, so whoever has one has read it.
#![tactic(auto)]

ghost use Rattle.std.specs.Prelude.{◌≡◌, false, ℕ, ◌-◌, ◌≤◌, IfOk};
ghost use Rattle.input.specs.Reading.{text_of, moved, Moved, has_failed, is_open, after_read, InBounds, GoesOn, Whole};

use std::io;
use std::io::{Read, Stdin};

// How many bytes are read at the most: one more than a sheet may have.
const MOST_READ: usize = 16385;

// Whether more may come, the input has ended, or a read has failed.
#[derive(Clone, Copy)]
enum State {
    Open,
    Ended,
    Failed,
}

// What was read: the first len of the bytes.
#[derive(Clone, Copy)]
pub struct Input {
    bytes: [u8; MOST_READ],
    len: usize,
    state: State,
}

// A read's answer: how many bytes have come, or nothing where it failed.
fn moved_by(got: io::Result<usize>) -> Option<usize>
    ensures number { result ≡ moved got }
    ensures moved { (room : ℕ) → IfOk got (λ n. n ≤ room) → Moved room result }
{
    got.ok()
}

// What a read's answer makes of a text of so many bytes: a failure, the input's end where no byte has come, else so many bytes more.
fn after(bytes: [u8; MOST_READ], len: usize, got: Option<usize>) -> Input
    requires len_bound { len ≤ 16385 }
    requires moved { Moved (16385 - len) got }
    ensures { result ≡ after_read bytes len got }
{
    let (state, come) = match got {
        None => (State::Failed, 0),
        Some(0) => (State::Ended, 0),
        Some(n) => (State::Open, n),
    };
    Input {
        bytes,
        len: len + come,
        state,
    }
}

impl Input {
    // Whether there is more to read.
    fn open(self) -> bool
        ensures { result ≡ is_open self }
    {
        matches!(self.state, State::Open) && self.len < MOST_READ
    }

    // One read more: what was read stays where it is, and what comes stands behind it. No contract says what a read gives, so nothing proves
    // that the bytes and the answer handed on here are those of the read.
    fn more(self, mut stdin: Stdin) -> Input
        requires { InBounds self }
        ensures { GoesOn self result }
    {
        let mut bytes = self.bytes;
        let len = self.len;
        let got = stdin.read(&mut bytes[len..]);
        after(bytes, len, moved_by(got))
    }

    // Reads until the input has ended or there are more bytes than a sheet may have.
    // Kept: the new form is no plainer: how far the text is read, and when it ends, is what each read says.
    pub fn read(stdin: Stdin) -> Input
        ensures { has_failed result.state ≡ false → Whole result }
    {
        let mut input = Input {
            bytes: [0; MOST_READ],
            len: 0,
            state: State::Open,
        };
        while input.open() {
            input = input.more(stdin);
        }
        input
    }

    // Whether a read has failed.
    pub fn failed(self) -> bool
        ensures { result ≡ has_failed self.state }
    {
        matches!(self.state, State::Failed)
    }

    // What was read.
    pub fn text(&self) -> &[u8]
        ensures { result.now ≡ text_of self.now }
    {
        &self.bytes[..self.len.min(MOST_READ)]
    }
}
