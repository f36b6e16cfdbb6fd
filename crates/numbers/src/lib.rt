// Numbers: read and written where they are there, added and compared within their widths.
#![tactic(auto)]

ghost use Rattle.std.specs.Prelude.{◌≡◌, cond, ◌+◌, ◌-◌, ◌/◌, ◌%◌, ◌^◌, ◌≤◌, get_or, set, take};
ghost use Rattle.laws.specs.Lists.{all_bits};
ghost use Rattle.laws.specs.Buffers.{overwrite, set_four};

// x in 16 bits.
pub fn narrow(x: usize) -> u16
    ensures { result ≡ x % 65536 }
{
    (x % 65536) as u16
}

// A number of a list, 0 past its end.
pub fn load(numbers: &[u16], i: usize) -> u16
    ensures { result ≡ get_or numbers.now i 0 }
{
    numbers.get(i).copied().unwrap_or(0)
}

// Writes one number, if there is room.
pub fn store(buffer: &mut [u16], i: usize, x: u16)
    ensures { buffer.new ≡ set buffer.old i x }
{
    if i < buffer.len() {
        buffer[i] = x;
    }
}

// Whether each byte is 0 or 1.
pub fn all_bits(pattern: &[u8]) -> bool
    ensures { result ≡ all_bits pattern.now }
{
    for i in 0..pattern.len() {
        if 1 < pattern[i] {
            return false;
        }
    }
    true
}

// Writes four numbers from a place on, as far as there is room.
pub fn store_four(buffer: &mut [u16], at: usize, a: u16, b: u16, c: u16, d: u16)
    ensures { buffer.new ≡ set_four buffer.old at a b c d }
{
    if buffer.len() <= at {
        return;
    }
    store(buffer, at, a);
    store(buffer, at + 1, b);
    store(buffer, at + 2, c);
    store(buffer, at + 3, d);
}

// Bit i of a number, counted from the low end.
pub fn bit_of(x: u16, i: usize) -> u16
    ensures { (result ≡ x / 2 ^ i % 2) × (result ≤ 1) }
{
    if i <= 15 { (x >> i) % 2 } else { 0 }
}

// x in 32 bits.
pub fn short(x: usize) -> u32
    ensures { result ≡ x % 4294967296 }
{
    (x % 4294967296) as u32
}

// Copies the first n numbers of one table to another, as far as both reach.
pub fn copy(from: &[u16], n: usize, table: &mut [u16])
    ensures { table.new ≡ overwrite (take n from.now) table.old }
{
    for i in 0..n {
        if from.len() <= i {
            return;
        }
        store(table, i, from[i]);
    }
}
