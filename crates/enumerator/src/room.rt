// Queries and heaps are kept as the bytes of 01, each in an array with room to spare.
ghost use Rattle.std.specs.Prelude.{◌<◌};

pub type Room = [u8; 64];

// The byte at a place; 0 past the end.
pub fn byte(a: &Room, at: usize) -> usize
    ensures { result < 256 }
{
    if at < 64 { usize::from(a[at]) } else { 0 }
}

// A byte is written at a place; nothing past the end.
pub fn put(a: &mut Room, at: usize, value: usize) {
    if at < 64 {
        a[at] = (value % 256) as u8;
    }
}

// A byte is written at a place; the answer is the next place.
pub fn add(a: &mut Room, at: usize, value: usize) -> usize {
    put(a, at, value);
    if at < 64 { at + 1 } else { 64 }
}

// The first so many bytes; all of them if there are no more.
pub fn prefix(a: &[u8], length: usize) -> &[u8] {
    if a.len() < length {
        return a;
    }
    &a[0..length]
}

// The value of bit j, counted from 1.
pub fn bit(j: usize) -> usize {
    match j {
        1..=8 => 1 << (j - 1),
        _ => 0,
    }
}

// The same value at count places.
pub fn fill(a: &mut Room, from: usize, count: usize, value: usize)
    requires from_bound { from < 10000 }
    requires count_bound { count < 10000 }
{
    for i in 0..count {
        put(a, from + i, value);
    }
}
