// Presence bitmaps, read: whether a record is present, how many are, where the next one is. Every call takes any bytes and any numbers.
#![tactic(auto)]

ghost use Rattle.std.specs.Prelude.{◌≡◌, not, ◌+◌, ◌*◌, ◌<◌, ◌≤◌, min, length, slice_index};
ghost use Rattle.ranges.specs.Ranges.{first_from};
ghost use Rattle.bits.specs.Bitmap.{present, count_for};
ghost use Rattle.bits.specs.Word.{word_at, sought_at, sought, window_at};

use std::array;

// Byte j, or 0 past the last.
fn byte_at(bytes: &[u8], j: usize) -> u8
    ensures { result ≡ slice_index bytes.now j }
{
    bytes.get(j).copied().unwrap_or(0)
}

// The eight bytes from j on as one number, lowest first; a byte that is not there is 0. Where all eight are there, the compiler makes
// one load of them.
fn word(bytes: &[u8], j: usize) -> u64
    requires { j < 4611686018427387904 }
    ensures { result ≡ word_at bytes.now j }
{
    if j + 8 <= bytes.len() {
        u64::from_le_bytes(array::from_fn(|k| bytes[j + k]))
    } else {
        u64::from_le_bytes(array::from_fn(|k| byte_at(bytes, j + k)))
    }
}

// Whether record i is present.
pub fn is_present(bytes: &[u8], i: usize) -> bool
    ensures { result ≡ present bytes.now i }
{
    byte_at(bytes, i / 8) >> (i % 8) & 1 == 1
}

// How many records there are below count, in the bytes.
fn reach(bytes: &[u8], count: usize) -> usize
    ensures { result ≡ min count (8 * length bytes.now) }
{
    count.min(bytes.len().saturating_mul(8))
}

// How many of the first count records are present.
pub fn count_present(bytes: &[u8], count: usize) -> usize
    ensures { result ≡ count_for (present bytes.now) 0 count }
{
    let there = reach(bytes, count);
    let (eights, _) = bytes.as_chunks::<8>();
    let mut ones = 0;
    for eight in &eights[..there / 64] {
        ones += u64::from_le_bytes(*eight).count_ones() as usize;
    }
    let mask = (1u64 << (there % 64)) - 1;
    ones + (word(bytes, 8 * (there / 64)) & mask).count_ones() as usize
}

// The record that lies so many after another, but none past count.
// Kept: by `from.saturating_add(by).min(count)` a walk over present records was a tenth slower, by `from + by.min(count - from)` a twentieth.
fn near(from: usize, by: usize, count: usize) -> usize
    requires { from ≤ count }
    ensures { result ≡ min (from + by) count }
{
    if by < count - from { from + by } else { count }
}

// The eight bytes from j on, with a 1 for each record that is looked for: each whose presence is `here`.
// Kept: `here` is a truth value, in the definitions too; an enum of present and absent would be turned into it by each clause.
fn look(bytes: &[u8], j: usize, here: bool) -> u64
    requires { j < 4611686018427387904 }
    ensures { result ≡ sought_at here bytes.now j }
{
    let found = word(bytes, j);
    if here { found } else { !found }
}

// The records from from on, at least 57 of them, with a 1 for each that is present, or for each that is absent; 0 past them.
// Kept: `here`, as in `look`.
pub fn window(bytes: &[u8], from: usize, here: bool) -> u64
    ensures { result ≡ window_at here bytes.now from }
{
    look(bytes, from / 8, here) >> (from % 8)
}

// The first record from from on, below count, that is looked for; eight bytes a turn.
// Kept: `here`, as in `look`.
fn next_sought(bytes: &[u8], from: usize, count: usize, here: bool) -> usize
    ensures { result ≡ first_from (sought here bytes.now) from count }
{
    if count <= from {
        return from;
    }
    let rest = window(bytes, from, here);
    if rest != 0 {
        return near(from, rest.trailing_zeros() as usize, count);
    }
    let at = from / 8;
    let last = (count - 1) / 8;
    // By `1..=(last - at) / 8` a walk over empty bytes took half as long again.
    for k in 1..(last - at) / 8 + 1 {
        let j = at + 8 * k;
        let next = look(bytes, j, here);
        if next != 0 {
            return near(8 * j, next.trailing_zeros() as usize, count);
        }
    }
    count
}

// The first record from from on, below count, that is present; count where there is none.
// Kept: two names for two questions; the one function of both is `next_sought`.
pub fn next_present(bytes: &[u8], from: usize, count: usize) -> usize
    ensures { result ≡ first_from (present bytes.now) from count }
{
    next_sought(bytes, from, count, true)
}

// The first record from from on, below count, that is absent; count where there is none.
// Kept: as next_present.
pub fn next_absent(bytes: &[u8], from: usize, count: usize) -> usize
    ensures { result ≡ first_from (λ i. not (present bytes.now i)) from count }
{
    next_sought(bytes, from, count, false)
}
