// What is written, held in a buffer until it is full. A place beyond the buffer says that a write failed: nothing more is held, and the message stands.
use telling::printing::written;

const FAILED: usize = 65537;

pub fn byte(rt: &HostRuntime, value: u8, buf: &mut [u8; 65536], at: usize) -> usize {
    if 65536 < at {
        return at;
    }
    if at < 65536 {
        buf[at] = value;
        return at + 1;
    }
    if !written(rt, buf, at) {
        return FAILED;
    }
    buf[0] = value;
    1
}

pub fn text(rt: &HostRuntime, s: &[u8], buf: &mut [u8; 65536], at: usize) -> usize {
    let mut to = at;
    let mut i = 0;
    while i < s.len() {
        to = byte(rt, s[i], buf, to);
        i += 1;
    }
    to
}

// Whether a comma stands before digit i of n.
fn parted(apart: bool, i: usize, n: usize) -> bool {
    if !apart {
        return false;
    }
    if i == 0 {
        return false;
    }
    if n <= i {
        return false;
    }
    (n - i) % 3 == 0
}

// The first so many of 20 digits, with a comma before each three of them or none.
fn digits(
    rt: &HostRuntime,
    digits: &[u8; 20],
    n: usize,
    apart: bool,
    buf: &mut [u8; 65536],
    at: usize,
) -> usize {
    let mut to = at;
    let mut i = 0;
    while i < 20 && i < n {
        if parted(apart, i, n) {
            to = byte(rt, 44, buf, to);
        }
        to = byte(rt, digits[i], buf, to);
        i += 1;
    }
    to
}

pub fn number(rt: &HostRuntime, n: u64, buf: &mut [u8; 65536], at: usize) -> usize {
    let mut decimal = [0u8; 20];
    let count = io::decimal(n, &mut decimal);
    digits(rt, &decimal, count, false, buf, at)
}

// A number for who reads it: 4,294,967,295.
pub fn grouped(rt: &HostRuntime, n: u64, buf: &mut [u8; 65536], at: usize) -> usize {
    let mut decimal = [0u8; 20];
    let count = io::decimal(n, &mut decimal);
    digits(rt, &decimal, count, true, buf, at)
}

// A text, and a number after it.
pub fn named(rt: &HostRuntime, lead: &[u8], n: u64, buf: &mut [u8; 65536], at: usize) -> usize {
    let to = text(rt, lead, buf, at);
    number(rt, n, buf, to)
}

pub fn told(rt: &HostRuntime, lead: &[u8], n: u64, buf: &mut [u8; 65536], at: usize) -> usize {
    let to = text(rt, lead, buf, at);
    grouped(rt, n, buf, to)
}

// A byte of a text that is no markup. What no page may hold is shown as what can't be shown.
fn escaped_byte(rt: &HostRuntime, value: u8, buf: &mut [u8; 65536], at: usize) -> usize {
    match value {
        38 => text(rt, b"&amp;", buf, at),
        60 => text(rt, b"&lt;", buf, at),
        62 => text(rt, b"&gt;", buf, at),
        34 => text(rt, b"&quot;", buf, at),
        39 => text(rt, b"&#39;", buf, at),
        0..=31 => text(rt, b"&#xFFFD;", buf, at),
        127 => text(rt, b"&#xFFFD;", buf, at),
        _ => byte(rt, value, buf, at),
    }
}

pub fn escaped(rt: &HostRuntime, s: &[u8], buf: &mut [u8; 65536], at: usize) -> usize {
    let mut to = at;
    let mut i = 0;
    while i < s.len() {
        to = escaped_byte(rt, s[i], buf, to);
        i += 1;
    }
    to
}
