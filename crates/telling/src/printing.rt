// What is written: answers on standard output, by functions that say whether all was written; messages and refusals on standard error.
ghost use Rattle.std.specs.Prelude.{◌+◌, ◌≤◌};

use crate::forms::next;
use loftsplice::refusal::number;
use meaning::Refusal;

pub fn message(rt: &HostRuntime, s: &[u8]) {
    let _ = rt.stderr().write_all(s);
}

// A number among messages.
pub fn message_number(rt: &HostRuntime, n: u64) {
    let mut digits = [0u8; 20];
    let count = io::decimal(n, &mut digits);
    message(rt, &digits[..count]);
}

// Why, in words, before the number and the name.
fn reason(rt: &HostRuntime, why: Refusal) {
    message(rt, b"loftsplice: ");
    match why {
        Refusal::Shape => message(rt, b"array lengths differ, or over 4,096 runs\n"),
        Refusal::Ends => message(
            rt,
            b"a run length is 0, or the total is over 4,294,967,295\n",
        ),
        Refusal::Reach => message(rt, b"a run's last element is outside i64\n"),
        Refusal::Index => message(rt, b"the index is not below the length\n"),
        Refusal::Window => message(rt, b"the window's end is above the length\n"),
        Refusal::Scan => message(
            rt,
            b"the scan's window or index is outside, or its value is not the element there\n",
        ),
        Refusal::Order => message(rt, b"the elements do not rise\n"),
        Refusal::Bounds => message(rt, b"too many bounds, inputs or windows\n"),
        Refusal::Input => message(rt, b"a bound's input has no value\n"),
        Refusal::Room => message(rt, b"an output has too few places\n"),
        Refusal::Cut => message(
            rt,
            b"fewer bytes than the length says, or than the records need\n",
        ),
        Refusal::Kind => message(rt, b"the kind is not 1\n"),
        Refusal::Size => message(rt, b"the length is no record's\n"),
        Refusal::Count => message(rt, b"there are too many records\n"),
        Refusal::Range => message(rt, b"an element is no record number\n"),
        Refusal::Profile => message(rt, b"the profile is neither 1 nor 2\n"),
        Refusal::Falling => message(rt, b"a run falls\n"),
        Refusal::Total => message(rt, b"the sum over all windows is out of range\n"),
    }
}

// A refusal's name in documents 01 and 02, and a line end.
fn name(rt: &HostRuntime, why: Refusal) {
    match why {
        Refusal::Shape => message(rt, b" SHAPE\n"),
        Refusal::Ends => message(rt, b" ENDS\n"),
        Refusal::Reach => message(rt, b" REACH\n"),
        Refusal::Index => message(rt, b" INDEX\n"),
        Refusal::Window => message(rt, b" WINDOW\n"),
        Refusal::Scan => message(rt, b" SCAN\n"),
        Refusal::Order => message(rt, b" ORDER\n"),
        Refusal::Bounds => message(rt, b" BOUNDS\n"),
        Refusal::Input => message(rt, b" INPUT\n"),
        Refusal::Room => message(rt, b" ROOM\n"),
        Refusal::Cut => message(rt, b" CUT\n"),
        Refusal::Kind => message(rt, b" KIND\n"),
        Refusal::Size => message(rt, b" SIZE\n"),
        Refusal::Count => message(rt, b" COUNT\n"),
        Refusal::Range => message(rt, b" RANGE\n"),
        Refusal::Profile => message(rt, b" PROFILE\n"),
        Refusal::Falling => message(rt, b" FALLING\n"),
        Refusal::Total => message(rt, b" TOTAL\n"),
    }
}

// The last line of a call that is refused.
pub fn refused(rt: &HostRuntime, why: Refusal) {
    reason(rt, why);
    message(rt, b"refused ");
    message_number(rt, number(why) as u64);
    name(rt, why);
}

// Whether all was written, after a message where not.
fn told(rt: &HostRuntime, written: bool) -> bool {
    if !written {
        message(
            rt,
            b"loftsplice: standard output takes no more\nnot written\n",
        );
    }
    written
}

pub fn text(rt: &HostRuntime, s: &[u8]) -> bool {
    told(rt, rt.write_all(s).is_ok())
}

pub fn unsigned(rt: &HostRuntime, n: u64) -> bool {
    let mut digits = [0u8; 20];
    let count = io::decimal(n, &mut digits);
    text(rt, &digits[..count])
}

// The first so many of 20 digits and one byte more, into the buffer from a place on. Answers the place after them.
fn put_digits(digits: &[u8; 20], n: usize, after: u8, buf: &mut [u8; 65536], at: usize) -> usize
    requires { at ≤ 65501 }
    ensures { result ≤ at + 21 }
{
    let mut i = 0;
    while i < 20 && i < n {
        buf[at + i] = digits[i];
        i += 1;
    }
    buf[at + i] = after;
    at + i + 1
}

// An unsigned number and one byte more.
pub(crate) fn put_unsigned(n: u64, after: u8, buf: &mut [u8; 65536], at: usize) -> usize
    requires { at ≤ 65501 }
    ensures { result ≤ at + 21 }
{
    let mut digits = [0u8; 20];
    let count = io::decimal(n, &mut digits);
    put_digits(&digits, count, after, buf, at)
}

// A number, by its key (2^63 is 0), and one byte more, into the buffer from a place on. Answers the place after them.
pub(crate) fn put(value: i64, after: u8, buf: &mut [u8; 65536], at: usize) -> usize
    requires { at ≤ 65500 }
    ensures { result ≤ at + 22 }
{
    let key = keys::bias(value);
    if key < 9223372036854775808 {
        buf[at] = 45;
        return put_unsigned(9223372036854775808 - key, after, buf, at + 1);
    }
    put_unsigned(key - 9223372036854775808, after, buf, at)
}

// A byte into the buffer, 0: none. Answers the place after it.
pub(crate) fn put_byte(byte: u8, buf: &mut [u8; 65536], at: usize) -> usize
    requires { at ≤ 65500 }
    ensures { result ≤ at + 1 }
{
    if byte == 0 {
        return at;
    }
    buf[at] = byte;
    at + 1
}

// Up to 32 bytes of text into the buffer, from a place on. Answers the place after them.
pub(crate) fn put_text(s: &[u8], buf: &mut [u8; 65536], at: usize) -> usize
    requires { at ≤ 65500 }
    ensures { result ≤ at + 32 }
{
    let mut i = 0;
    while i < 32 && i < s.len() {
        buf[at + i] = s[i];
        i += 1;
    }
    at + i
}

// The buffer up to a place, by one write.
fn flush(rt: &HostRuntime, buf: &[u8; 65536], at: usize) -> bool
    requires { at ≤ 65536 }
{
    let view: &[u8] = buf;
    text(rt, &view[..at])
}

// The rows that a buffer holds up to a place.
pub fn written(rt: &HostRuntime, buf: &[u8; 65536], at: usize) -> bool {
    if 65536 < at {
        return false;
    }
    flush(rt, buf, at)
}

// A number and one byte more.
pub fn signed(rt: &HostRuntime, value: i64, after: u8) -> bool {
    let mut buf = io::large_buffer();
    let at = put(value, after, &mut buf, 0);
    flush(rt, &buf, at)
}

// An item of a list: the byte before it, 0 where there is none, the number and a line end.
fn put_item(lead: u8, value: i64, buf: &mut [u8; 65536], at: usize) -> usize
    requires { at ≤ 65400 }
    ensures { result ≤ at + 23 }
{
    let from = put_byte(lead, buf, at);
    put(value, 10, buf, from)
}

// The first so many of the values, one a line, with the byte that stands before the first of them.
pub fn values(rt: &HostRuntime, list: &[i64; 2048], count: u64, lead: u8) -> bool {
    let mut buf = io::large_buffer();
    let mut at: usize = 0;
    let mut before = lead;
    let mut i = 0;
    while i < 2048 && (i as u64) < count {
        at = put_item(before, list[i], &mut buf, at);
        before = next(before);
        i += 1;
    }
    flush(rt, &buf, at)
}
