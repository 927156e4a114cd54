// A row of `find`: a number, and whether it is carried or filled. Rows go to a buffer, since there may be many.
ghost use Rattle.std.specs.Prelude.{◌+◌, ◌≤◌};

use crate::printing::{put, put_byte, put_text, put_unsigned};
use words::places::{CSV, JSON, LINES};

// The number, and what stands before it and after it.
fn put_number(form: usize, lead: u8, k: i64, buf: &mut [u8; 65536], at: usize) -> usize
    requires { at ≤ 65000 }
    ensures { result ≤ at + 55 }
{
    if form == LINES {
        return put(k, 32, buf, at);
    }
    if form == CSV {
        return put(k, 44, buf, at);
    }
    let opened = put_byte(lead, buf, at);
    let named = put_text(b"{\"number\":", buf, opened);
    put(k, 44, buf, named)
}

// One of three texts, by the format.
fn put_said(
    form: usize,
    lines: &[u8],
    csv: &[u8],
    json: &[u8],
    buf: &mut [u8; 65536],
    at: usize,
) -> usize
    requires { at ≤ 65400 }
    ensures { result ≤ at + 32 }
{
    if form == CSV {
        return put_text(csv, buf, at);
    }
    if form == JSON {
        return put_text(json, buf, at);
    }
    put_text(lines, buf, at)
}

// The row of a number that is carried, from a place of the buffer on. Answers the place after it. (In a buffer that is nearly full there is no
// room; who writes 512 rows at most begins none there.)
pub fn carried(form: usize, lead: u8, k: i64, index: u64, buf: &mut [u8; 65536], at: usize) -> usize
    ensures { result ≤ at + 110 }
{
    if 65000 < at {
        return at;
    }
    let named = put_number(form, lead, k, buf, at);
    let worded = put_said(
        form,
        b"carried at index ",
        b"carried,",
        b"\"answer\":\"carried\",\"index\":",
        buf,
        named,
    );
    if form == JSON {
        let closed = put_unsigned(index, 125, buf, worded);
        return put_byte(10, buf, closed);
    }
    put_unsigned(index, 10, buf, worded)
}

// The row of a number that is filled, likewise.
pub fn filled(form: usize, lead: u8, k: i64, buf: &mut [u8; 65536], at: usize) -> usize
    ensures { result ≤ at + 110 }
{
    if 65000 < at {
        return at;
    }
    let named = put_number(form, lead, k, buf, at);
    put_said(
        form,
        b"filled\n",
        b"filled,\n",
        b"\"answer\":\"filled\"}\n",
        buf,
        named,
    )
}
