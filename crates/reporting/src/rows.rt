// What an audit writes in each format: its numbers, and a row a range of filled logs.
use crate::asked::{Asked, adds_up, size};
use crate::held::{named, number, text, told};
use words::places::{CSV, HTML, JSON};

// One of three texts, by the format.
fn said(
    rt: &HostRuntime,
    form: usize,
    lines: &[u8],
    csv: &[u8],
    json: &[u8],
    buf: &mut [u8; 65536],
    at: usize,
) -> usize {
    if form == CSV {
        return text(rt, csv, buf, at);
    }
    if form == JSON {
        return text(rt, json, buf, at);
    }
    text(rt, lines, buf, at)
}

// A row of a page: 13 to 19, and how many these are.
fn item(
    rt: &HostRuntime,
    first: u64,
    last: u64,
    n: u64,
    buf: &mut [u8; 65536],
    at: usize,
) -> usize {
    let from = told(rt, b"<li>", first, buf, at);
    if n == 1 {
        return text(rt, b"</li>\n", buf, from);
    }
    let to = told(rt, b"&ndash;", last, buf, from);
    let many = told(rt, b" <small>", n, buf, to);
    text(rt, b"</small></li>\n", buf, many)
}

// A row of the lines: '13..19 filled', or '4 filled' where it is one log.
fn line(
    rt: &HostRuntime,
    first: u64,
    last: u64,
    n: u64,
    buf: &mut [u8; 65536],
    at: usize,
) -> usize {
    let from = number(rt, first, buf, at);
    if n == 1 {
        return text(rt, b" filled\n", buf, from);
    }
    let to = named(rt, b"..", last, buf, from);
    text(rt, b" filled\n", buf, to)
}

// A row of a table: 'filled range,13,19,7'.
fn cells(
    rt: &HostRuntime,
    first: u64,
    last: u64,
    n: u64,
    buf: &mut [u8; 65536],
    at: usize,
) -> usize {
    let from = named(rt, b"filled range,", first, buf, at);
    let to = named(rt, b",", last, buf, from);
    let many = named(rt, b",", n, buf, to);
    text(rt, b"\n", buf, many)
}

// A pair of a list of pairs: '[13,19]', after a comma but where it leads.
fn pair(
    rt: &HostRuntime,
    lead: bool,
    first: u64,
    last: u64,
    buf: &mut [u8; 65536],
    at: usize,
) -> usize {
    let from = if lead {
        named(rt, b"[", first, buf, at)
    } else {
        named(rt, b",[", first, buf, at)
    };
    let to = named(rt, b",", last, buf, from);
    text(rt, b"]\n", buf, to)
}

// The row of a range, in its format; `lead` where it is the first.
pub fn range(
    rt: &HostRuntime,
    form: usize,
    lead: bool,
    first: u64,
    last: u64,
    n: u64,
    buf: &mut [u8; 65536],
    at: usize,
) -> usize {
    if form == HTML {
        return item(rt, first, last, n, buf, at);
    }
    if form == CSV {
        return cells(rt, first, last, n, buf, at);
    }
    if form == JSON {
        return pair(rt, lead, first, last, buf, at);
    }
    line(rt, first, last, n, buf, at)
}

// The window of a table: its first and last record, where there is one, and how many there are.
fn window_cells(rt: &HostRuntime, start: u64, end: u64, buf: &mut [u8; 65536], at: usize) -> usize {
    if end <= start {
        return text(rt, b",,0", buf, at);
    }
    let a = number(rt, start, buf, at);
    let b = named(rt, b",", end - 1, buf, a);
    named(rt, b",", end - start, buf, b)
}

fn window(
    rt: &HostRuntime,
    form: usize,
    start: u64,
    end: u64,
    buf: &mut [u8; 65536],
    at: usize,
) -> usize {
    let a = said(
        rt,
        form,
        b"\nwindow ",
        b"\nwindow,",
        b",\"start\":",
        buf,
        at,
    );
    if form == CSV {
        return window_cells(rt, start, end, buf, a);
    }
    let b = number(rt, start, buf, a);
    if form == JSON {
        return named(rt, b",\"end\":", end, buf, b);
    }
    named(rt, b" ", end, buf, b)
}

// What was asked: profile, records, window.
fn question(
    rt: &HostRuntime,
    form: usize,
    asked: Asked,
    buf: &mut [u8; 65536],
    at: usize,
) -> usize {
    let a = said(
        rt,
        form,
        b"profile ",
        b"row,first,last,value\nprofile,,,",
        b"{\"profile\":",
        buf,
        at,
    );
    let b = number(rt, asked.profile as u64, buf, a);
    let c = said(
        rt,
        form,
        b"\nrecords ",
        b"\nrecords,,,",
        b",\"records\":",
        buf,
        b,
    );
    let d = number(rt, asked.count, buf, c);
    window(rt, form, asked.start, asked.end, buf, d)
}

// Whether the numbers add up, and where the proof stands.
fn verdict(rt: &HostRuntime, form: usize, sure: bool, buf: &mut [u8; 65536], at: usize) -> usize {
    let a = if sure {
        said(
            rt,
            form,
            b"\nadds up yes\nproof ",
            b"\nadds up,,,yes\nproof,,,",
            b",\"adds_up\":true,\"proof\":\"",
            buf,
            at,
        )
    } else {
        said(
            rt,
            form,
            b"\nadds up no\nproof ",
            b"\nadds up,,,no\nproof,,,",
            b",\"adds_up\":false,\"proof\":\"",
            buf,
            at,
        )
    };
    let b = text(
        rt,
        b"docs/AUDIT.md: listed-exactly-if in crates/profile_theorems/proofs/Lists.antt",
        buf,
        a,
    );
    said(rt, form, b"\n", b"\n", b"\",\"filled_ranges\":[\n", buf, b)
}

// The numbers, before the rows.
pub fn head(
    rt: &HostRuntime,
    form: usize,
    asked: Asked,
    carried: u64,
    filled: u64,
    buf: &mut [u8; 65536],
    at: usize,
) -> usize {
    let a = question(rt, form, asked, buf, at);
    let b = said(
        rt,
        form,
        b"\ncarried ",
        b"\ncarried,,,",
        b",\"carried\":",
        buf,
        a,
    );
    let c = number(rt, carried, buf, b);
    let d = said(
        rt,
        form,
        b"\nfilled ",
        b"\nfilled,,,",
        b",\"filled\":",
        buf,
        c,
    );
    let e = number(rt, filled, buf, d);
    verdict(
        rt,
        form,
        adds_up(carried, filled, size(asked.start, asked.end)),
        buf,
        e,
    )
}

// What stands after the rows: JSON alone has something to close.
pub fn tail(rt: &HostRuntime, form: usize, buf: &mut [u8; 65536], at: usize) -> usize {
    said(rt, form, b"", b"", b"]}\n", buf, at)
}
