// A picture of a window, but for what its columns are coloured by: up to 600 columns, and the text around them.
ghost use Rattle.std.specs.Prelude.{◌≤◌};

use crate::held::{named, text, told};

// How many columns there are for so many records.
pub fn columns(size: u64) -> u64 {
    if size < 600 { size } else { 600 }
}

// The shade of a column: 0 where no record carries the field, 10 where all do, and from 1 to 9 where some do, be it one of millions.
pub fn shade(carried: u64, size: u64) -> u64 {
    if carried == 0 {
        return 0;
    }
    if size <= carried {
        return 10;
    }
    // a window has no more records; so the product is no more than a u64
    if 4294967295 < carried {
        return 9;
    }
    let part = carried * 9 / size;
    if part < 9 { part + 1 } else { 9 }
}

// Columns of one shade, side by side: where they begin, their shade, and the place in the buffer.
#[derive(Clone, Copy)]
pub struct Strip {
    pub from: u64,
    pub shade: u64,
    pub at: usize,
}

// The columns of a strip, up to one. What is filled is the ground that they stand on.
pub fn drawn(rt: &HostRuntime, strip: Strip, to: u64, buf: &mut [u8; 65536]) -> usize {
    let at = strip.at;
    let from = strip.from;
    if strip.shade == 0 {
        return at;
    }
    if to <= from {
        return at;
    }
    let a = named(rt, b"<rect class=\"s", strip.shade, buf, at);
    let b = named(rt, b"\" x=\"", from, buf, a);
    let c = named(rt, b"\" width=\"", to - from, buf, b);
    text(rt, b"\" height=\"1\"/>\n", buf, c)
}

// What the next column has of so many records, where so many columns are left.
fn share(records: u64, columns: u64) -> u64
    ensures { result ≤ records }
{
    if columns < 2 {
        return records;
    }
    let part = records / columns;
    if part < records { part } else { records }
}

// Where the column ends that begins at a record.
pub fn column_end(from: u64, end: u64, columns: u64) -> u64 {
    if end <= from {
        return end;
    }
    from + share(end - from, columns)
}

// What a column stands for.
fn scale(rt: &HostRuntime, many: u64, buf: &mut [u8; 65536], at: usize) -> usize {
    if many <= 600 {
        return text(rt, b"Each column is one record.", buf, at);
    }
    let a = told(
        rt,
        b"Each of the 600 columns stands for ",
        many / 600,
        buf,
        at,
    );
    let b = if many % 600 == 0 {
        a
    } else {
        told(rt, b" or ", many / 600 + 1, buf, a)
    };
    text(
        rt,
        b" records: the more of them carry the field, the stronger its colour; a single one is enough to show.",
        buf,
        b,
    )
}

// The numbers below the picture: the first record, one in the middle, the last.
fn axis(rt: &HostRuntime, start: u64, end: u64, buf: &mut [u8; 65536], at: usize) -> usize {
    if end <= start {
        return at;
    }
    let last = end - 1;
    let a = told(rt, b"<p class=\"axis\"><span>", start, buf, at);
    let b = told(rt, b"</span><span>", start + (last - start) / 2, buf, a);
    let c = told(rt, b"</span><span>", last, buf, b);
    text(rt, b"</span></p>\n", buf, c)
}

// A window without records has no picture.
pub fn none(rt: &HostRuntime, buf: &mut [u8; 65536], at: usize) -> usize {
    text(rt, b"<p>The window holds no record.</p>\n", buf, at)
}

// What stands before the columns: the ground.
pub fn opened(rt: &HostRuntime, many: u64, buf: &mut [u8; 65536], at: usize) -> usize {
    let all = columns(many);
    let a = named(
        rt,
        b"<figure>\n<svg xmlns=\"http://www.w3.org/2000/svg\" role=\"img\" preserveAspectRatio=\"none\" viewBox=\"0 0 ",
        all,
        buf,
        at,
    );
    let b = named(
        rt,
        b" 1\">\n<title>Where the field is carried, and where it is filled</title>\n<rect class=\"ground\" width=\"",
        all,
        buf,
        a,
    );
    text(rt, b"\" height=\"1\"/>\n", buf, b)
}

// What stands after them: the axis and the legend.
pub fn closed(
    rt: &HostRuntime,
    start: u64,
    end: u64,
    many: u64,
    buf: &mut [u8; 65536],
    at: usize,
) -> usize {
    let a = text(rt, b"</svg>\n", buf, at);
    let b = axis(rt, start, end, buf, a);
    let c = text(
        rt,
        b"<figcaption><span class=\"key all\"></span>carries the field <span class=\"key none\"></span>filled<br>\n",
        buf,
        b,
    );
    let d = scale(rt, many, buf, c);
    text(rt, b"</figcaption>\n</figure>\n", buf, d)
}
