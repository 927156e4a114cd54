// The picture's columns, each coloured by the share of its records that carry the field.
use crate::tally::{Counts, tally};
use reporting::asked::{Asked, size};
use reporting::picture::{Strip, closed, column_end, columns, drawn, none, opened, shade};

// One column more, of so many records.
fn column(
    rt: &HostRuntime,
    starts: &[i64],
    ends: &[u64],
    steps: &[i16],
    asked: Asked,
    x: u64,
    strip: Strip,
    buf: &mut [u8; 65536],
) -> Strip {
    let many = size(asked.start, asked.end);
    let next = match tally(starts, ends, steps, asked) {
        Counts::Both(carried, _) => shade(carried, many),
        Counts::Refused(_) => 0,
    };
    if next == strip.shade {
        return strip;
    }
    let at = drawn(rt, strip, x, buf);
    Strip {
        from: x,
        shade: next,
        at,
    }
}

// The columns: those that are left share what is left of the window, so that none differs from another by more than a record.
fn strips(
    rt: &HostRuntime,
    starts: &[i64],
    ends: &[u64],
    steps: &[i16],
    asked: Asked,
    buf: &mut [u8; 65536],
    at: usize,
) -> usize {
    let end = asked.end;
    let all = columns(size(asked.start, end));
    let mut from = asked.start;
    let mut strip = Strip {
        from: 0,
        shade: 0,
        at,
    };
    let mut x = 0;
    while x < all {
        let to = column_end(from, end, all - x);
        let part = Asked {
            profile: asked.profile,
            count: asked.count,
            start: from,
            end: to,
        };
        strip = column(rt, starts, ends, steps, part, x, strip, buf);
        from = to;
        x += 1;
    }
    drawn(rt, strip, all, buf)
}

// The picture, its axis and its legend. A window without records has none.
pub fn picture(
    rt: &HostRuntime,
    starts: &[i64],
    ends: &[u64],
    steps: &[i16],
    asked: Asked,
    buf: &mut [u8; 65536],
    at: usize,
) -> usize {
    let many = size(asked.start, asked.end);
    if many == 0 {
        return none(rt, buf, at);
    }
    let a = opened(rt, many, buf, at);
    let b = strips(rt, starts, ends, steps, asked, buf, a);
    closed(rt, asked.start, asked.end, many, buf, b)
}
