// Listings over windows that repeat, overlap and are empty, with bounds of both kinds, and every refusal.
use crate::listing::*;
use shown::text;

fn on_c(rt: &HostRuntime, v: &[i64], e: &[u64], d: &[i16]) {
    line(rt, v, e, d, 1, [0, 0, 0, 0], [9, 0, 0, 0], none(), none());
    line(
        rt,
        v,
        e,
        d,
        1,
        [0, 0, 0, 0],
        [9, 0, 0, 0],
        exclusive(10),
        inclusive(40),
    );
    line(
        rt,
        v,
        e,
        d,
        4,
        [0, 3, 3, 8],
        [9, 8, 8, 2],
        both(25),
        inclusive(140),
    );
    line(rt, v, e, d, 2, [0, 0, 0, 0], [9, 9, 0, 0], none(), both(15));
    strict(rt, v, e, d, 2, [0, 0, 0, 0], [9, 9, 0, 0], none(), both(15));
    strict(
        rt,
        v,
        e,
        d,
        1,
        [0, 0, 0, 0],
        [9, 0, 0, 0],
        both(15),
        both(40),
    );
    line(
        rt,
        v,
        e,
        d,
        4,
        [4, 18446744073709551615, 100, 6],
        [5, 4, 9, 9],
        inclusive(31),
        exclusive(240),
    );
    line(
        rt,
        v,
        e,
        d,
        0,
        [0, 0, 0, 0],
        [0, 0, 0, 0],
        exclusive(0),
        none(),
    );
}

fn on_d(rt: &HostRuntime, v: &[i64], e: &[u64], d: &[i16]) {
    line(rt, v, e, d, 4, [1, 1, 2, 0], [5, 5, 4, 1], none(), none());
    line(
        rt,
        v,
        e,
        d,
        3,
        [1, 1, 2, 0],
        [5, 4, 4, 0],
        exclusive(5),
        exclusive(8),
    );
    line(rt, v, e, d, 2, [1, 0, 0, 0], [5, 2, 0, 0], none(), none());
    line(rt, v, e, d, 2, [0, 1, 0, 0], [5, 6, 0, 0], none(), none());
}

// With room for 10 values, and for 9.
fn room(rt: &HostRuntime, v: &[i64], e: &[u64], d: &[i16]) {
    within(
        rt,
        v,
        e,
        d,
        2,
        2,
        [0, 1, 0, 0],
        [9, 8, 0, 0],
        inclusive(20),
        inclusive(40),
        10,
        2,
    );
    within(
        rt,
        v,
        e,
        d,
        2,
        2,
        [0, 1, 0, 0],
        [9, 8, 0, 0],
        inclusive(20),
        inclusive(40),
        9,
        2,
    );
}

// With a place for one count: 5 and 7 are tried before 10.
fn places(rt: &HostRuntime, v: &[i64], e: &[u64], d: &[i16]) {
    within(
        rt,
        v,
        e,
        d,
        1,
        1,
        [1, 0, 0, 0],
        [5, 0, 0, 0],
        none(),
        none(),
        16,
        1,
    );
    within(
        rt,
        v,
        e,
        d,
        2,
        2,
        [1, 2, 0, 0],
        [5, 5, 0, 0],
        none(),
        none(),
        16,
        1,
    );
    within(
        rt,
        v,
        e,
        d,
        2,
        2,
        [0, 0, 0, 0],
        [6, 5, 0, 0],
        none(),
        none(),
        16,
        1,
    );
    within(
        rt,
        v,
        e,
        d,
        2,
        2,
        [0, 0, 0, 0],
        [5, 5, 0, 0],
        none(),
        none(),
        16,
        1,
    );
}

// Starts without an end, 17 bounds and 16, 256 windows, each empty, and one more.
fn limits(rt: &HostRuntime, v: &[i64], e: &[u64], d: &[i16]) {
    within(
        rt,
        v,
        e,
        d,
        2,
        1,
        [0, 0, 0, 0],
        [9, 0, 0, 0],
        none(),
        none(),
        16,
        8,
    );
    line(
        rt,
        v,
        e,
        d,
        1,
        [0, 0, 0, 0],
        [10, 0, 0, 0],
        so_many(17),
        none(),
    );
    line(
        rt,
        v,
        e,
        d,
        1,
        [0, 0, 0, 0],
        [10, 0, 0, 0],
        so_many(16),
        none(),
    );
    many(rt, v, e, d, 256, 0, 256);
    many(rt, v, e, d, 257, 10, 1);
}

fn far(rt: &HostRuntime, v: &[i64], e: &[u64], d: &[i16]) {
    line(
        rt,
        v,
        e,
        d,
        2,
        [0, 1, 0, 0],
        [5, 4, 0, 0],
        inclusive(-9223372036854775808),
        inclusive(9223372036854775807),
    );
    line(
        rt,
        v,
        e,
        d,
        2,
        [0, 1, 0, 0],
        [5, 4, 0, 0],
        exclusive(-9223372036854775808),
        exclusive(9223372036854775807),
    );
}

fn damaged(rt: &HostRuntime, v: &[i64], e: &[u64], d: &[i16]) {
    line(rt, v, e, d, 1, [0, 0, 0, 0], [99, 0, 0, 0], none(), none());
}

// By document 01's columns C and D.
fn on_both(
    rt: &HostRuntime,
    starts: &[i64],
    ends: &[u64],
    steps: &[i16],
    d_starts: &[i64],
    d_ends: &[u64],
    d_steps: &[i16],
) {
    text(rt, b"C\n");
    on_c(rt, starts, ends, steps);
    text(rt, b"D\n");
    on_d(rt, d_starts, d_ends, d_steps);
    text(rt, b"room\n");
    room(rt, starts, ends, steps);
    places(rt, d_starts, d_ends, d_steps);
    text(rt, b"too many\n");
    limits(rt, starts, ends, steps);
}

fn both_columns(rt: &HostRuntime) {
    on_both(
        rt,
        &[10, 30, 31, 40],
        &[4, 5, 6, 9],
        &[5, 0, -3, 100],
        &[10, 6],
        &[2, 5],
        &[-5, 1],
    );
}

// From the least i64 to the greatest: distances that no i64 holds.
fn distant(rt: &HostRuntime) {
    far(
        rt,
        &[-9223372036854775808, 9223372036854775806],
        &[3, 5],
        &[32767, 1],
    );
}

// D with an end that does not rise.
fn same_ends(rt: &HostRuntime) {
    damaged(rt, &[10, 6], &[2, 2], &[-5, 1]);
}

pub fn all(rt: &HostRuntime) {
    text(rt, b"== listed\n");
    both_columns(rt);
    text(rt, b"far\n");
    distant(rt);
    text(rt, b"damaged\n");
    same_ends(rt);
}
