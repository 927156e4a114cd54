// Calls of the sample.
// Made by `corpus --rattle crates/replayed --cases 4 --seed 562`; not written by hand.
use crate::played::*;
use shown::text;

fn case_1(rt: &HostRuntime, v: &[i64], e: &[u64], d: &[i16]) {
    text(rt, b"case 1\n");
    let s = new(rt, v, e, d);
    let s = next(rt, s, v, e, d);
    let s = next(rt, s, v, e, d);
    let s = seek(rt, s, v, e, d, 82);
    let s = seek(rt, s, v, e, d, -3553853729926201273);
    let s = seek(rt, s, v, e, d, 99);
    let s = next(rt, s, v, e, d);
    let s = next(rt, s, v, e, d);
    current(rt, s);
    let s = next(rt, s, v, e, d);
    let s = seek(rt, s, v, e, d, 5157404573161995745);
    next(rt, s, v, e, d);
}

fn lent_1(rt: &HostRuntime) {
    case_1(rt, &[78], &[6], &[5]);
}

fn case_2(rt: &HostRuntime, v: &[i64], e: &[u64], d: &[i16]) {
    text(rt, b"case 2\n");
    let s = new(rt, v, e, d);
    pos(rt, s, v, e, d);
    let s = next(rt, s, v, e, d);
    let s = next(rt, s, v, e, d);
    let s = seek(rt, s, v, e, d, 65605);
    let s = next(rt, s, v, e, d);
    let f = fnew(
        rt,
        s,
        b0(),
        b2(exclusive(131151), inclusive(9223372036854775788)),
    );
    let f = fnext(rt, f, v, e, d, v0(), v0(), i0());
    let f = fnext(
        rt,
        f,
        v,
        e,
        d,
        v0(),
        v2(named_out(0), named_out(0)),
        i2(has(131159), has(131158)),
    );
    let f = freset(rt, f);
    fcurrent(rt, f);
    fseek(rt, f, v, e, d, 77, v0(), v0(), i0());
}

fn lent_2(rt: &HostRuntime) {
    case_2(rt, &[75, 131146, 131158], &[5, 8, 9], &[32766, 3, 6]);
}

fn case_3(rt: &HostRuntime, v: &[i64], e: &[u64], d: &[i16]) {
    text(rt, b"case 3\n");
    let s = new(rt, v, e, d);
    let s = next(rt, s, v, e, d);
    let s = next(rt, s, v, e, d);
    let s = next(rt, s, v, e, d);
    let s = reset(rt, s, v, e, d);
    let s = next(rt, s, v, e, d);
    let s = next(rt, s, v, e, d);
    let s = narrow(rt, s, v, e, d, 15, 2);
    let s = next(rt, s, v, e, d);
    let s = next(rt, s, v, e, d);
    let s = narrow(rt, s, v, e, d, 8, 15);
    next(rt, s, v, e, d);
}

fn lent_3(rt: &HostRuntime) {
    case_3(
        rt,
        &[
            543282934574495306,
            543282934574495315,
            -3000304754371014329,
            -3000304754371014313,
        ],
        &[3, 8, 13, 15],
        &[1, 32767, 2, 6],
    );
}

fn case_4(rt: &HostRuntime, v: &[i64], e: &[u64], d: &[i16]) {
    text(rt, b"case 4\n");
    let s = new(rt, v, e, d);
    let s = narrow(rt, s, v, e, d, 18, 19);
    let s = seek(rt, s, v, e, d, 56);
    let s = next(rt, s, v, e, d);
    let s = reset(rt, s, v, e, d);
    let s = next(rt, s, v, e, d);
    let f = fnew(rt, s, b1(inclusive(-3689591274295022220)), b0());
    let f = fnext(
        rt,
        f,
        v,
        e,
        d,
        v0(),
        v1(named(1)),
        i2(has(48), has(9223372036854775805)),
    );
    fcurrent(rt, f);
    let f = freset(rt, f);
    let f = fnext(rt, f, v, e, d, v0(), v0(), i0());
    fnext(
        rt,
        f,
        v,
        e,
        d,
        v1(named(0)),
        v1(named(0)),
        i1(has(9223372036854775805)),
    );
}

fn lent_4(rt: &HostRuntime) {
    case_4(
        rt,
        &[50, 46, -114920150524000262, -114920150524000223],
        &[4, 8, 14, 19],
        &[-2, 4, 6, -32767],
    );
}

pub fn all(rt: &HostRuntime) {
    lent_1(rt);
    lent_2(rt);
    lent_3(rt);
    lent_4(rt);
}
