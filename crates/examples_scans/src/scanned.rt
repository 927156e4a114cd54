// Call sequences on scans, one call a line: what it answers, then the scan's window, its state and, in brackets, the value that it carries.
// Windows inside falling runs, ends within a run,
// starts beyond the column, the extremes of i64, and scans that are refused.
use loftsplice::scan::{Carried, Made, Scan, State};
use shown::text;

fn made(rt: &HostRuntime, starts: &[i64], ends: &[u64], steps: &[i16]) -> Scan {
    match Scan::new(starts, ends, steps) {
        Made::Ready(s) => {
            text(rt, b"new");
            shown::scan(rt, s);
            s
        }
        Made::Refused(why) => {
            text(rt, b"new: ");
            shown::refused(rt, why);
            text(rt, b"\n");
            Scan {
                start: 0,
                end: 0,
                state: State::Ended,
                value: Carried::None,
            }
        }
    }
}

fn next(rt: &HostRuntime, s: Scan, starts: &[i64], ends: &[u64], steps: &[i16]) -> Scan {
    let m = s.next(starts, ends, steps);
    text(rt, b"next: ");
    shown::told(rt, m)
}

fn seek(
    rt: &HostRuntime,
    s: Scan,
    starts: &[i64],
    ends: &[u64],
    steps: &[i16],
    target: i64,
) -> Scan {
    let m = s.seek(starts, ends, steps, target);
    text(rt, b"seek ");
    shown::signed(rt, target);
    text(rt, b": ");
    shown::told(rt, m)
}

fn narrow(
    rt: &HostRuntime,
    s: Scan,
    starts: &[i64],
    ends: &[u64],
    steps: &[i16],
    from: u64,
    to: u64,
) -> Scan {
    let m = s.narrow(starts, ends, steps, from, to);
    text(rt, b"narrow ");
    shown::unsigned(rt, from);
    text(rt, b"..");
    shown::unsigned(rt, to);
    text(rt, b": ");
    shown::told(rt, m)
}

fn reset(rt: &HostRuntime, s: Scan, starts: &[i64], ends: &[u64], steps: &[i16]) -> Scan {
    let m = s.reset(starts, ends, steps);
    text(rt, b"reset: ");
    shown::told(rt, m)
}

fn stands(rt: &HostRuntime, s: Scan, starts: &[i64], ends: &[u64], steps: &[i16]) {
    text(rt, b"current ");
    shown::answer(rt, s.current());
    text(rt, b", pos ");
    shown::position(rt, s.pos(starts, ends, steps));
    text(rt, b"\n");
}

fn sought(rt: &HostRuntime, starts: &[i64], ends: &[u64], steps: &[i16]) {
    let s = made(rt, starts, ends, steps);
    stands(rt, s, starts, ends, steps);
    let s = seek(rt, s, starts, ends, steps, 16);
    let s = seek(rt, s, starts, ends, steps, 12);
    let s = next(rt, s, starts, ends, steps);
    stands(rt, s, starts, ends, steps);
    let s = seek(rt, s, starts, ends, steps, 26);
    let s = seek(rt, s, starts, ends, steps, 241);
    stands(rt, s, starts, ends, steps);
    let s = next(rt, s, starts, ends, steps);
    reset(rt, s, starts, ends, steps);
}

fn windows(rt: &HostRuntime, starts: &[i64], ends: &[u64], steps: &[i16]) {
    let s = made(rt, starts, ends, steps);
    let s = narrow(rt, s, starts, ends, steps, 3, 8);
    let s = next(rt, s, starts, ends, steps);
    let s = seek(rt, s, starts, ends, steps, 200);
    let s = narrow(rt, s, starts, ends, steps, 0, 9);
    let s = narrow(rt, s, starts, ends, steps, 3, 3);
    let s = next(rt, s, starts, ends, steps);
    let s = narrow(rt, s, starts, ends, steps, 8, 2);
    let s = next(rt, s, starts, ends, steps);
    let s = narrow(rt, s, starts, ends, steps, 18446744073709551615, 4);
    let s = seek(rt, s, starts, ends, steps, -9223372036854775808);
    narrow(rt, s, starts, ends, steps, 0, 10);
}

// D falls in its first run: the whole does not rise; from its second element on it does.
fn falling(rt: &HostRuntime, starts: &[i64], ends: &[u64], steps: &[i16]) {
    let s = made(rt, starts, ends, steps);
    let s = seek(rt, s, starts, ends, steps, 6);
    let s = next(rt, s, starts, ends, steps);
    let s = narrow(rt, s, starts, ends, steps, 1, 5);
    let s = seek(rt, s, starts, ends, steps, 6);
    stands(rt, s, starts, ends, steps);
    let s = narrow(rt, s, starts, ends, steps, 1, 2);
    let s = seek(rt, s, starts, ends, steps, 5);
    let s = seek(rt, s, starts, ends, steps, 6);
    let s = narrow(rt, s, starts, ends, steps, 1, 4);
    seek(rt, s, starts, ends, steps, 8);
}

// From the least i64 to the greatest: distances that no i64 holds.
fn far(rt: &HostRuntime, starts: &[i64], ends: &[u64], steps: &[i16]) {
    let s = made(rt, starts, ends, steps);
    let s = seek(rt, s, starts, ends, steps, 0);
    let s = seek(rt, s, starts, ends, steps, 9223372036854775806);
    let s = next(rt, s, starts, ends, steps);
    let s = reset(rt, s, starts, ends, steps);
    seek(rt, s, starts, ends, steps, 9223372036854775807);
}

// Scans put together by hand: an end above the length, an index outside the window. `current` answers what is carried all the same.
fn unsound(rt: &HostRuntime, starts: &[i64], ends: &[u64], steps: &[i16]) {
    let long = Scan {
        start: 0,
        end: 10,
        state: State::Fresh,
        value: Carried::None,
    };
    next(rt, long, starts, ends, steps);
    narrow(rt, long, starts, ends, steps, 0, 1);
    reset(rt, long, starts, ends, steps);
    let out = Scan {
        start: 2,
        end: 4,
        state: State::At(4),
        value: Carried::Value(30),
    };
    seek(rt, out, starts, ends, steps, 0);
    stands(rt, out, starts, ends, steps);
}

// All but `current` refuse a scan that does not carry the element that it stands on, and none repairs it.
fn misled(
    rt: &HostRuntime,
    starts: &[i64],
    ends: &[u64],
    steps: &[i16],
    state: State,
    value: Carried,
) {
    let s = Scan {
        start: 0,
        end: 9,
        state,
        value,
    };
    let s = next(rt, s, starts, ends, steps);
    let s = reset(rt, s, starts, ends, steps);
    stands(rt, s, starts, ends, steps);
}

// C has 20 at index 2: a value that is another, one that is missing, and one where none belongs.
fn carried(rt: &HostRuntime, starts: &[i64], ends: &[u64], steps: &[i16]) {
    misled(rt, starts, ends, steps, State::At(2), Carried::Value(21));
    misled(rt, starts, ends, steps, State::At(2), Carried::None);
    misled(rt, starts, ends, steps, State::Fresh, Carried::Value(10));
    misled(rt, starts, ends, steps, State::Ended, Carried::Value(240));
}

fn on_c(rt: &HostRuntime, starts: &[i64], ends: &[u64], steps: &[i16]) {
    sought(rt, starts, ends, steps);
    windows(rt, starts, ends, steps);
    unsound(rt, starts, ends, steps);
    carried(rt, starts, ends, steps);
}

fn c(rt: &HostRuntime) {
    on_c(rt, &[10, 30, 31, 40], &[4, 5, 6, 9], &[5, 0, -3, 100]);
}

// D, whose last end is 5; with another end it is damaged.
fn d(rt: &HostRuntime, last: u64) {
    falling(rt, &[10, 6], &[2, last], &[-5, 1]);
}

fn distant(rt: &HostRuntime) {
    far(
        rt,
        &[-9223372036854775808, 9223372036854775806],
        &[3, 5],
        &[32767, 1],
    );
}

pub fn all(rt: &HostRuntime) {
    text(rt, b"== scanned\nC\n");
    c(rt);
    text(rt, b"D\n");
    d(rt, 5);
    text(rt, b"far\n");
    distant(rt);
    text(rt, b"damaged\n");
    d(rt, 2);
}
