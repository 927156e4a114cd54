// check FILE: a column that passed the check, described.
use asking::order::order;
use loftsplice::rle::{Got, Length, get, len};
use meaning::Answer;
use telling::forms::said;
use telling::printing;
use telling::printing::{signed, unsigned};
use words::places::LINES;

fn element(rt: &HostRuntime, got: Got, form: usize) -> bool {
    match got {
        Got::Value(value) => {
            if form == LINES {
                return signed(rt, value, 10);
            }
            signed(rt, value, 44)
        }
        Got::Refused(why) => {
            printing::refused(rt, why);
            false
        }
    }
}

fn sizes(rt: &HostRuntime, form: usize, runs: u64, length: u64) -> bool {
    said(
        rt,
        form,
        b"sound\nruns ",
        b"sound,runs,length,first,last,rising\nyes,",
        b"{\"sound\":true,\"runs\":",
    ) && unsigned(rt, runs)
        && said(rt, form, b"\nlength ", b",", b",\"length\":")
        && unsigned(rt, length)
        && said(rt, form, b"\n", b",", b",")
}

// The first and the last element, where there is one.
fn edges(
    rt: &HostRuntime,
    starts: &[i64],
    ends: &[u64],
    steps: &[i16],
    length: u64,
    form: usize,
) -> bool {
    if length == 0 {
        return said(
            rt,
            form,
            b"first none\nlast none\n",
            b",,",
            b"\"first\":null,\"last\":null,",
        );
    }
    said(rt, form, b"first ", b"", b"\"first\":")
        && element(rt, get(starts, ends, steps, 0), form)
        && said(rt, form, b"last ", b"", b"\"last\":")
        && element(rt, get(starts, ends, steps, length - 1), form)
}

// Whether the elements rise; and, if they have to, a refusal where not.
fn risen(rt: &HostRuntime, order: Answer, form: usize, strict: bool) {
    match order {
        Answer::Refused(why) => {
            if said(rt, form, b"rising no\n", b"no\n", b"\"rising\":false}\n") && strict {
                printing::refused(rt, why);
            }
        }
        _ => {
            said(rt, form, b"rising yes\n", b"yes\n", b"\"rising\":true}\n");
        }
    }
}

pub fn report(
    rt: &HostRuntime,
    starts: &[i64],
    ends: &[u64],
    steps: &[i16],
    form: usize,
    strict: bool,
) {
    match len(starts, ends, steps) {
        Length::Refused(why) => printing::refused(rt, why),
        Length::Is(length) => {
            if !sizes(rt, form, ends.len() as u64, length) {
                return;
            }
            if edges(rt, starts, ends, steps, length, form) {
                risen(rt, order(starts, ends, steps), form, strict);
            }
        }
    }
}
