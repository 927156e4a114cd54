// Which word of the command's line, or line of a file of numbers, is wrong, and where it stands.
use crate::printing::{message, message_number};
use words::argv;

fn place(rt: &HostRuntime, what: &[u8], i: u64, word: &[u8]) {
    message(rt, b"loftsplice: ");
    message(rt, what);
    message_number(rt, i);
    message(rt, b", '");
    message(rt, word);
    message(rt, b"', ");
}

// The end of a message about a number.
fn no_number(rt: &HostRuntime) {
    message(rt, b"is no number, or is out of range\n");
}

fn word(rt: &HostRuntime, i: usize, wanted: usize) {
    let mut buf = io::buffer();
    let n = argv::put_argument(rt, i, &mut buf);
    place(rt, b"word ", i as u64, &buf[..n]);
    if wanted == 1 {
        no_number(rt);
    } else {
        message(rt, b"is not understood there\n");
    }
}

// The last lines of a call with a wrong word, or one too few.
pub fn usage(rt: &HostRuntime, i: usize, wanted: usize) {
    if argv::count(rt) <= i {
        message(rt, b"loftsplice: a word is missing at the end\n");
    } else {
        word(rt, i, wanted);
    }
    message(
        rt,
        b"loftsplice: `loftsplice help` says how it is called\nusage\n",
    );
}

// The last lines where a line of a file is no number.
pub fn line(rt: &HostRuntime, i: u64, word: &[u8]) {
    place(rt, b"line ", i, word);
    no_number(rt);
    message(rt, b"no number\n");
}
