// The windows that `totals` is asked about: the numbers among the arguments, a start and an end for each.
ghost use Rattle.std.specs.Prelude.{◌≤◌, ◌<◌};

use crate::arguments::unsigned;
use crate::argv;
use crate::numbers::Unsigned;

// The number after n others: a start after an even number of them, else an end.
fn keep(value: u64, n: usize, from: &mut [u64; 257], to: &mut [u64; 257])
    requires { n < 514 }
{
    let window = n / 2;
    if n % 2 == 0 {
        from[window] = value;
    } else {
        to[window] = value;
    }
}

// Takes argument i for an edge, if it is a number. Answers how many there are then.
fn collect(
    rt: &HostRuntime,
    file: usize,
    i: usize,
    n: usize,
    from: &mut [u64; 257],
    to: &mut [u64; 257],
) -> usize
    requires { n < 514 }
    ensures { result ≤ 514 }
{
    if i == file {
        return n;
    }
    match unsigned(rt, i) {
        Unsigned::Not => n,
        Unsigned::Is(value) => {
            keep(value, n, from, to);
            n + 1
        }
    }
}

// The windows among the arguments, and how many there are: one more than a call takes, where there are too many, which it then refuses. Of the words of
// `totals` no other is a number but, perhaps, the file.
pub fn windows(rt: &HostRuntime, file: usize, from: &mut [u64; 257], to: &mut [u64; 257]) -> usize
    ensures { result ≤ 257 }
{
    let count = argv::count(rt);
    let mut n = 0;
    let mut i = 2;
    while i < count && n < 514 {
        n = collect(rt, file, i, n, from, to);
        i += 1;
    }
    n / 2
}
