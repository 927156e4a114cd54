// What was measured, written into the outputs.
ghost use Rattle.std.specs.Prelude.{◌≡◌, ◌≤◌, length};
ghost use Rattle.meaning.specs.Refusals.{Gives, fine};
ghost use Rattle.meaning.specs.Naming.{Leaves};
ghost use Rattle.totals.specs.Inner.{held_of, held_in};

// Numbers, into the first places of an output.
fn put(values: &[u64], out: &mut [u64])
    requires { length values.now ≤ length out.old }
    ensures { Leaves out (Gives fine) values.now }
{
    let mut k = 0;
    while k < values.len() {
        out[k] = values[k];
        k += 1;
    }
}

// The same of signed numbers.
fn put_signed(values: &[i64], out: &mut [i64])
    requires { length values.now ≤ length out.old }
    ensures { Leaves out (Gives fine) values.now }
{
    let mut k = 0;
    while k < values.len() {
        out[k] = values[k];
        k += 1;
    }
}

// One of two.
fn held(count: u64, value: i64, old: i64) -> i64
    ensures { result ≡ held_of count value old }
{
    if count == 0 { old } else { value }
}

// The same, but an empty window's place keeps what it held.
fn put_held(counts: &[u64], values: &[i64], out: &mut [i64])
    requires { (length counts.now ≡ length values.now) × (length counts.now ≤ length out.old) }
    ensures { Leaves out (Gives fine) (held_in counts values out) }
{
    let mut k = 0;
    while k < counts.len() {
        out[k] = held(counts[k], values[k], out[k]);
        k += 1;
    }
}

// All that was measured, window by window.
pub(crate) fn write_all(
    numbers: &[u64],
    least: &[i64],
    greatest: &[i64],
    high: &[i64],
    low: &[u64],
    counts: &mut [u64],
    leasts: &mut [i64],
    greatests: &mut [i64],
    highs: &mut [i64],
    lows: &mut [u64],
)
    requires numbers_len { (length numbers.now ≡ length least.now) × (length numbers.now ≡ length greatest.now) }
    requires numbers_len_2 { (length numbers.now ≡ length high.now) × (length numbers.now ≡ length low.now) }
    requires numbers_in_bounds { (length numbers.now ≤ length counts.old) × (length numbers.now ≤ length leasts.old) }
    requires numbers_in_bounds_2 { (length numbers.now ≤ length greatests.old) × (length numbers.now ≤ length highs.old)
        × (length numbers.now ≤ length lows.old) }
    ensures leaves { Leaves counts (Gives fine) numbers.now }
    ensures leaves_2 { Leaves leasts (Gives fine) (held_in numbers least leasts) }
    ensures leaves_3 { Leaves greatests (Gives fine) (held_in numbers greatest greatests) }
    ensures leaves_4 { Leaves highs (Gives fine) high.now }
    ensures leaves_5 { Leaves lows (Gives fine) low.now }
{
    put(numbers, counts);
    put_held(numbers, least, leasts);
    put_held(numbers, greatest, greatests);
    put_signed(high, highs);
    put(low, lows);
}
