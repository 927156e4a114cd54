// A sum of a high and a low as decimal text: high · 2^32 + low has up to 29 digits, more than any number of the language.
ghost use Rattle.std.specs.Prelude.{◌≡◌, ◌+◌, ◌*◌, ◌≤◌, ◌<◌, length, take, drop};
ghost use Rattle.std.proofs.Math.IntN.{sub_ℕ};
ghost use Rattle.totals.specs.Totals.{worth};
ghost use Rattle.totalling.specs.Decimal.{digits_of, text_of};

// Puts the digits of high · 2^32 + low at the end of out, and answers where they begin; what is before them stays. One digit a turn:
// what is left of the high in tens is carried down.
fn spell(high: u64, low: u64, out: &mut [u8]) -> usize
    requires out_len { length out.old ≡ 30 }
    requires low_bound { (low < 4294967296) × (high * 4294967296 + low < 100000000000000000000000000000) }
    ensures result_nonzero { (0 < result) × (result ≤ 30) }
    ensures out_after { drop result out.new ≡ digits_of (high * 4294967296 + low) }
    ensures out_unchanged { take result out.new ≡ take result out.old }
{
    let mut i = 30;
    let mut h = high;
    let mut l = low;
    loop {
        let rest = (h % 10) * 4294967296 + l;
        i -= 1;
        out[i] = 48 + (rest % 10) as u8;
        h /= 10;
        l = rest / 10;
        if h == 0 && l == 0 {
            break;
        }
    }
    i
}

// The same with a minus before them.
fn below_zero(high: u64, low: u64, out: &mut [u8]) -> usize
    requires out_len { length out.old ≡ 30 }
    requires low_bound { (low < 4294967296) × (high * 4294967296 + low < 100000000000000000000000000000) × (0 < high * 4294967296 + low) }
    ensures upper_bound { result ≤ 30 }
    ensures out_after { drop result out.new ≡ text_of (sub_ℕ 0 (high * 4294967296 + low)) }
    ensures out_unchanged { take result out.new ≡ take result out.old }
{
    let first = spell(high, low, out);
    let at = first - 1;
    out[at] = 45;
    at
}

// Where high is so far below zero: what is left of that above the low is below zero too, or what is left of the low is not.
fn from_below(size: u64, low: u64, out: &mut [u8]) -> usize
    requires out_len { length out.old ≡ 30 }
    requires size_bound { size ≤ 9223372036854775808 }
    ensures upper_bound { result ≤ 30 }
    ensures out_after { drop result out.new ≡ text_of (sub_ℕ low (size * 4294967296)) }
    ensures out_unchanged { take result out.new ≡ take result out.old }
{
    let carry = low / 4294967296;
    let rest = low % 4294967296;
    if size <= carry {
        return spell(carry - size, rest, out);
    }
    if rest == 0 {
        return below_zero(size - carry, 0, out);
    }
    below_zero(size - carry - 1, 4294967296 - rest, out)
}

// Puts the decimal text of a sum at the end of out, and answers where it begins; what is before it stays.
pub fn spelled(high: i64, low: u64, out: &mut [u8; 30]) -> usize
    ensures upper_bound { (result ≤ 30) × (length out.new ≡ 30) }
    ensures out_after { drop result out.new ≡ text_of (worth high low) }
    ensures out_unchanged { take result out.new ≡ take result out.old }
{
    let key = keys::bias(high);
    if key < 9223372036854775808 {
        return from_below(9223372036854775808 - key, low, out);
    }
    let whole = key - 9223372036854775808 + low / 4294967296;
    spell(whole, low % 4294967296, out)
}
