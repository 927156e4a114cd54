// Numbers in bytes, the least byte first: one loop for every width. With a constant width LLVM makes each one load or store.
ghost use Rattle.std.specs.Prelude.{◌≡◌, ◌+◌, ◌≤◌, ◌<◌, ◌^◌, length};
ghost use Rattle.std.proofs.lemmas.List.Edits.{sets};
ghost use Rattle.codec.specs.Bytes.{le_val, le_bytes, bytes_at};

// The number that the n bytes from at on make.
pub(crate) fn read_le(bytes: &[u8], at: usize, n: usize) -> u64
    requires { (n ≤ 8) × (at + n ≤ length bytes.now) }
    ensures value { result ≡ le_val (bytes_at bytes.now at n) }
    ensures upper_bound { result < 256 ^ n }
{
    let mut value = 0u64;
    let mut i = n;
    while i > 0 {
        i -= 1;
        value = value * 256 + (bytes[at + i] as u64);
    }
    value
}

// Stores the n bytes of x from at on.
pub(crate) fn write_le(out: &mut [u8], at: usize, n: usize, x: u64)
    requires { at + n ≤ length out.old }
    ensures { out.new ≡ sets out.old at (le_bytes n x) }
{
    let mut rest = x;
    let mut i = 0;
    while i < n {
        out[at + i] = (rest % 256) as u8;
        rest = rest / 256;
        i += 1;
    }
}
