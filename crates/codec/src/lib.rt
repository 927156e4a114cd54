// Numbers and columns as bytes: the definitions are in specs/, the laws about them in proofs/. The code is two's complement, by std's
// casts, which keep every bit; LLVM makes nothing of it.
#![tactic(auto)]

ghost use Rattle.std.specs.Prelude.{◌≡◌};
ghost use Rattle.codec.specs.Bytes.{to_signed, of_signed};

// The i64 that x stands for.
// Kept: a function a width, since each is one call of std; a trait over i64 and i16 would hold the same four bodies.
pub fn signed64(x: u64) -> i64
    ensures { result ≡ to_signed 8 x }
{
    x.cast_signed()
}

// The i16 that x stands for.
// Kept: as signed64.
pub fn signed16(x: u16) -> i16
    ensures { result ≡ to_signed 2 x }
{
    x.cast_signed()
}

// The number that stands for v.
// Kept: as signed64.
pub fn unsigned64(v: i64) -> u64
    ensures { result ≡ of_signed 8 v }
{
    v.cast_unsigned()
}

// The number that stands for v.
// Kept: as signed64.
pub fn unsigned16(v: i16) -> u16
    ensures { result ≡ of_signed 2 v }
{
    v.cast_unsigned()
}
