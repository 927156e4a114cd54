// The arguments, as the system has them: their bytes, and how many they are.
ghost use Rattle.std.specs.Prelude.{◌≤◌};

use std::env::{Env, FillError};

// Puts argument i at the start of a buffer, and answers its length; 0 where it is missing or longer than the buffer.
pub fn put_argument(rt: &HostRuntime, i: usize, buf: &mut [u8; 4096]) -> usize
    ensures { result ≤ 4096 }
{
    match rt.arg(i, buf) {
        Ok(n) => n,
        Err(_) => 0,
    }
}

// How many arguments there are, the program's own name among them: the first that is missing ends them.
pub fn count(rt: &HostRuntime) -> usize {
    let mut byte = [0u8; 1];
    for i in 0..usize::MAX {
        if let Err(FillError::NotPresent) = rt.arg(i, &mut byte) {
            return i;
        }
    }
    usize::MAX
}
