// The window that a report is of, how many records it has, and whether two numbers add up to that.
ghost use Rattle.std.specs.Prelude.{◌≡◌, ◌+◌, ◌-◌, eqb};

// What is asked: by which profile, of how many records, in which window.
#[derive(Clone, Copy)]
pub struct Asked {
    pub profile: u8,
    pub count: u64,
    pub start: u64,
    pub end: u64,
}

// How many records a window has.
pub fn size(start: u64, end: u64) -> u64
    ensures { result ≡ end - start }
{
    if start < end { end - start } else { 0 }
}

// Whether the two numbers add up to the window: no sum that wraps may hide a difference.
pub fn adds_up(carried: u64, filled: u64, size: u64) -> bool
    ensures { result ≡ eqb (carried + filled) size }
{
    if size < carried {
        return false;
    }
    size - carried == filled
}
