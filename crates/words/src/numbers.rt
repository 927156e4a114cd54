// Numbers as they are written in arguments: decimal digits, and a minus before them where a number may be below zero.

#[derive(Clone, Copy)]
pub enum Unsigned {
    Is(u64),
    Not,
}

#[derive(Clone, Copy)]
pub enum Signed {
    Is(i64),
    Not,
}

// A digit's value; 10 for any other byte.
fn digit(byte: u8) -> u64 {
    if byte < 48 {
        return 10;
    }
    if 57 < byte {
        return 10;
    }
    (byte - 48) as u64
}

// A number up to 18,446,744,073,709,551,615; what is above is none.
pub fn read_unsigned(word: &[u8]) -> Unsigned {
    if word.len() == 0 {
        return Unsigned::Not;
    }
    let mut value: u64 = 0;
    let mut i = 0;
    while i < word.len() {
        let last = digit(word[i]);
        if 9 < last {
            return Unsigned::Not;
        }
        if 1844674407370955161 < value {
            return Unsigned::Not;
        }
        let tens = value * 10;
        if u64::MAX - tens < last {
            return Unsigned::Not;
        }
        value = tens + last;
        i += 1;
    }
    Unsigned::Is(value)
}

// The number below zero whose digits these are: down to the least i64, which has no opposite.
fn below_zero(digits: &[u8]) -> Signed {
    match read_unsigned(digits) {
        Unsigned::Not => Signed::Not,
        Unsigned::Is(size) => {
            if size == 0 {
                return Signed::Is(0);
            }
            if 9223372036854775808 < size {
                return Signed::Not;
            }
            Signed::Is(!((size - 1) as i64))
        }
    }
}

// An i64; what lies outside is none.
pub fn read_signed(word: &[u8]) -> Signed {
    if word.len() == 0 {
        return Signed::Not;
    }
    if word[0] == 45 {
        return below_zero(&word[1..]);
    }
    match read_unsigned(word) {
        Unsigned::Not => Signed::Not,
        Unsigned::Is(size) => {
            if 9223372036854775807 < size {
                return Signed::Not;
            }
            Signed::Is(size as i64)
        }
    }
}
