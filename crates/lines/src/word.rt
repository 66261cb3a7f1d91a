// Words between blanks, and the whole numbers that they say.
ghost use Rattle.std.specs.Prelude.{◌≡◌, ◌+◌, ◌≤◌, length, drop};
ghost use Rattle.lines.specs.Line.{up_to, natural_of, coordinate_of, flag_of};
ghost use Rattle.lines.specs.Steps.{size_of, below_zero, from_zero, flag_up_to};

// The place of the first byte `stop` at or after `from`, the length where there is none.
pub fn end_of(bytes: &[u8], from: usize, stop: u8) -> usize
    requires { from ≤ length bytes.now }
    ensures lower_bound { (from ≤ result) × (result ≤ length bytes.now) }
    ensures value { result ≡ from + length (up_to stop (drop from bytes.now)) }
{
    match bytes[from..].iter().position(|&b| b == stop) {
        Some(k) => from + k,
        None => bytes.len(),
    }
}

// The number that decimal digits say. What is more than 2^32 counts as that, so that any number of
// digits can be read: no number that we read has a higher bound.
pub fn read_size(digits: &[u8]) -> Option<u64>
    ensures { result ≡ size_of (natural_of digits.now) }
{
    if digits.len() == 0 {
        return None;
    }
    let mut v = 0u64;
    for &b in digits {
        if b < 48 || 57 < b {
            return None;
        }
        v = (v * 10 + u64::from(b - 48)).min(4294967296);
    }
    Some(v)
}

fn below_zero(size: Option<u64>) -> Option<i16>
    ensures { result ≡ below_zero size }
{
    let v = size?;
    if v <= 32768 {
        Some((-(v as i32)) as i16)
    } else {
        None
    }
}

fn from_zero(size: Option<u64>) -> Option<i16>
    ensures { result ≡ from_zero size }
{
    let v = size?;
    if v <= 32767 { Some(v as i16) } else { None }
}

pub fn read_coordinate(word: &[u8]) -> Option<i16>
    ensures { result ≡ coordinate_of word.now }
{
    if word.len() == 0 {
        return None;
    }
    if word[0] == 45 {
        below_zero(read_size(&word[1..]))
    } else {
        from_zero(read_size(word))
    }
}

fn flag_up_to(size: Option<u64>, most: u64) -> Option<u8>
    requires { most ≤ 255 }
    ensures { result ≡ flag_up_to most size }
{
    let v = size?;
    if v <= most { Some(v as u8) } else { None }
}

// Below zero the one flag is -0.
pub fn read_flag(word: &[u8]) -> Option<u8>
    ensures { result ≡ flag_of word.now }
{
    if word.len() == 0 {
        return None;
    }
    if word[0] == 45 {
        flag_up_to(read_size(&word[1..]), 0)
    } else {
        flag_up_to(read_size(word), 255)
    }
}
