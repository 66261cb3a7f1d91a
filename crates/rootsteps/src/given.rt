// What a line says.
ghost use Rattle.std.specs.Prelude.{◌<◌, IfSome};

// A digit of base 16, in lower case.
fn digit(b: u8) -> Option<u64>
    ensures { IfSome result (λ d. d < 16) }
{
    match b {
        b'0'..=b'9' => Some(u64::from(b - b'0')),
        b'a'..=b'f' => Some(u64::from(b - b'a' + 10)),
        _ => None,
    }
}

// The f64 whose bits these 16 digits of base 16 say.
fn read_bits(line: &[u8]) -> Option<f64> {
    let mut v = 0u64;
    for &b in line {
        v = (v << 4) | digit(b)?;
    }
    Some(float::of_bits(v))
}

// The whole number that decimal digits say. Below 10^15 an f64 holds every one.
fn read_whole(line: &[u8]) -> Option<f64> {
    let mut v = 0u64;
    for &b in line {
        let d = digit(b)?;
        v = v * 10 + d;
        if 9 < d || 999_999_999_999_999 < v {
            return None;
        }
    }
    Some(v as f64)
}

// None is malformed.
pub fn read(line: &[u8]) -> Option<f64> {
    match line.len() {
        0 => None,
        16 => read_bits(line),
        _ => read_whole(line),
    }
}
