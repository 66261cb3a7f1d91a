// Numbers in columns. Each function gives the next place, as the put functions of lines do.
ghost use Rattle.std.specs.Prelude.{◌≤◌};

// n in decimal, as wide as top, a power of ten: blanks stand in front of n's first digit.
pub fn put_wide(out: &mut [u8], at: usize, n: u64, top: u64) -> usize {
    let mut a = at;
    let mut unit = top;
    while 0 < unit {
        let digit = if n < unit && 1 < unit {
            32
        } else {
            48 + ((n / unit % 10) as u8)
        };
        a = lines::put_byte(out, a, digit);
        unit = unit / 10;
    }
    a
}

// The lowest digits of w in base 2, the highest of them first.
pub fn put_binary(out: &mut [u8], at: usize, w: u64, digits: u32) -> usize
    requires { digits ≤ 64 }
{
    let mut a = at;
    for k in (0..digits).rev() {
        a = lines::put_byte(out, a, 48 + (((w >> k) % 2) as u8));
    }
    a
}
