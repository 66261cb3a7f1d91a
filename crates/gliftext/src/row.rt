// Places of rows of any type; what stands past the end of one is nothing, and nothing is stored there.
ghost use Rattle.std.specs.Prelude.{◌≡◌, get_or, set};

pub fn at<T: Copy>(row: &[T], i: usize, none: T) -> T
    ensures { result ≡ get_or row.now i none }
{
    if i < row.len() { row[i] } else { none }
}

pub fn store<T: Copy>(row: &mut [T], i: usize, v: T)
    ensures { row.new ≡ set row.old i v }
{
    if i < row.len() {
        row[i] = v;
    }
}
