// The rows that a file is read into.
ghost use Rattle.std.specs.Prelude.{◌≡◌};
ghost use Rattle.rows.specs.Lent.{after, room};
ghost use Rattle.glifread.specs.Enter.{filled, rows};
ghost use Rattle.glifs.specs.Glifs.{zero_rows, belong};

// So that what was read is told by the file and the lengths of the rows alone.
pub fn clear_rows(ends: &mut [u16], xs: &mut [i16], ys: &mut [i16], flags: &mut [u8])
    ensures { filled (after ends) (rows (after xs) (after ys) (after flags)) ≡ zero_rows (room ends) (room xs) (room ys) (room flags) }
{
    glyphs::clear_u16(ends);
    glyphs::clear_i16(xs);
    glyphs::clear_i16(ys);
    glyphs::clear_u8(flags);
}

// The ends rise, and the last of them says so many points.
pub fn belongs(ends: &[u16], count: usize) -> bool
    ensures { result ≡ belong ends.now count }
{
    if glyf::ends_rise(ends) {
        return count == glyf::count_of(ends);
    }
    false
}
