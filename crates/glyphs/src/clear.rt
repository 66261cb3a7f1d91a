// Rows of a glyph made zero.
ghost use Rattle.std.specs.Prelude.{◌≡◌, pos, replicate};
ghost use Rattle.glyf.specs.Layout.{rooms_of};
ghost use Rattle.rows.specs.Lent.{after, room};
ghost use Rattle.glyfread.specs.Entry.{filled};
ghost use Rattle.glyphs.specs.Entry.{zero_glyph};

pub fn clear_u8(row: &mut [u8])
    ensures { after row ≡ replicate (room row) 0 }
{
    row.fill(0);
}

pub fn clear_u16(row: &mut [u16])
    ensures { after row ≡ replicate (room row) 0 }
{
    row.fill(0);
}

pub fn clear_i16(row: &mut [i16])
    ensures { after row ≡ replicate (room row) (pos 0) }
{
    row.fill(0);
}

// The rows that a glyph is read into.
pub fn clear_glyph(
    ends: &mut [u16],
    xs: &mut [i16],
    ys: &mut [i16],
    flags: &mut [u8],
    instructions: &mut [u8],
)
    ensures { (filled ends xs ys flags instructions).exit ≡ zero_glyph (rooms_of (filled ends xs ys flags instructions).entry) }
{
    clear_u16(ends);
    clear_i16(xs);
    clear_i16(ys);
    clear_u8(flags);
    clear_u8(instructions);
}
