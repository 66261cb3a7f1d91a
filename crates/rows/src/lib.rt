// Rooms and zeros: how many places are there, and scratch rows that are zero throughout. One law serves
// every type of row.
#![tactic(auto)]

ghost use Rattle.std.specs.Prelude.{◌≡◌, min, length, replicate};
ghost use Rattle.rows.specs.Rows.{sample_zero, break_zero, answer_zero, link_zero, point_zero, work, zero_work};

// The lesser of two rooms.
pub fn least(a: usize, b: usize) -> usize
    ensures { result ≡ min a b }
{
    if a < b { a } else { b }
}

pub fn clear_points(points: &mut [[i16; 3]])
    ensures { points.new ≡ replicate (length points.old) point_zero }
{
    points.fill([0; 3]);
}

// The four rows that a run is worked in.
pub fn clear_work(
    samples: &mut [[f64; 4]],
    breaks: &mut [[f64; 6]],
    answers: &mut [[f64; 3]],
    links: &mut [u32],
)
    ensures { work samples.new breaks.new answers.new links.new
        ≡ zero_work (length samples.old) (length breaks.old) (length answers.old) (length links.old) }
{
    samples.fill([0.0; 4]);
    breaks.fill([0.0; 6]);
    answers.fill([0.0; 3]);
    links.fill(0);
}
