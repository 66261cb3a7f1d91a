// One run surveyed, fast: its samples (module 5), then its breaks (module 7), for the optimiser.
#![tactic(auto)]

ghost use Rattle.std.specs.Prelude.{◌≡◌, ◌≤◌, length};
ghost use Rattle.breaks.specs.Breaks.{breaks_of};
ghost use Rattle.survey.specs.Survey.{break_room, searched, survey_of, survey_in, samples_used, breaks_used};

use breaks::{Grid, Stopped};
use refusals::Refusal;
use survey::Surveyed;

// The breaks between these samples of a run of this length, in a row with its room.
fn search(
    samples: &[[f64; 4]],
    len: f64,
    g: Grid,
    breaks: &mut [[f64; 6]],
) -> Result<Option<Surveyed>, Refusal>
    ensures breaks { searched samples.now (breaks_of (break_room (length breaks.old)) samples.now g len)
        ≡ survey_in samples.now breaks.new result }
    ensures samples { samples_used result ≤ length samples.now }
    ensures places { breaks_used result ≤ length breaks.old }
{
    let room = rows::least(2048, breaks.len());
    match quickbreaks::find_breaks(samples, len, g, &mut breaks[..room]) {
        Ok(n) => Ok(Some(Surveyed {
            samples: samples.len(),
            breaks: n,
        })),
        Err(Stopped::Full) => Err(Refusal::TooManyBreaks),
        Err(Stopped::Missing) => Err(Refusal::PastLastSample),
        Err(Stopped::Past) => Ok(None),
    }
}

// The run of `count` segments from segment `first` on.
pub fn survey(
    xs: &[i16],
    ys: &[i16],
    flags: &[u8],
    first: usize,
    count: usize,
    g: Grid,
    samples: &mut [[f64; 4]],
    breaks: &mut [[f64; 6]],
) -> Result<Option<Surveyed>, Refusal>
    ensures rows { survey_of (length samples.old) (length breaks.old)
        xs.now ys.now flags.now first count g
        ≡ survey_in samples.new breaks.new result }
    ensures samples { samples_used result ≤ length samples.old }
    ensures breaks { breaks_used result ≤ length breaks.old }
{
    let room = rows::least(16384, samples.len());
    match quicksamples::sample_run(xs, ys, flags, first, count, &mut samples[..room]) {
        None => Err(Refusal::TooManySamples),
        Some(thetas) => search(&samples[..thetas.count], thetas.length, g, breaks),
    }
}
