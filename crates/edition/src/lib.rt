// An edition of a surveyed run. The survey's rows are lent to it to be read alone; it has answers and links of
// its own.
#![tactic(auto)]

ghost use Rattle.std.specs.Prelude.{length};
ghost use Rattle.edition.specs.Edition.{edition_of, FoundBreaks, Works};

use optimize::{Solved, Tally};
use refusals::Refusal;

#[derive(Clone, Copy)]
pub enum Worked {
    // the contour is unchanged, with the pairs tried and the lookups that fell
    Unchanged(Tally),
    // so many breaks, the stored answer at the last one, and the pairs tried and lookups that fell
    Done(usize, usize, Tally),
}

// Two stored answers a break: half the shortest answer row is a room for breaks.
pub fn edition(
    samples: &[[f64; 4]],
    breaks: &[[f64; 6]],
    answers: &mut [[f64; 3]],
    links: &mut [u32],
    penalty: f64,
) -> Result<Worked, Refusal>
    requires { FoundBreaks breaks.now }
    ensures { Works penalty breaks.now answers.new links.new
        (edition_of (length answers.old) (length links.old) samples.now breaks.now penalty) result }
{
    let n = breaks.len();
    if rows::least(answers.len(), links.len()) / 2 < n {
        return Err(Refusal::TooManyBreaks);
    }
    match optimize::optimize(samples, breaks, answers, links, penalty) {
        None => Err(Refusal::PastLastSample),
        Some(Solved::Unchanged(t)) => Ok(Worked::Unchanged(t)),
        Some(Solved::Done(k, t)) => Ok(Worked::Done(n, k, t)),
    }
}
