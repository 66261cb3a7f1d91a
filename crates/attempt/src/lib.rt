// Module 8: one attempt, by value: what a piece from one break to another makes of the answer that stands where it ends.
#![tactic(auto)]

pub mod answer;

ghost use Rattle.std.specs.Prelude.{◌≡◌, true};
ghost use Rattle.measure.specs.Measure.{measure_of};
ghost use Rattle.measure.specs.Fallen.{fallen_of};
ghost use Rattle.attempt.specs.Value.{Idle, Attempts};

use answer::Answer;
use geometry::Quad;
use quickmeasure::Judged;

// What becomes of the answer at a break, and how many lookups fell.
#[derive(Clone, Copy)]
pub struct Outcome {
    pub answer: Answer,
    pub fallen: usize,
}

impl Outcome {
    // An answer that stays, where no lookup fell.
    fn unchanged(answer: Answer) -> Outcome
        ensures answer { result.answer ≡ answer }
        ensures fallen { result.fallen ≡ 0 }
    {
        Outcome { answer, fallen: 0 }
    }
}

// A piece between two lengths of the samples, against the answer that stands where it ends. It is built on
// the previous one.
#[derive(Clone, Copy)]
struct Attempt {
    s0: f64,
    s1: f64,
    old: Answer,
    previous: Answer,
    q: Quad,
    penalty: f64,
}

impl Attempt {
    // Whether it changes nothing, and so need not be measured: the old answer stays whatever its error is,
    // no sample that it asks for is missing, and no lookup falls. A function of its own, since what is known of a lent row is
    // lost where two ways meet.
    fn changes_nothing(self, samples: &[[f64; 4]]) -> bool
        ensures { result ≡ true → Idle samples.now self.s0 self.s1 self.old self.previous self.q self.penalty }
    {
        if self.old.stays(self.previous, self.q, self.penalty) {
            return quickmeasure::sees_all(samples, self.s0, self.s1, self.q);
        }
        false
    }

    // Where no answer stands yet: it is measured to its end. None: refusal 8.
    fn first(self, samples: &[[f64; 4]]) -> Option<Outcome>
        ensures { Attempts (measure_of samples.now self.s0 self.s1 self.q) (fallen_of samples.now self.s0 self.s1 self.q)
            self.old self.previous self.q self.penalty result }
    {
        let old = self.old;
        let counted = quickmeasure::measure_quad(samples, self.s0, self.s1, self.q)?;
        Some(Outcome {
            answer: old.combine(self.previous, counted.measure.error, self.q, self.penalty),
            fallen: counted.fallen,
        })
    }

    // Where an answer stands: it is measured until it cannot win. None: refusal 8.
    fn next(self, samples: &[[f64; 4]]) -> Option<Outcome>
        requires { self.old.link ≡ 0 → ⊥ }
        ensures { Attempts (measure_of samples.now self.s0 self.s1 self.q) (fallen_of samples.now self.s0 self.s1 self.q)
            self.old self.previous self.q self.penalty result }
    {
        let old = self.old;
        let base = self.previous.base(self.q, self.penalty);
        match quickmeasure::measure_below(samples, self.s0, self.s1, self.q, base, old.score)? {
            Judged::Measured(counted) => Some(Outcome {
                answer: old.combine(self.previous, counted.measure.error, self.q, self.penalty),
                fallen: counted.fallen,
            }),
            Judged::Over => Some(Outcome::unchanged(old)),
        }
    }
}

// One attempt by value: the answer at the break after it. A piece that changes nothing is not measured. None: refusal 8.
pub fn attempted(
    samples: &[[f64; 4]],
    s0: f64,
    s1: f64,
    old: Answer,
    previous: Answer,
    q: Quad,
    penalty: f64,
) -> Option<Outcome>
    ensures { Attempts (measure_of samples.now s0 s1 q) (fallen_of samples.now s0 s1 q) old previous q penalty result }
{
    let attempt = Attempt {
        s0,
        s1,
        old,
        previous,
        q,
        penalty,
    };
    if old.link == 0 {
        return attempt.first(samples);
    }
    if attempt.changes_nothing(samples) {
        return Some(Outcome::unchanged(old));
    }
    attempt.next(samples)
}
