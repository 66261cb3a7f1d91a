// The answer at a break, by value.
ghost use Rattle.std.specs.Prelude.{◌≡◌, true, false, T, Float};
ghost use Rattle.std.specs.Float.{binary64};
ghost use Rattle.std.specs.Float.Ieee.{add, lt};
ghost use Rattle.float.specs.Numbers.{nought};
ghost use Rattle.measure.specs.NotNegative.{not_negative};
ghost use Rattle.attempt.specs.Answers.{is_curve, smooth_after, ok_for_half, joint_of, total_of};
ghost use Rattle.attempt.specs.Value.{best_of, combine_of, base_of, nothing_at};

use geometry::Quad;

#[derive(Clone, Copy)]
pub struct Answer {
    // what a link to this answer says: 0 where nothing may be built on it
    pub name: u32,
    // what it was built on; 0 where it is no answer
    pub link: u32,
    pub score: f64,
    pub quad: Quad,
}

// Whether no error makes a score less than the limit that is so much with none: an error is not negative.
fn out_of_reach(least: f64, limit: f64) -> bool
    ensures { result ≡ true → (x measure : Float) → least ≡ add binary64 x nought → T (not_negative measure) → lt (add binary64 x measure) limit ≡ false }
{
    if least > 0.0 {
        return !(least < limit);
    }
    false
}

impl Answer {
    // What the first piece of a run is built on. It has no quad of its own.
    pub fn start(quad: Quad) -> Answer
        ensures { result ≡ nothing_at 0 quad }
    {
        Answer {
            name: 1,
            link: 0,
            score: 0.0,
            quad,
        }
    }

    // Whether this is an answer whose last piece is a curve.
    pub fn is_curve(self) -> bool
        ensures { result ≡ is_curve (best_of self) }
    {
        if self.link == 0 {
            return false;
        }
        !self.quad.is_line()
    }

    // Whether a quad goes on from this one, both curves, with a smooth joint.
    pub fn goes_on(self, q: Quad) -> bool
        ensures { result ≡ smooth_after (best_of self) q }
    {
        if self.is_curve() {
            return self.quad.is_smooth(q);
        }
        false
    }

    // Whether a bent piece may be built on this.
    pub fn ok_for_half(self, q: Quad) -> bool
        ensures { result ≡ ok_for_half (best_of self) q }
    {
        let start = q.p0;
        if start.is_whole() {
            return true;
        }
        if q.is_line() {
            return false;
        }
        self.goes_on(q)
    }

    // 1 for a line or a smooth joint of two curves, else 2.
    fn joint(self, q: Quad) -> f64
        ensures { result ≡ joint_of (best_of self) q }
    {
        if q.is_line() {
            return 1.0;
        }
        if self.goes_on(q) { 1.0 } else { 2.0 }
    }

    // The score of a piece that is built on this, before its error is added.
    pub fn base(self, q: Quad, penalty: f64) -> f64
        ensures { result ≡ base_of (best_of self) q penalty }
    {
        let m = self.joint(q);
        if self.link == 0 {
            return 0.0 + penalty * m;
        }
        self.score + penalty * m
    }

    // The score of a piece that is built on this.
    pub fn total(self, q: Quad, measure: f64, penalty: f64) -> f64
        ensures { result ≡ total_of (best_of self) q measure penalty }
    {
        let m = self.joint(q);
        if self.link == 0 {
            return 0.0 + penalty * m + measure;
        }
        self.score + penalty * m + measure
    }

    // The answer at a break, with one attempt applied: a piece that is built on the previous one. It
    // replaces this only if its score is less.
    pub fn combine(self, previous: Answer, score: f64, quad: Quad, penalty: f64) -> Answer
        ensures { result ≡ combine_of self previous score quad penalty }
    {
        if previous.name == 0 {
            return self;
        }
        let total = previous.total(quad, score, penalty);
        let new = Answer {
            name: self.name,
            link: previous.name,
            score: total,
            quad,
        };
        if self.link == 0 {
            return new;
        }
        if total < self.score { new } else { self }
    }

    // Whether this answer stays, whatever a piece that is built on the previous one measures: a measure
    // is not negative, so the score of such a piece is at least the one with no error. Where two penalties are not enough,
    // which most often is so, the joint need not be known.
    pub fn stays(self, previous: Answer, quad: Quad, penalty: f64) -> bool
        ensures { result ≡ true → (measure : Float) → T (not_negative measure) → combine_of self previous measure quad penalty ≡ self }
    {
        if self.link == 0 {
            return false;
        }
        if previous.score + penalty * 2.0 < self.score {
            return false;
        }
        out_of_reach(previous.total(quad, 0.0, penalty), self.score)
    }

    // Whether no piece that is built on this scores less than the limit, whatever its quad and its error are: with no
    // error it scores one penalty more than this, or two.
    pub fn never_below(self, limit: f64, penalty: f64) -> bool
        ensures { result ≡ true → (q : Quad) (measure : Float) → T (not_negative measure) → lt (total_of (best_of self) q measure penalty) limit ≡ false }
    {
        if self.link == 0 {
            return false;
        }
        if out_of_reach(self.score + penalty * 1.0 + 0.0, limit) {
            return out_of_reach(self.score + penalty * 2.0 + 0.0, limit);
        }
        false
    }
}
