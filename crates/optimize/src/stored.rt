// Answers in rows.
ghost use Rattle.std.specs.Prelude.{◌≡◌, ◌++◌, ◌+◌, ◌*◌, ◌/◌, ◌≤◌, ◌<◌, length, set, drop, replicate};
ghost use Rattle.optimize.specs.Stored.{from_break, slot_at, quad_in, loaded, Inside, standing_at, row_of};

use attempt::answer::Answer;
use geometry::{Point, Quad};

// No answer yet: the first so many links are made 0.
pub fn clear(links: &mut [u32], n: usize)
    requires { n ≤ length links.old }
    ensures { links.new ≡ replicate n 0 ++ drop n links.old }
{
    links[..n].fill(0);
}

// The stored answer that stands at break b.
pub fn slot_of(links: &[u32], b: usize) -> usize
    requires { 2 * b + 1 < length links.now }
    ensures { result ≡ slot_at links.now b }
{
    if links[2 * b + 1] == 0 {
        2 * b
    } else {
        2 * b + 1
    }
}

// The break that an answer with this link starts from.
pub fn from_break(link: u32) -> usize
    ensures { result ≡ from_break link }
{
    if link < 2 {
        0
    } else {
        ((link - 2) / 2) as usize
    }
}

// The quad of stored answer k.
pub fn quad_of(breaks: &[[f64; 6]], answers: &[[f64; 3]], k: usize, link: u32) -> Quad
    requires { (k < length answers.now) × (k / 2 < length breaks.now) × (from_break link < length breaks.now) }
    ensures { result ≡ quad_in breaks.now answers.now k link }
{
    let a = answers[k];
    let from = breaks::read(breaks, from_break(link));
    let to = breaks::read(breaks, k / 2);
    let p0 = from.xy;
    let p1 = Point { x: a[1], y: a[2] };
    let p2 = to.xy;
    Quad { p0, p1, p2 }
}

// Stored answer k.
pub fn load(breaks: &[[f64; 6]], answers: &[[f64; 3]], links: &[u32], k: usize) -> Answer
    requires { Inside breaks.now answers.now links.now k }
    ensures { result ≡ loaded breaks.now answers.now links.now k }
{
    let a = answers[k];
    let link = links[k];
    let quad = quad_of(breaks, answers, k, link);
    Answer {
        name: (k + 2) as u32,
        link,
        score: a[0],
        quad,
    }
}

// What a piece from break b is built on. Break 0 starts the run, and is named 1.
pub fn standing(breaks: &[[f64; 6]], answers: &[[f64; 3]], links: &[u32], b: usize) -> Answer
    requires { (2 * b + 1 < length links.now) × Inside breaks.now answers.now links.now (slot_at links.now b) }
    ensures { result ≡ standing_at breaks.now answers.now links.now b }
{
    let a = load(breaks, answers, links, slot_of(links, b));
    if a.link != 0 {
        return a;
    }
    let quad = a.quad;
    if b == 0 {
        return Answer {
            name: 1,
            link: 0,
            score: 0.0,
            quad,
        };
    }
    Answer {
        name: 0,
        link: 0,
        score: 0.0,
        quad,
    }
}

pub fn store(answers: &mut [[f64; 3]], links: &mut [u32], k: usize, a: Answer)
    requires { (k < length answers.old) × (k < length links.old) }
    ensures answers { answers.new ≡ set answers.old k (row_of a) }
    ensures links { links.new ≡ set links.old k a.link }
{
    let p = a.quad.p1;
    answers[k] = [a.score, p.x, p.y];
    links[k] = a.link;
}
