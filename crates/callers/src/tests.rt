use breaks::{Distances, Grid, Stopped};
use geometry::{Point, Quad};
use quickbreaks::Squares;
use quicksamples::Quick;
use samples::{Sampling, Step, Unitize, Walk};
use std::process::Abort;

// A step at (x, 0) to the right, at the length x.
fn at(x: f64) -> Step {
    Step {
        xy: Point { x, y: 0.0 },
        d: Point { x: 1.0, y: 0.0 },
        s: x,
    }
}

#[test]
fn fills_up_to_a_limit(rt: HostRuntime) {
    let mut row = [[9.0; 4]; 4];
    let filled = samples::fill(&mut row, 1, 1.0, at(0.0), at(4.0), 2.0);
    assert!(rt; matches!(filled, Some(f) if f.count == 3 && f.ix == 3.0));
    let wanted = [
        [9.0, 9.0, 9.0, 9.0],
        [1.0, 0.0, 1.0, 0.0],
        [2.0, 0.0, 1.0, 0.0],
        [9.0, 9.0, 9.0, 9.0],
    ];
    assert_eq!(rt; row, wanted);
}

#[test]
fn fills_no_more_than_the_row(rt: HostRuntime) {
    let mut row = [[9.0; 4]; 2];
    let filled = samples::fill(&mut row, 0, 0.0, at(0.0), at(4.0), 1.0);
    assert!(rt; matches!(filled, Some(f) if f.count == 2 && f.ix == 2.0));
    assert!(rt; samples::fill(&mut row, 0, 0.0, at(0.0), at(4.0), 2.0).is_none());
}

// The lines from (0, 0) to (2, 0) and on to (4, 0).
fn swept<S: Sampling>(row: &mut [[f64; 4]]) -> Option<Walk> {
    let start = Point { x: 0.0, y: 0.0 };
    let middle = Point { x: 2.0, y: 0.0 };
    let end = Point { x: 4.0, y: 0.0 };
    let last = Step {
        xy: start,
        d: start,
        s: -1.0,
    };
    let from = Walk {
        n: 0,
        ix: 0.0,
        last,
        len: 0.0,
    };
    let on = S::sweep(row, from, Quad::line(start, middle))?;
    S::sweep(row, on, Quad::line(middle, end))
}

fn is_near(a: f64, b: f64) -> bool {
    (a - b) * (a - b) < 1e-18
}

fn sweeps<S: Sampling>(rt: &impl Abort) {
    let mut row = [[9.0; 4]; 6];
    let walked = swept::<S>(&mut row);
    assert!(rt; matches!(walked, Some(w) if w.n == 4 && w.ix == 4.0 && is_near(w.len, 4.0)));
    for i in 0..4usize {
        assert!(rt;
            is_near(row[i][0], i as f64) && row[i][1] == 0.0 && row[i][2] == 1.0 && row[i][3] == 0.0
        );
    }
    assert_eq!(rt; row[4], [9.0, 9.0, 9.0, 9.0]);
    assert!(rt; swept::<S>(&mut row[..3]).is_none());
}

#[test]
fn sweeps_step_by_step(rt: HostRuntime) {
    sweeps::<samples::Plain>(&rt);
}

#[test]
fn sweeps_ten_steps_at_a_time(rt: HostRuntime) {
    sweeps::<Quick>(&rt);
}

fn unitizes<U: Unitize>(rt: &impl Abort) {
    assert_eq!(rt;
        U::unitize(Point { x: 0.0, y: 4.0 }),
        Point { x: 0.0, y: 1.0 }
    );
    assert_eq!(rt;
        U::unitize(Point { x: -8.0, y: 0.0 }),
        Point { x: -1.0, y: 0.0 }
    );
}

#[test]
fn makes_directions_of_length_1(rt: HostRuntime) {
    unitizes::<samples::Plain>(&rt);
    unitizes::<Quick>(&rt);
}

fn places<D: Distances>(rt: &impl Abort) {
    let row = [
        [0.0, 0.0, 1.0, 0.0],
        [1.0, 0.0, 1.0, 0.0],
        [2.0, 0.0, 1.0, 0.0],
    ];
    let (Ok(p), Ok(q)) = (
        D::place(&row, Grid::half(), 1.375),
        D::place(&row, Grid::half(), 1.25),
    ) else {
        panic!(rt; "no place")
    };
    assert_eq!(rt; p.place.s, 1.375);
    assert_eq!(rt; p.place.xy, Point { x: 1.5, y: 0.0 });
    assert_eq!(rt; p.place.dir, Point { x: 1.0, y: 0.0 });
    assert!(rt; D::is_less(p.dist, q.dist));
    assert!(rt; !D::is_less(q.dist, p.dist));
    assert!(rt; !D::is_less(p.dist, p.dist));
    assert!(rt;
        matches!(D::place(&row, Grid::whole(), 1.25), Ok(p) if p.place.xy == Point { x: 1.0, y: 0.0 })
    );
    assert!(rt; matches!(D::place(&row, Grid::half(), 2.5), Err(Stopped::Missing)));
    assert!(rt; matches!(D::place(&row, Grid::half(), 3.0), Err(Stopped::Past)));
}

#[test]
fn holds_distances_as_they_are(rt: HostRuntime) {
    places::<breaks::Plain>(&rt);
}

#[test]
fn holds_distances_by_their_squares(rt: HostRuntime) {
    places::<Squares>(&rt);
}
