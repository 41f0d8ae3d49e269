// The plane projective map that takes four points to four others, by the normalised construction of Hartley and Zisserman: each four is centred
// and scaled, eight equations are solved, and the scalings are taken back.
#![tactic(auto)]

ghost use Rattle.std.specs.Prelude.{◌≡◌};
ghost use Rattle.homography.specs.Fit.{mean_of_four, mean_distance, normalizing_scale, normalization_of, moved_by, normalized_by, equation_u, equation_v, equations_of, right_side, matrix_of, normalized_map, denormalized_map, homography_from4pt, applied_to};

#[derive(Clone, Copy)]
pub struct PlanePoint {
    pub x: f32,
    pub y: f32,
}

// A map of the plane, row by row: h12 is entry 2 of row 1.
#[derive(Clone, Copy)]
pub struct Homography {
    pub h00: f32,
    pub h01: f32,
    pub h02: f32,
    pub h10: f32,
    pub h11: f32,
    pub h12: f32,
    pub h20: f32,
    pub h21: f32,
    pub h22: f32,
}

fn mean(a: f32, b: f32, c: f32, d: f32) -> f32
    ensures { result ≡ mean_of_four a b c d }
{
    (0.0 + a + b + c + d) / 4.0
}

// A mean is no root, so that it has no remainder.
#[tactic(auto, unfolding(crate::specs::Fit::mean_distance))]
fn mean_distance(p: [PlanePoint; 4], x: f32, y: f32) -> f32
    ensures { result ≡ mean_distance p x y }
{
    let a = float::norm(p[0].x - x, p[0].y - y);
    let b = float::norm(p[1].x - x, p[1].y - y);
    let c = float::norm(p[2].x - x, p[2].y - y);
    let d = float::norm(p[3].x - x, p[3].y - y);
    mean(a.value, b.value, c.value, d.value)
}

#[tactic(auto, unfolding(crate::specs::Fit::normalizing_scale))]
fn scale(d: f32) -> f32
    ensures { result ≡ normalizing_scale d }
{
    if float::constants::NEGLIGIBLE < d {
        float::sqrt(2.0) / d
    } else {
        1.0
    }
}

// The matrix that centres and scales the four points p.
#[tactic(auto, unfolding(crate::specs::Fit::normalization_of))]
#[inline(always)]
fn normalization(p: [PlanePoint; 4]) -> [[f32; 3]; 3]
    ensures { result ≡ normalization_of p }
{
    let x = mean(p[0].x, p[1].x, p[2].x, p[3].x);
    let y = mean(p[0].y, p[1].y, p[2].y, p[3].y);
    let s = scale(mean_distance(p, x, y));
    [[s, 0.0, (-s) * x], [0.0, s, (-s) * y], [0.0, 0.0, 1.0]]
}

fn moved(t: [[f32; 3]; 3], p: PlanePoint) -> PlanePoint
    ensures { result ≡ moved_by t p }
{
    PlanePoint {
        x: matrix::row_times(t, 0, p.x, p.y),
        y: matrix::row_times(t, 1, p.x, p.y),
    }
}

#[tactic(auto, unfolding(crate::specs::Fit::normalized_by))]
fn normalized(t: [[f32; 3]; 3], p: [PlanePoint; 4]) -> [PlanePoint; 4]
    ensures { result ≡ normalized_by t p }
{
    [
        moved(t, p[0]),
        moved(t, p[1]),
        moved(t, p[2]),
        moved(t, p[3]),
    ]
}

fn equation_u(p: PlanePoint, q: PlanePoint) -> [f32; 8]
    ensures { result ≡ equation_u p q }
{
    [p.x, p.y, 1.0, 0.0, 0.0, 0.0, (-q.x) * p.x, (-q.x) * p.y]
}

fn equation_v(p: PlanePoint, q: PlanePoint) -> [f32; 8]
    ensures { result ≡ equation_v p q }
{
    [0.0, 0.0, 0.0, p.x, p.y, 1.0, (-q.y) * p.x, (-q.y) * p.y]
}

#[tactic(auto, unfolding(crate::specs::Fit::equations_of))]
fn equations(p: [PlanePoint; 4], q: [PlanePoint; 4]) -> [[f32; 8]; 8]
    ensures { result ≡ equations_of p q }
{
    [
        equation_u(p[0], q[0]),
        equation_v(p[0], q[0]),
        equation_u(p[1], q[1]),
        equation_v(p[1], q[1]),
        equation_u(p[2], q[2]),
        equation_v(p[2], q[2]),
        equation_u(p[3], q[3]),
        equation_v(p[3], q[3]),
    ]
}

fn right_side(q: [PlanePoint; 4]) -> [f32; 8]
    ensures { result ≡ right_side q }
{
    [
        q[0].x, q[0].y, q[1].x, q[1].y, q[2].x, q[2].y, q[3].x, q[3].y,
    ]
}

fn matrix_of(x: [f32; 8]) -> [[f32; 3]; 3]
    ensures { result ≡ matrix_of x }
{
    [[x[0], x[1], x[2]], [x[3], x[4], x[5]], [x[6], x[7], 1.0]]
}

// The map m with each entry over its last, unless that is negligible.
#[tactic(auto, unfolding(crate::specs::Fit::normalized_map))]
fn normalize_homography(m: [[f32; 3]; 3]) -> Option<Homography>
    ensures { result ≡ normalized_map m }
{
    let s = m[2][2];
    if float::abs(s) < float::constants::NEGLIGIBLE {
        return None;
    }
    Some(Homography {
        h00: m[0][0] / s,
        h01: m[0][1] / s,
        h02: m[0][2] / s,
        h10: m[1][0] / s,
        h11: m[1][1] / s,
        h12: m[1][2] / s,
        h20: m[2][0] / s,
        h21: m[2][1] / s,
        h22: m[2][2] / s,
    })
}

// The scalings s and d taken back from the map m between the scaled points.
#[tactic(auto, unfolding(crate::specs::Fit::denormalized_map))]
fn denormalize_homography(
    m: [[f32; 3]; 3],
    s: [[f32; 3]; 3],
    d: [[f32; 3]; 3],
) -> Option<Homography>
    ensures { result ≡ denormalized_map m s d }
{
    let det = matrix::determinant(d);
    if det == 0.0 {
        return None;
    }
    normalize_homography(matrix::product(matrix::product(matrix::inverse(d, det), m), s))
}

// The map that takes the four points p to the four points q, if there is one.
#[tactic(auto, unfolding(crate::specs::Fit::map_by, crate::specs::Fit::homography_from4pt))]
pub fn homography_from_4pt(p: [PlanePoint; 4], q: [PlanePoint; 4]) -> Option<Homography>
    ensures { result ≡ homography_from4pt p q }
{
    let s = normalization(p);
    let d = normalization(q);
    let sources = normalized(s, p);
    let targets = normalized(d, q);
    let x = linear::solve(equations(sources, targets), right_side(targets))?;
    denormalize_homography(matrix_of(x), s, d)
}

// Where the map h takes p.
#[tactic(auto, unfolding(crate::specs::Fit::applied_to))]
pub fn apply(h: Homography, p: PlanePoint) -> PlanePoint
    ensures { result ≡ applied_to h p }
{
    let w = h.h20 * p.x + h.h21 * p.y + h.h22 * 1.0;
    PlanePoint {
        x: (h.h00 * p.x + h.h01 * p.y + h.h02 * 1.0) / w,
        y: (h.h10 * p.x + h.h11 * p.y + h.h12 * 1.0) / w,
    }
}
