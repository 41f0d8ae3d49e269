// Matrices of three rows of three.
#![tactic(auto)]

ghost use Rattle.std.specs.Prelude.{◌≡◌, ◌<◌};
ghost use Rattle.matrix.specs.Matrix.{inner_sum, row_times, product_entry, product_of, minor, determinant_of, inverse_of};

fn inner_sum(a: f32, b: f32, c: f32, x: f32, y: f32, z: f32) -> f32
    ensures { result ≡ inner_sum a b c x y z }
{
    a * x + b * y + c * z
}

// Row i of m times (x, y, 1).
pub fn row_times(m: [[f32; 3]; 3], i: usize, x: f32, y: f32) -> f32
    requires { i < 3 }
    ensures { result ≡ row_times m i x y }
{
    inner_sum(m[i][0], m[i][1], m[i][2], x, y, 1.0)
}

fn product_entry(a: [[f32; 3]; 3], b: [[f32; 3]; 3], i: usize, j: usize) -> f32
    requires { (i < 3) × (j < 3) }
    ensures { result ≡ product_entry a b i j }
{
    inner_sum(a[i][0], a[i][1], a[i][2], b[0][j], b[1][j], b[2][j])
}

#[tactic(auto, unfolding(crate::specs::Matrix::product_of))]
pub fn product(a: [[f32; 3]; 3], b: [[f32; 3]; 3]) -> [[f32; 3]; 3]
    ensures { result ≡ product_of a b }
{
    [
        [
            product_entry(a, b, 0, 0),
            product_entry(a, b, 0, 1),
            product_entry(a, b, 0, 2),
        ],
        [
            product_entry(a, b, 1, 0),
            product_entry(a, b, 1, 1),
            product_entry(a, b, 1, 2),
        ],
        [
            product_entry(a, b, 2, 0),
            product_entry(a, b, 2, 1),
            product_entry(a, b, 2, 2),
        ],
    ]
}

fn minor_of(a: f32, b: f32, c: f32, d: f32) -> f32
    ensures { result ≡ minor a b c d }
{
    a * b - c * d
}

#[tactic(auto, unfolding(crate::specs::Matrix::determinant_of))]
pub fn determinant(m: [[f32; 3]; 3]) -> f32
    ensures { result ≡ determinant_of m }
{
    let [[a, b, c], [e, f, g], [h, i, j]] = m;
    a * minor_of(f, j, i, g) - b * minor_of(e, j, h, g) + c * minor_of(e, i, h, f)
}

// The inverse of m, whose determinant is d.
#[tactic(auto, unfolding(crate::specs::Matrix::inverse_of))]
pub fn inverse(m: [[f32; 3]; 3], d: f32) -> [[f32; 3]; 3]
    ensures { result ≡ inverse_of m d }
{
    let [[a, b, c], [e, f, g], [h, i, j]] = m;
    [
        [
            minor_of(f, j, i, g) / d,
            minor_of(c, i, j, b) / d,
            minor_of(b, g, f, c) / d,
        ],
        [
            (-minor_of(e, j, h, g)) / d,
            minor_of(a, j, h, c) / d,
            minor_of(c, e, g, a) / d,
        ],
        [
            minor_of(e, i, h, f) / d,
            minor_of(b, h, i, a) / d,
            minor_of(a, f, e, b) / d,
        ],
    ]
}
