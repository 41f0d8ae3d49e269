// What the right half is moved by.

// A whole offset of its cells, and what is added to its positions.
#[derive(Clone, Copy)]
pub struct Move {
    pub du: i32,
    pub dv: i32,
    pub dx: f32,
    pub dy: f32,
}
