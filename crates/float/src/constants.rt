// The f32 constants of the Rust; specs/Constants.antt has their bit patterns.

pub const MINUS_ONE: f32 = -1.0;

pub const NEGLIGIBLE: f32 = 1e-12;

pub const OVERLONG_RATIO: f32 = 1.5;

pub const GLOBAL_OVERLONG_RATIO: f32 = 1.6;

pub const DUPLICATE_FRACTION: f32 = 0.2;

pub const FRONTIER_TOLERANCE: f32 = 0.30;
