// The functions of `float` for C and Rust: `harness float-check` runs them over all bit patterns and times them.
#![tactic(auto)]

ghost use Rattle.std.specs.Prelude.{◌≡◌};
ghost use Rattle.std.specs.Float.{binary32};
ghost use Rattle.std.specs.Float.Ieee.{of_bits};
ghost use Rattle.float.specs.Root.{root_of};
ghost use Rattle.float.specs.Remainder.{whole_root_of};
ghost use Rattle.float.specs.Words.{found_number, root_words};
ghost use Rattle.float.specs.Scalar.{norm_of, abs_of, max_of, min_of, clamp_of, over30_degrees};

#[unsafe(no_mangle)]
pub extern "C" fn float_sqrt(x: f32) -> f32
    ensures { result ≡ root_of x }
{
    float::sqrt(x)
}

#[unsafe(no_mangle)]
pub extern "C" fn float_norm(x: f32, y: f32) -> f32
    ensures { result ≡ norm_of x y }
{
    float::norm(x, y).value
}

#[unsafe(no_mangle)]
pub extern "C" fn float_abs(x: f32) -> f32
    ensures { result ≡ abs_of x }
{
    float::abs(x)
}

#[unsafe(no_mangle)]
pub extern "C" fn float_max(a: f32, b: f32) -> f32
    ensures { result ≡ max_of a b }
{
    float::max(a, b)
}

#[unsafe(no_mangle)]
pub extern "C" fn float_min(a: f32, b: f32) -> f32
    ensures { result ≡ min_of a b }
{
    float::min(a, b)
}

#[unsafe(no_mangle)]
pub extern "C" fn float_clamp(x: f32) -> f32
    ensures { result ≡ clamp_of x }
{
    float::clamp(x)
}

#[unsafe(no_mangle)]
pub extern "C" fn float_over_30_degrees(c: f32) -> bool
    ensures { result ≡ over30_degrees c }
{
    float::over_30_degrees(c)
}

// S, the power and the remainder of the f32 with these bits, and 1; or 0 where there is neither, and the words stay.
#[unsafe(no_mangle)]
pub extern "C" fn float_whole_root(bits: u32, words: &mut [i32; 3]) -> i32
    ensures found { result ≡ found_number (whole_root_of (of_bits binary32 bits)) }
    ensures words { words.new ≡ root_words (whole_root_of (of_bits binary32 bits)) words.old }
{
    float::store_whole_root(float::from_bits(bits), words)
}
