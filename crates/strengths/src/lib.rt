// Which points are weak: fainter than a fraction of the median strength of the sheet.
#![tactic(auto)]

ghost use Rattle.std.specs.Prelude.{◌≡◌};
ghost use Rattle.view.specs.View.{Finite};
ghost use Rattle.strengths.specs.Weak.{weak_of};

use median::Numbers;
use view::Marks;

// 1 at each rank whose strength is below the fraction of the median strength.
#[inline(never)]
pub fn weak_marks(strength: &Numbers, fraction: f32) -> Marks
    requires { Finite strength.now.count strength.now.values.now }
    ensures { result ≡ weak_of strength.now.count strength.now.values.now fraction }
{
    let threshold = fraction * median::middle_of_all(strength);
    view::filled(0, strength.count, |k| {
        u8::from(strength.values[k] < threshold)
    })
}
