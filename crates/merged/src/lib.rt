// The points of two tables in cell order, the right ones moved by a whole offset, merged into one order by their cells: where both hold a
// cell, the left point is taken and the right one is left out.
#![tactic(auto)]

ghost use Rattle.std.specs.Prelude.{◌≡◌, [], ◌+◌, ◌≤◌, ◌<◌, IfSome, IfNone};
ghost use Rattle.merged.specs.Sources.{widened, source_key, sources_of, in_array};
ghost use Rattle.merged.specs.Walk.{rest_of, Taken};

mod halves;

pub use halves::{Halves, Sources};
use std::cmp::Ordering;
use view::MAX_POINTS;

// What is added to the cells of the left points: 0, plus 16,000.
const OWN: u32 = 16_000;

// A key, moved by up_u - 16,000 and up_v - 16,000, and wide enough for u and v to 24,000 each way.
fn widened(up_u: u32, up_v: u32, key: u32) -> u64
    ensures { result ≡ widened up_u up_v key }
{
    (u64::from(cells::u_part(key)) + u64::from(up_u)) * 65_536
        + (u64::from(cells::v_part(key)) + u64::from(up_v))
}

// A step of the walk over both: the number of the point that it takes, and how many left and right points are passed with it.
#[derive(Clone, Copy)]
struct Step {
    number: usize,
    left: usize,
    right: usize,
}

impl Halves<'_> {
    // The wide key of number s.
    #[tactic(auto, unfolding(crate::specs::Sources::source_key))]
    pub fn key(&self, s: usize) -> u64
        requires { s < self.now.left.count + self.now.right.count }
        ensures { result ≡ source_key self.now s }
    {
        if s < self.left.count {
            return widened(OWN, OWN, self.left.keys[s]);
        }
        widened(self.up_u, self.up_v, self.right.keys[s - self.left.count])
    }

    // The step of the walk from left rank i and right rank j on, unless both tables are at their ends.
    fn step(&self, i: usize, j: usize) -> Option<Step>
        requires { (i ≤ self.now.left.count) × (j ≤ self.now.right.count) }
        ensures some { IfSome result (λ s. Taken self.now i j s) }
        ensures none { IfNone result (rest_of self.now i j ≡ []) }
    {
        let n = self.left.count;
        let by_left = Step {
            number: i,
            left: i + 1,
            right: j,
        };
        if j == self.right.count {
            return (i < n).then_some(by_left);
        }
        let by_right = Step {
            number: n + j,
            left: i,
            right: j + 1,
        };
        if i == n {
            return Some(by_right);
        }
        Some(match self.key(i).cmp(&self.key(n + j)) {
            Ordering::Less => by_left,
            Ordering::Greater => by_right,
            Ordering::Equal => Step {
                right: j + 1,
                ..by_left
            },
        })
    }

    // Both tables, merged; or nothing where more points are left than a sheet may have.
    pub fn merge(&self) -> Option<Sources>
        ensures { result ≡ in_array (sources_of self.now) }
    {
        let mut order = [0u16; MAX_POINTS];
        let mut count = 0;
        let mut left = 0;
        let mut right = 0;
        while let Some(step) = self.step(left, right) {
            if count == MAX_POINTS {
                return None;
            }
            order[count] = step.number as u16;
            count += 1;
            left = step.left;
            right = step.right;
        }
        Some(Sources { count, order })
    }
}
