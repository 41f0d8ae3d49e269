// Patches of surviving points: cells joined by shared edges, over any list of offsets. See specs/Patches.antt.
#![tactic(auto)]

pub mod boxes;
mod labelled;
mod search;

ghost use Rattle.std.specs.Prelude.{◌≡◌};
ghost use Rattle.offsets.specs.Offsets.{places, square_sides};
ghost use Rattle.view.specs.Seen.{WhereverSeen};
ghost use Rattle.patches.specs.Patches.{patch_labels};

use offsets::Offset;
use search::Search;
use view::{Lattice, Marks, Places};

// The square lattice's offsets, in the order of square.rs: to u + 1, v + 1, u - 1 and v - 1.
pub fn square_sides() -> [Offset; 4]
    ensures { result ≡ square_sides }
{
    [
        offsets::NEXT_U,
        offsets::NEXT_V,
        offsets::PREV_U,
        offsets::PREV_V,
    ]
}

// The table of ranks of so many points, and the offsets that lead over a shared edge.
#[derive(Clone, Copy)]
pub struct LinkedLattice<'a> {
    pub lattice: Lattice<'a>,
    pub sides: &'a [Offset],
}

// The label of each rank: the least rank of its patch; n where it does not survive.
pub fn labels(linked: &LinkedLattice, dropped: &Marks) -> Places
    ensures { WhereverSeen linked.now.lattice (λ w. result ≡ patch_labels w (places linked.now.sides.now) dropped.now) }
{
    let n = linked.lattice.count;
    let mut search = Search::new(n, dropped);
    for s in 0..n {
        search.fill(linked, s);
    }
    search.label
}
