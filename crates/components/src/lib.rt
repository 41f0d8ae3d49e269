// How many patches there are, which is the largest, and the component mark. See specs/Components.antt.
#![tactic(auto)]

mod labelled;

ghost use Rattle.std.specs.Prelude.{◌≡◌};
ghost use Rattle.offsets.specs.Offsets.{places};
ghost use Rattle.view.specs.Seen.{WhereverSeen};
ghost use Rattle.components.specs.Components.{filter_of};

use labelled::Labelled;
use offsets::Offset;
use patches::LinkedLattice;
use view::{Marks, SheetLattice};

// The component mark of each rank, and how many patches there are.
#[derive(Drop)]
pub struct ComponentFilter {
    pub marks: Marks,
    pub components_seen: usize,
}

// The component mark: an index with a cell outside the winner is marked at each of its cells.
#[inline(never)]
pub fn largest_component_filter(
    sheet: &SheetLattice,
    dropped: &Marks,
    sides: &[Offset],
) -> ComponentFilter
    ensures { WhereverSeen sheet.now.lattice (λ w. result ≡ filter_of w (places sides.now) dropped.now) }
{
    let linked = LinkedLattice {
        lattice: sheet.lattice,
        sides,
    };
    let points = Labelled {
        label: patches::labels(&linked, dropped),
        count: sheet.lattice.count,
    };
    let outside = points.others(points.winner());
    ComponentFilter {
        marks: marks::by_index(sheet, &outside),
        components_seen: points.patches(),
    }
}
