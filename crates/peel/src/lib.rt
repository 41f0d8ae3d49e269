// Weak ends of a patch, peeled in rounds, over any list of offsets. See specs/Peel.antt for what is computed, and specs/Work.antt for the arrays.
#![tactic(auto)]

mod links;
mod removals;
mod round;
mod state;

ghost use Rattle.std.specs.Prelude.{◌≡◌, true};
ghost use Rattle.offsets.specs.Offsets.{places};
ghost use Rattle.view.specs.Seen.{lattice_in, WhereverSeen};
ghost use Rattle.patches.specs.Reach.{Mirrored, paired};
ghost use Rattle.patches.specs.Search.{AreNear};
ghost use Rattle.peel.specs.Peel.{peeled_of};

use links::Links;
use offsets::Offset;
use removals::Removals;
use round::Round;
use state::states;
use view::{Marks, SheetLattice};

// The mark of each rank, and how many rounds removed something.
#[derive(Drop)]
pub struct Peeled {
    pub marks: Marks,
    pub rounds: usize,
}

// Removes the weak ends of patches in rounds. The work is n and a constant for each rank that is removed.
#[inline(never)]
pub fn weak_leaf_peel(
    sheet: &SheetLattice,
    dropped: &Marks,
    weak: &Marks,
    sides: &[Offset],
) -> Peeled
    requires { AreNear sides.now × (paired (places sides.now) ≡ true) × Mirrored sheet.now.lattice.count (lattice_in sheet.now.lattice).near }
    ensures { WhereverSeen sheet.now.lattice (λ w. result ≡ peeled_of w (places sides.now) dropped.now weak.now) }
{
    let links = Links::new(sheet, sides);
    let mut state = states(dropped, weak, sheet.lattice.count);
    let mut gone = Removals::new();
    gone.scan(&Round {
        links: &links,
        state: &state,
    });
    let mut from = 0;
    let mut rounds = 0;
    while from < gone.tail {
        let end = gone.tail;
        rounds += 1;
        gone.remove(from, &mut state);
        let round = Round {
            links: &links,
            state: &state,
        };
        gone.look(&round, from);
        from = end;
    }
    Peeled {
        marks: gone.marks,
        rounds,
    }
}
