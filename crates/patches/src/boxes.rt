// The boxes of patches, for the edge gate: whether a point is on the boundary of its patch's box. See specs/Boxes.antt.
ghost use Rattle.std.specs.Prelude.{◌≡◌, ◌^◌, ◌<◌};
ghost use Rattle.cells.specs.Cell.{cells_at};
ghost use Rattle.offsets.specs.Offsets.{places};
ghost use Rattle.view.specs.Seen.{WhereverSeen};
ghost use Rattle.patches.specs.Boxes.{CellKeys, boundary_among, boundary_of};
ghost use Rattle.patches.specs.Extents.{extent, extent_with, at_some_end, extents_of};

use crate::labelled::LabelledCells;
use crate::{LinkedLattice, labels};
use offsets::Offset;
use view::{MAX_POINTS, Marks, SheetLattice, Words};

// The greatest that a part of a cell's key can be.
const FAR_END: u16 = (cells::STRIDE - 1) as u16;

// How far cells reach to greater u, to smaller u, to greater v and to smaller v.
#[derive(Clone, Copy)]
struct Extent {
    more_u: u16,
    less_u: u16,
    more_v: u16,
    less_v: u16,
}

// That of no cell.
const NOWHERE: Extent = Extent {
    more_u: 0,
    less_u: 0,
    more_v: 0,
    less_v: 0,
};

impl Extent {
    // That of one cell.
    fn new(key: u32) -> Extent
        requires { key < 2 ^ 28 }
        ensures { result ≡ extent key }
    {
        let u = cells::u_part(key) as u16;
        let v = cells::v_part(key) as u16;
        Extent {
            more_u: u,
            less_u: FAR_END - u,
            more_v: v,
            less_v: FAR_END - v,
        }
    }

    // With one cell more.
    fn with(self, key: u32) -> Extent
        requires { key < 2 ^ 28 }
        ensures { result ≡ extent_with self key }
    {
        let cell = Extent::new(key);
        Extent {
            more_u: self.more_u.max(cell.more_u),
            less_u: self.less_u.max(cell.less_u),
            more_v: self.more_v.max(cell.more_v),
            less_v: self.less_v.max(cell.less_v),
        }
    }

    // Whether a cell lies as far, one of the ways.
    fn has_end(self, key: u32) -> bool
        requires { key < 2 ^ 28 }
        ensures { result ≡ at_some_end self key }
    {
        let cell = Extent::new(key);
        !(cell.less_u < self.less_u)
            || !(cell.more_u < self.more_u)
            || !(cell.less_v < self.less_v)
            || !(cell.more_v < self.more_v)
    }
}

// How far the patch of each label reaches.
fn extents(points: &LabelledCells) -> [Extent; MAX_POINTS]
    ensures { result ≡ extents_of points.now.sheet.lattice.count points.now.label points.now.keys.now }
{
    let n = points.sheet.lattice.count;
    let mut far = [NOWHERE; MAX_POINTS];
    for i in 0..n {
        let v = usize::from(points.label[i]);
        if v < n {
            far[v] = far[v].with(points.keys[i]);
        }
    }
    far
}

// 1 at each rank whose index has its place on the boundary of the box of its patch, given the labels.
fn boundary_among(points: &LabelledCells) -> Marks
    ensures { WhereverSeen points.now.sheet.lattice (λ w. result ≡ boundary_among w points.now.label (cells_at points.now.keys.now)) }
{
    let n = points.sheet.lattice.count;
    let far = extents(points);
    view::filled(0, n, |i| {
        let m = points.sheet.lattice.index(i);
        let s = usize::from(points.label[m]);
        u8::from(s < n && far[s].has_end(points.keys[m]))
    })
}

// 1 at each rank whose index has its place on the boundary of the box of its patch of all points.
#[inline(never)]
pub fn boundary(sheet: &SheetLattice, keys: &Words, sides: &[Offset]) -> Marks
    requires { CellKeys sheet.now.lattice.count keys.now }
    ensures { WhereverSeen sheet.now.lattice (λ w. result ≡ boundary_of w (places sides.now) (cells_at keys.now)) }
{
    let linked = LinkedLattice {
        lattice: sheet.lattice,
        sides,
    };
    boundary_among(&LabelledCells {
        sheet: *sheet,
        keys,
        label: labels(&linked, &[0; MAX_POINTS]),
    })
}
