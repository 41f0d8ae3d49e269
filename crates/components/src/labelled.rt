// Points with the labels of their patches: how many patches there are, which is the largest, and the ranks outside it.
ghost use Rattle.std.specs.Prelude.{◌≡◌, ◌≤◌};
ghost use Rattle.view.specs.View.{max_points};
ghost use Rattle.components.specs.Components.{patch_count, sizes_of, winner_of, others_by};

use view::{MAX_POINTS, Marks, Places};

// The label of each of so many points, which is `count` for one that does not survive.
#[derive(Drop)]
pub struct Labelled {
    pub label: Places,
    pub count: usize,
    ghost few: { count ≤ max_points },
}

impl Labelled {
    // How many patches there are.
    pub fn patches(&self) -> usize
        ensures { result ≡ patch_count self.now.count self.now.label }
    {
        view::counted(self.count, |k| usize::from(self.label[k]) == k)
    }

    // How many points each label has.
    fn sizes(&self) -> Places
        ensures { result ≡ sizes_of self.now.count self.now.label }
    {
        let mut size = [0; MAX_POINTS];
        for k in 0..self.count {
            let s = usize::from(self.label[k]);
            if s < self.count {
                size[s] += 1;
            }
        }
        size
    }

    // The label of the patch that is kept: most points, and of equals the one with the smaller least cell.
    pub fn winner(&self) -> usize
        ensures { result ≡ winner_of self.now.count self.now.label }
    {
        let size = self.sizes();
        let mut r = 0;
        for s in 0..self.count {
            if size[r] < size[s] {
                r = s;
            }
        }
        r
    }

    // 1 for each rank that survives and is in another patch than the winner.
    pub fn others(&self, win: usize) -> Marks
        ensures { result ≡ others_by self.now.count self.now.label win }
    {
        view::filled(0, self.count, |k| {
            let s = usize::from(self.label[k]);
            u8::from(s < self.count && s != win)
        })
    }
}
