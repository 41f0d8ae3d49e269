// The text that the program `sheet` prints, into a buffer that the caller lends. What it is stands in specs/Listing.antt.
#![tactic(auto)]

mod fill;
mod line;

ghost use Rattle.std.specs.Prelude.{◌≡◌, List, ℕ, ◌<◌, get_or, Option};
ghost use Rattle.cells.specs.Cell.{cells_at};
ghost use Rattle.marks.specs.Filters.{filter_count};
ghost use Rattle.text.specs.Answer.{Shows};
ghost use Rattle.text.specs.Stored.{Stored};
ghost use Rattle.text.specs.Text.{each};
ghost use Rattle.edge_shape.specs.Figures.{no_figures};
ghost use Rattle.edge_shape.specs.declared.Figures.{Figures};
ghost use Rattle.edge_shape.specs.declared.Reason.{Reason as EdgeReason};
ghost use Rattle.judged.specs.Judged.{judged_from};
ghost use Rattle.listing.specs.Listing.{head_text, lines_of, tally_text, fill_lines, listing_of, listing_size, count_text};

use cells::Points;
use edge_shape::Reason;
use judged::Findings;
use marks::Tally;
use marks::filters::{FILTERS, Filter};
use predict::Fills;
use text::{NoRoom, Writer};
use view::{MAX_POINTS, Marks};

// A buffer of this size has room for every listing: the first line, a line for each point, the tally, a line for each dropped point.
pub const LISTING_SIZE: usize = 40
    + (37 + FILTERS) * MAX_POINTS
    + (10 + 17 * FILTERS)
    + 33 * MAX_POINTS;

// The number that the specifications use is the code's.
pub fn listing_size() -> usize
    ensures { result ≡ listing_size }
{
    LISTING_SIZE
}

fn put_head(w: &mut Writer, n: usize, components: usize, rounds: usize)
    ensures { Stored w.old (head_text n components rounds) w.new }
{
    w.text(b"points ");
    w.decimal(n);
    w.text(b" components ");
    w.decimal(components);
    w.text(b" rounds ");
    w.decimal(rounds);
    w.byte(b'\n');
}

// A line for each point; `reason` gives the edge reason of each.
fn put_lines<F: Fn(usize) -> Option<Reason>>(
    w: &mut Writer,
    points: &Points,
    j: &Findings,
    reason: F,
)
    requires { (k : ℕ) → k < points.now.count → F.pre reason k }
    ensures { (figures : List Figures) → ((k : ℕ) (r : Option EdgeReason) → k < points.now.count → F.post reason k r → r ≡ (get_or figures k no_figures).reason) → Stored w.old (lines_of (cells_at points.now.keys.now) points.now.idx.now (judged_from j.now figures) points.now.count) w.new }
{
    for k in 0..points.count {
        line::put_line(
            w,
            points.keys[k],
            points.idx[k],
            j.marks[k],
            reason(k),
            j.residuals[k],
        );
    }
}

fn put_counts(w: &mut Writer, counts: &Tally)
    ensures { Stored w.old (each (λ f. count_text f (get_or counts.now f 0)) filter_count) w.new }
{
    for f in Filter::ALL {
        w.text(f.word());
        w.decimal(counts[f.place()]);
    }
}

fn put_tally(w: &mut Writer, counts: &Tally)
    ensures { Stored w.old (tally_text counts.now) w.new }
{
    w.text(b"kept ");
    w.decimal(counts[FILTERS]);
    put_counts(w, counts);
    w.byte(b'\n');
}

// A line for each point with a mark.
fn put_fills(w: &mut Writer, points: &Points, marks: &Marks, fills: &Fills)
    ensures { Stored w.old (fill_lines (cells_at points.now.keys.now) marks.now fills.now points.now.count) w.new }
{
    for k in 0..points.count {
        fill::put_fill(w, points.keys[k], marks[k], fills[k]);
    }
}

// The listing of points in cell order: what was judged of them, and their fills. Of the edge figures it shows the reasons alone, which
// `reason` gives.
pub fn write_listing<F: Fn(usize) -> Option<Reason>>(
    points: &Points,
    j: &Findings,
    fills: &Fills,
    reason: F,
    out: &mut [u8],
) -> Result<usize, NoRoom>
    requires { (k : ℕ) → k < points.now.count → F.pre reason k }
    ensures { (figures : List Figures) → ((k : ℕ) (r : Option EdgeReason) → k < points.now.count → F.post reason k r → r ≡ (get_or figures k no_figures).reason) → Shows (listing_of points.now.count (cells_at points.now.keys.now) points.now.idx.now (judged_from j.now figures) fills.now) out.old out.new result }
{
    let mut w = Writer::new(out);
    put_head(&mut w, points.count, j.components, j.rounds);
    put_lines(&mut w, points, j, reason);
    put_tally(&mut w, &j.tally);
    put_fills(&mut w, points, &j.marks, fills);
    w.answer()
}
