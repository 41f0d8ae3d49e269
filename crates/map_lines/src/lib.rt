// The map of a sheet: a line for each v, a character for each u, into a buffer that the caller lends. What it is stands in specs/Map.antt.
#![tactic(auto)]

pub mod spans;

ghost use Rattle.std.specs.Prelude.{◌≡◌, false, [], ◌∷◌, ℕ, ◌+◌, ◌^◌, ◌≤◌, ◌<◌, length, get_or, pos, ◌-ℤ◌, ◌||◌, ltb};
ghost use Rattle.view.specs.View.{max_points};
ghost use Rattle.cells.specs.Points.{bias};
ghost use Rattle.cells.specs.Cell.{cells_at};
ghost use Rattle.text.specs.Answer.{Shows};
ghost use Rattle.text.specs.Stored.{Stored};
ghost use Rattle.text.specs.Text.{each};
ghost use Rattle.map_lines.specs.Map.{columns, most_lines, too_wide, point_character, line_text, map_of, map_size};
ghost use Rattle.map_lines.specs.Page.{OnPage, Drawn};

use marks::filters;
pub use spans::{Span, SpannedKeys};
use text::{NoRoom, Writer};
use view::Marks;

// The characters of v in a line, and those of cells.
const LABEL_WIDTH: usize = 6;

const COLUMNS: usize = 72;

// Of a line: v, a space, the cells, a space.
const LINE_LENGTH: usize = LABEL_WIDTH + 1 + COLUMNS + 1;

const MOST_LINES: usize = 60;

type Line = [u8; COLUMNS];

// The cells of the map, line by line.
type Page = [Line; MOST_LINES];

// A buffer of this size has room for every map, with a newline after each line.
pub const MAP_SIZE: usize = (LINE_LENGTH + 1) * MOST_LINES;

// The number that the specifications use is the code's.
pub fn map_size() -> usize
    ensures { result ≡ map_size }
{
    MAP_SIZE
}

fn character(marks: u8) -> u8
    ensures { (result ∷ []) ≡ point_character marks }
{
    match filters::first_mark(marks) {
        Some(f) => f.letter(),
        None => b'#',
    }
}

// The page from cell (u, v) on, both plus BIAS, with the characters of the points with these keys.
fn draw(keys: &[u32], marks: &Marks, u: usize, v: usize) -> Page
    requires { (length keys.now ≤ max_points) × OnPage keys.now (length keys.now) u v }
    ensures { Drawn (length keys.now) (cells_at keys.now) marks.now (pos u -ℤ pos bias) (pos v -ℤ pos bias) result }
{
    let mut page = [[b'.'; COLUMNS]; MOST_LINES];
    for (k, key) in keys.iter().enumerate() {
        let column = cells::u_part(*key) as usize - u;
        let line = cells::v_part(*key) as usize - v;
        page[line][column] = character(marks[k]);
    }
    page
}

// A line, which is that of v, plus BIAS.
fn put_line(w: &mut Writer, line: &Line, v: usize)
    ensures { Stored w.old (line_text (pos v -ℤ pos bias) line.now) w.new }
{
    w.right(LABEL_WIDTH, v, cells::BIAS as usize);
    w.byte(b' ');
    w.text(line);
    w.byte(b' ');
    w.byte(b'\n');
}

// So many lines, the first of them that of v, plus BIAS.
fn put_lines(w: &mut Writer, page: &Page, count: usize, v: usize)
    requires { (count ≤ most_lines) × (v < 2 ^ 32) }
    ensures { Stored w.old (each (λ (i : ℕ). line_text (pos (v + i) -ℤ pos bias) (get_or page.now i [])) count) w.new }
{
    for i in 0..count {
        put_line(w, &page[i], v + i);
    }
}

// Whether what is spanned is too wide for a page.
pub fn too_wide(u: Span, v: Span) -> bool
    ensures { result ≡ ltb columns u.count || ltb most_lines v.count }
{
    COLUMNS < u.count || MOST_LINES < v.count
}

impl SpannedKeys<'_> {
    // Whether the cells span too much for a page.
    pub fn too_wide(&self) -> bool
        ensures { result ≡ too_wide (length self.now.keys.now) (cells_at self.now.keys.now) }
    {
        too_wide(self.u, self.v)
    }

    // The map of points in cell order, whose cells have these keys, and of their marks.
    pub fn write_map(&self, marks: &Marks, out: &mut [u8]) -> Result<usize, NoRoom>
        requires { (length self.now.keys.now ≤ max_points) × (too_wide (length self.now.keys.now) (cells_at self.now.keys.now) ≡ false) }
        ensures { Shows (map_of (length self.now.keys.now) (cells_at self.now.keys.now) marks.now) out.old out.new result }
    {
        let page = draw(self.keys, marks, self.u.least, self.v.least);
        let mut w = Writer::new(out);
        put_lines(&mut w, &page, self.v.count, self.v.least);
        w.answer()
    }
}
