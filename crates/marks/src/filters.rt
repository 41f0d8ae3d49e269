// The filters, in the order of the table of specs/Filters.antt: the value of each one's bit, its letter and its word.
ghost use Rattle.std.specs.Prelude.{◌≡◌, [], ◌∷◌, ◌++◌, ◌<◌, ◌^◌};
ghost use Rattle.text.specs.Text.{bytes};
ghost use Rattle.marks.specs.Filters.{filter_at, filter_count};
ghost use Rattle.marks.specs.Places.{place, place_in};
ghost use Rattle.marks.specs.Byte.{has_mark, with_mark, first_mark};

#[derive(Clone, Copy, PartialEq, Eq)]
pub enum Filter {
    Validate,
    Orientation,
    WrongLabel,
    Leaf,
    Component,
}

// How many there are.
pub const FILTERS: usize = 5;

impl Filter {
    // In the order in which they run and in which an index is counted.
    pub const ALL: [Filter; FILTERS] = [
        Filter::Validate,
        Filter::Orientation,
        Filter::WrongLabel,
        Filter::Leaf,
        Filter::Component,
    ];

    // Its place in that order.
    pub fn place(self) -> usize
        ensures { (result ≡ place self) × (result < filter_count) }
    {
        self as usize
    }

    // The value of its bit.
    fn bit_value(self) -> u8
        ensures { (result ≡ 2 ^ (filter_at (place self)).bit) × (0 < result) }
    {
        match self {
            Filter::Validate => 1,
            Filter::Orientation => 2,
            Filter::WrongLabel => 4,
            Filter::Leaf => 16,
            Filter::Component => 8,
        }
    }

    pub fn letter(self) -> u8
        ensures { (result ∷ []) ≡ bytes (filter_at (place self)).letter }
    {
        match self {
            Filter::Validate => b'V',
            Filter::Orientation => b'O',
            Filter::WrongLabel => b'W',
            Filter::Leaf => b'L',
            Filter::Component => b'C',
        }
    }

    // Its word, with a space on each side.
    pub fn word(self) -> &'static [u8]
        ensures { result.now ≡ bytes " " ++ bytes (filter_at (place self)).word ++ bytes " " }
    {
        match self {
            Filter::Validate => b" validate ",
            Filter::Orientation => b" orientation ",
            Filter::WrongLabel => b" wrong ",
            Filter::Leaf => b" leaf ",
            Filter::Component => b" component ",
        }
    }

    // Whether it has marked a point with these marks.
    pub fn has_marked(self, marks: u8) -> bool
        ensures { result ≡ has_mark (place self) marks }
    {
        marks / self.bit_value() % 2 == 1
    }

    // The marks with its own.
    pub fn marked(self, marks: u8) -> u8
        ensures { result ≡ with_mark (place self) marks }
    {
        if self.has_marked(marks) {
            return marks;
        }
        marks + self.bit_value()
    }
}

// The first filter that has marked the point.
pub fn first_mark(marks: u8) -> Option<Filter>
    ensures { place_in result ≡ first_mark marks }
{
    for f in Filter::ALL {
        if f.has_marked(marks) {
            return Some(f);
        }
    }
    None
}
