// The sheet file: its fields, the refusals 1, 12 and 2 to 5 and the settings. Any bytes are read.
#![tactic(auto)]

ghost use Rattle.std.specs.List.{list_any};
ghost use Rattle.std.specs.Prelude.{◌≡◌, true, false, ◌+◌, ◌*◌, ◌≤◌, ◌<◌, length, IfSome, IsTrue};
ghost use Rattle.folds.specs.Arith.{f32};
ghost use Rattle.refusals.specs.Number.{numbered};
ghost use Rattle.sheet_file.specs.Bytes.{le16, le32};
ghost use Rattle.sheet_file.specs.Grammar.{longest};
ghost use Rattle.sheet_file.specs.Limit.{outside};
ghost use Rattle.sheet_file.specs.Frame.{field_len, field_at, end_from, strengths_from, points_from, gate_from, framing_of, gate_start, Held};
ghost use Rattle.sheet_file.specs.Refusals.{float_at, defaults_for, settings_in, gate_in, edge_shape_of, fraction_of, settings_of, misfit, no_flag, bad_flag, settings_floats, gate_floats, bad_float, FloatHeld, SettingsHeld, GateHeld, reading_in, reading_of};

use refusals::Refusal;
use view::MAX_POINTS;

// The most bytes of data of a field: its length is a two-byte number.
const MOST_DATA: usize = 65535;

// The most records of a field: the most points whose length is 20 times their number.
const MOST_RECORDS: usize = MOST_DATA / 20;

// One byte more than the longest well-framed file. The ruling on a longer file is that on its first FILE_SIZE bytes (`cut-ruling`, in ruling).
pub const FILE_SIZE: usize = 24 + 20 + 3 + 20 * MOST_RECORDS + 3 + MOST_DATA + 1;

// The number that the specifications use is the code's.
pub fn file_size() -> usize
    ensures { result ≡ longest + 1 }
{
    FILE_SIZE
}

// ---- numbers in the file

// The u16 in the two bytes from `at` on.
#[tactic(auto, unfolding(crate::specs::Bytes::le16))]
fn u16_at(file: &[u8], at: usize) -> u16
    requires { at + 2 ≤ length file.now }
    ensures { result ≡ le16 file.now at }
{
    u16::from_le_bytes([file[at], file[at + 1]])
}

// The u32 in the four bytes from `at` on.
#[tactic(auto, unfolding(crate::specs::Bytes::le32))]
pub fn u32_at(file: &[u8], at: usize) -> u32
    requires { at + 4 ≤ length file.now }
    ensures { result ≡ le32 file.now at }
{
    u32::from_le_bytes([file[at], file[at + 1], file[at + 2], file[at + 3]])
}

// Whether the float with this pattern is not finite or exceeds 16,384 in magnitude. The highest bit of a pattern is the sign, and
// 0x46800000 is the pattern of 16,384.
pub fn is_outside_bits(bits: u32) -> bool
    ensures { result ≡ outside (f32 bits) }
{
    0x4680_0000 < bits % 0x8000_0000
}

// The same of the float in the four bytes from `at` on.
pub fn is_outside(file: &[u8], at: usize) -> bool
    requires { at + 4 ≤ length file.now }
    ensures { result ≡ outside (float_at file.now at) }
{
    is_outside_bits(u32_at(file, at))
}

// The f32 with this pattern, which is finite and at most 16,384 in magnitude.
pub fn float_of(bits: u32) -> f32
    requires { outside (f32 bits) ≡ false }
    ensures { result ≡ f32 bits }
{
    f32::from_bits(bits)
}

// The one in the four bytes from `at` on.
pub fn float_at(file: &[u8], at: usize) -> f32
    requires { FloatHeld file.now at }
    ensures { result ≡ float_at file.now at }
{
    float_of(u32_at(file, at))
}

// ---- the settings

// The tolerances of the edge-shape gate, as tag 2 gives them.
#[derive(Clone, Copy)]
pub struct EdgeShapeParams {
    pub min_cardinal_degree: u8,
    pub continuation_cos_min: f32,
    pub continuation_length_ratio_max: f32,
    pub cell_opposite_cos_min: f32,
    pub cell_opposite_length_ratio_max: f32,
}

// The fraction of tag 4: none without that tag; one that number 13 refuses, of which no f32 is made; or the fraction.
#[derive(Clone, Copy)]
pub enum Fraction {
    Missing,
    Outside,
    Given(f32),
}

#[derive(Clone, Copy)]
pub struct Settings {
    pub cell_size: f32,
    pub line_tol_rel: f32,
    pub line_min_members: u16,
    pub local_h_tol_rel: f32,
    pub use_step_aware: bool,
    pub step_deviation_thresh_rel: f32,
    pub apply_wrong_label_drops: bool,
    pub apply_largest_component: bool,
    pub edge_shape: Option<EdgeShapeParams>,
    pub score_frac: Fraction,
}

impl Settings {
    pub const LINE_TOL_REL: f32 = 0.15;

    pub const LINE_MIN_MEMBERS: u16 = 4;

    pub const LOCAL_H_TOL_REL: f32 = 0.20;

    pub const USE_STEP_AWARE: bool = false;

    pub const STEP_DEVIATION_THRESH_REL: f32 = 0.0;

    pub const APPLY_WRONG_LABEL_DROPS: bool = true;

    pub const APPLY_LARGEST_COMPONENT: bool = true;

    // The defaults for a cell size, with or without an edge-shape gate and a fraction.
    #[tactic(auto, unfolding(crate::specs::Refusals::defaults_for))]
    pub fn new(cell_size: f32, edge_shape: Option<EdgeShapeParams>, score_frac: Fraction) -> Self
        ensures { result ≡ defaults_for cell_size edge_shape score_frac }
    {
        Self {
            cell_size,
            line_tol_rel: Self::LINE_TOL_REL,
            line_min_members: Self::LINE_MIN_MEMBERS,
            local_h_tol_rel: Self::LOCAL_H_TOL_REL,
            use_step_aware: Self::USE_STEP_AWARE,
            step_deviation_thresh_rel: Self::STEP_DEVIATION_THRESH_REL,
            apply_wrong_label_drops: Self::APPLY_WRONG_LABEL_DROPS,
            apply_largest_component: Self::APPLY_LARGEST_COMPONENT,
            edge_shape,
            score_frac,
        }
    }
}

// ---- the fields

// Where the data of tag 4 begin, and how many bytes they are.
#[derive(Clone, Copy)]
pub struct Weights {
    pub at: usize,
    pub len: usize,
}

// Where the fields stand: whether tag 1 has length 21, whether there is a tag 2, where the points begin and how many there are, and the data
// of tag 4, if there is one.
#[derive(Clone, Copy)]
pub struct Layout {
    pub full: bool,
    pub gated: bool,
    pub points: usize,
    pub count: usize,
    pub weights: Option<Weights>,
}

// A place in a file.
#[derive(Clone, Copy)]
struct Place<'a> {
    file: &'a [u8],
    at: usize,
    ghost inside: { at ≤ length file.now },
}

impl<'a> Place<'a> {
    // How many bytes of data the field with this tag has, if it stands here: its length is in its own two bytes.
    #[tactic(auto, unfolding(crate::specs::Frame::field_at, crate::specs::Frame::field_len))]
    fn field_len(&self, tag: u8) -> Option<usize>
        ensures value { result ≡ field_len self.now.file.now self.now.at tag }
        ensures inside { IfSome result (λ n. self.now.at + 3 + n ≤ length self.now.file.now) }
    {
        let file = self.file;
        let at = self.at;
        if file.len() - at < 3 || file[at] != tag {
            return None;
        }
        let len = usize::from(u16_at(file, at + 1));
        (len <= file.len() - at - 3).then_some(len)
    }

    // Whether the field with this tag and `len` bytes of data stands here.
    #[tactic(auto, unfolding(crate::specs::Frame::field_at, crate::specs::Frame::field_len))]
    fn field_at(&self, tag: u8, len: usize) -> bool
        ensures value { result ≡ field_at self.now.file.now self.now.at tag len }
        ensures inside { IsTrue result → self.now.at + 3 + len ≤ length self.now.file.now }
    {
        self.field_len(tag) == Some(len)
    }

    // The place after a field with `len` bytes of data.
    fn after(&self, len: usize) -> Place<'a>
        requires { self.now.at + 3 + len ≤ length self.now.file.now }
        ensures file { result.file ≡ self.now.file }
        ensures place { result.at ≡ self.now.at + 3 + len }
    {
        Place {
            file: self.file,
            at: self.at + 3 + len,
        }
    }

    // The end of the file, which the last field must reach: it ends here.
    #[tactic(auto, unfolding(crate::specs::Frame::end_from))]
    fn end(&self, f: Layout) -> Option<Layout>
        ensures { result ≡ end_from self.now.file.now self.now.at f }
    {
        (self.at == self.file.len()).then_some(f)
    }

    // Tag 4, if it stands here, and then the end of the file.
    #[tactic(auto, unfolding(crate::specs::Frame::field_len, crate::specs::Frame::strengths_from))]
    fn strengths(&self, f: Layout) -> Option<Layout>
        ensures { result ≡ strengths_from self.now.file.now self.now.at f }
    {
        match self.field_len(4) {
            Some(len) => self.after(len).end(Layout {
                weights: Some(Weights {
                    at: self.at + 3,
                    len,
                }),
                ..f
            }),
            None => self.end(f),
        }
    }

    // Tag 3, and then tag 4.
    #[tactic(auto, unfolding(crate::specs::Frame::field_len, crate::specs::Frame::points_from))]
    fn points(&self, full: bool, gated: bool) -> Option<Layout>
        ensures { result ≡ points_from self.now.file.now self.now.at full gated }
    {
        let len = self.field_len(3)?;
        if len % 20 != 0 {
            return None;
        }
        let f = Layout {
            full,
            gated,
            points: self.at + 3,
            count: len / 20,
            weights: None,
        };
        self.after(len).strengths(f)
    }

    // Tag 2, if it stands here, and then tag 3.
    #[tactic(auto, unfolding(crate::specs::Frame::gate_from))]
    fn gate(&self, full: bool) -> Option<Layout>
        ensures { result ≡ gate_from self.now.file.now self.now.at full }
    {
        if self.field_at(2, 17) {
            return self.after(17).points(full, true);
        }
        self.points(full, false)
    }
}

// The fields of the whole file, if they are the right ones in their order.
#[tactic(auto, unfolding(crate::specs::Frame::framing_of))]
pub fn frame(file: &[u8]) -> Option<Layout>
    ensures { result ≡ framing_of file.now }
{
    let start = Place { file, at: 0 };
    if start.field_at(1, 21) {
        return start.after(21).gate(true);
    }
    if start.field_at(1, 4) {
        return start.after(4).gate(false);
    }
    None
}

// ---- what is read

// The settings, and where the fields stand.
#[derive(Clone, Copy)]
pub struct Header {
    pub settings: Settings,
    pub layout: Layout,
}

fn is_no_flag(b: u8) -> bool
    ensures { result ≡ no_flag b }
{
    1 < b
}

// Whether a float of tag 2, whose data begin at `at`, is outside the limit.
fn gate_outside(file: &[u8], at: usize) -> bool
    requires { at + 17 ≤ length file.now }
    ensures { result ≡ list_any outside (gate_floats file.now at) }
{
    is_outside(file, at + 1)
        | is_outside(file, at + 5)
        | is_outside(file, at + 9)
        | is_outside(file, at + 13)
}

// Where the data of tag 2 begin.
fn gate_start(full: bool) -> usize
    ensures { result ≡ gate_start full }
{
    if full { 27 } else { 10 }
}

// The edge-shape gate in the data of tag 2 from `at` on.
#[tactic(auto, unfolding(crate::specs::Refusals::gate_in))]
fn gate_in(file: &[u8], at: usize) -> EdgeShapeParams
    requires { GateHeld file.now at }
    ensures { result ≡ gate_in file.now at }
{
    EdgeShapeParams {
        min_cardinal_degree: file[at],
        continuation_cos_min: float_at(file, at + 1),
        continuation_length_ratio_max: float_at(file, at + 5),
        cell_opposite_cos_min: float_at(file, at + 9),
        cell_opposite_length_ratio_max: float_at(file, at + 13),
    }
}

// The settings in the 21 bytes of tag 1.
#[tactic(auto, unfolding(crate::specs::Refusals::settings_in))]
fn settings_in(file: &[u8], gate: Option<EdgeShapeParams>, fraction: Fraction) -> Settings
    requires { SettingsHeld file.now }
    ensures { result ≡ settings_in file.now gate fraction }
{
    Settings {
        cell_size: float_at(file, 3),
        line_tol_rel: float_at(file, 7),
        line_min_members: u16_at(file, 11),
        local_h_tol_rel: float_at(file, 13),
        use_step_aware: file[17] == 1,
        step_deviation_thresh_rel: float_at(file, 18),
        apply_wrong_label_drops: file[22] == 1,
        apply_largest_component: file[23] == 1,
        edge_shape: gate,
        score_frac: fraction,
    }
}

// Whether tag 4 is not 4 bytes plus 4 per point.
fn is_misfit(f: Layout) -> bool
    requires { 20 * f.count < 0x1_0000_0000_0000_0000 }
    ensures { result ≡ misfit f }
{
    f.weights.is_some_and(|w| w.len != 4 + 4 * f.count)
}

// A file whose fields stand so: the data of each are within its bytes.
#[derive(Clone, Copy)]
struct Framed<'a> {
    file: &'a [u8],
    layout: Layout,
    ghost held: { Held file.now layout },
}

impl Framed<'_> {
    // Whether the step flag or a switch is neither 0 nor 1.
    #[tactic(auto, unfolding(crate::specs::Refusals::bad_flag))]
    fn has_bad_flag(&self) -> bool
        ensures { result ≡ bad_flag self.now.file.now self.now.layout }
    {
        let file = self.file;
        self.layout.full && (is_no_flag(file[17]) || is_no_flag(file[22]) || is_no_flag(file[23]))
    }

    // Whether a float of tag 1 is outside the limit.
    fn settings_outside(&self) -> bool
        ensures { result ≡ list_any outside (settings_floats self.now.file.now self.now.layout.full) }
    {
        let file = self.file;
        let cell = is_outside(file, 3);
        if self.layout.full {
            return cell | is_outside(file, 7) | is_outside(file, 13) | is_outside(file, 18);
        }
        cell
    }

    // Whether a float of tag 1 or 2 is outside the limit.
    #[tactic(auto, unfolding(crate::specs::Refusals::bad_float))]
    fn has_bad_float(&self) -> bool
        ensures { result ≡ bad_float self.now.file.now self.now.layout }
    {
        let f = self.layout;
        self.settings_outside() || f.gated && gate_outside(self.file, gate_start(f.full))
    }

    #[tactic(auto, using(crate::proofs::Floats::gate_held), unfolding(crate::specs::Refusals::edge_shape_of))]
    fn edge_shape(&self) -> Option<EdgeShapeParams>
        requires { bad_float self.now.file.now self.now.layout ≡ false }
        ensures { result ≡ edge_shape_of self.now.file.now self.now.layout }
    {
        let f = self.layout;
        f.gated.then(|| gate_in(self.file, gate_start(f.full)))
    }

    // The fraction in the first four bytes of tag 4's data.
    #[tactic(auto, unfolding(crate::specs::Refusals::fraction_of))]
    fn fraction(&self) -> Fraction
        requires { misfit self.now.layout ≡ false }
        ensures { result ≡ fraction_of self.now.file.now self.now.layout }
    {
        match self.layout.weights {
            Some(w) if is_outside(self.file, w.at) => Fraction::Outside,
            Some(w) => Fraction::Given(float_at(self.file, w.at)),
            None => Fraction::Missing,
        }
    }

    #[tactic(auto, using(crate::proofs::Floats::first_held, crate::proofs::Floats::full_held), unfolding(crate::specs::Refusals::settings_of))]
    fn settings(&self) -> Settings
        requires { (bad_float self.now.file.now self.now.layout ≡ false) × (misfit self.now.layout ≡ false) }
        ensures { result ≡ settings_of self.now.file.now self.now.layout }
    {
        let gate = self.edge_shape();
        let fraction = self.fraction();
        if self.layout.full {
            return settings_in(self.file, gate, fraction);
        }
        Settings::new(float_at(self.file, 3), gate, fraction)
    }

    // Refusals 12 and 2 to 5.
    #[tactic(auto, unfolding(crate::specs::Refusals::reading_in))]
    fn read(&self, room: usize) -> Result<Header, Refusal>
        ensures { numbered result ≡ reading_in self.now.file.now room (Some self.now.layout) }
    {
        let f = self.layout;
        if is_misfit(f) {
            return Err(Refusal::StrengthsLength);
        }
        if MAX_POINTS < f.count {
            return Err(Refusal::TooManyPoints);
        }
        if room < 28 * f.count {
            return Err(Refusal::ShortBuffer);
        }
        if self.has_bad_flag() {
            return Err(Refusal::BadSwitch);
        }
        if self.has_bad_float() {
            return Err(Refusal::BadSetting);
        }
        Ok(Header {
            settings: self.settings(),
            layout: f,
        })
    }
}

// The settings of a file and where its fields stand, or one of the refusals 1, 12 and 2 to 5; `room` is the length of the result buffer.
#[tactic(auto, unfolding(crate::specs::Refusals::reading_of))]
pub fn read(file: &[u8], room: usize) -> Result<Header, Refusal>
    ensures { numbered result ≡ reading_of file.now room }
{
    match frame(file) {
        Some(layout) => Framed { file, layout }.read(room),
        None => Err(Refusal::Misframed),
    }
}
