// The validate mark of each index, its residual and its edge figures: rules 1 to 5 over lines, residuals, steps and edge shapes.
#![tactic(auto)]

ghost use Rattle.std.specs.Prelude.{◌≡◌, ◌||◌, ℕ, get_or};
ghost use Rattle.folds.specs.Column.{column};
ghost use Rattle.folds.specs.Marked.{bit};
ghost use Rattle.marks.specs.Marks.{is_set};
ghost use Rattle.view.specs.View.{max_points};
ghost use Rattle.view.specs.Seen.{view_in};
ghost use Rattle.cells.specs.Cell.{cells_at};
ghost use Rattle.patches.specs.Boxes.{CellKeys};
ghost use Rattle.edge_shape.specs.Figures.{no_figures};
ghost use Rattle.judged.specs.Judged.{blank_figures};
ghost use Rattle.blame.specs.Marks.{blame_marks};
ghost use Rattle.residuals.specs.ByIndex.{residuals_of};
ghost use Rattle.validate.specs.Validate.{evidence_of, is_reason, gate_figures, gate_boundary};
ghost use Rattle.validate.specs.Parts.{Prepared, validated_of};

use blame::Evidence;
use cells::CelledView;
use edges::EdgeTable;
use judged::Measured;
use judged::figures::FigureColumn;
use local_h::ResidualColumn;
use median::Numbers;
use sheet_file::{EdgeShapeParams, Settings};
use view::{Lattice, MAX_POINTS, Marks};

// Rules 1 to 4: the mark of each rank's index, and its residual, in the place of what stood in the column.
#[inline(never)]
fn by_rules(s: Settings, celled: &CelledView, residuals: &mut ResidualColumn) -> Marks
    ensures marks { result ≡ blame_marks (view_in celled.now.view) (evidence_of s (view_in celled.now.view) (cells_at celled.now.keys.now)) }
    ensures residuals { residuals.new ≡ residuals_of (view_in celled.now.view) (cells_at celled.now.keys.now) }
{
    let view = &celled.view;
    let steps = step::steps(&view.points(), s.use_step_aware);
    let scales = step::scales(&view.sheet, &steps, s.cell_size);
    let flags = lines::line_flags(view, &scales, s.line_tol_rel, s.line_min_members);
    let r = residuals::index_residuals(celled, &scales, s.local_h_tol_rel, residuals);
    let index_steps = Numbers {
        values: &steps,
        count: view.sheet.lattice.count,
    };
    let deviates = step::deviations(&index_steps, s.step_deviation_thresh_rel);
    let evidence = Evidence {
        flags: &flags,
        over: &r.over,
        high: &r.high,
        deviates: &deviates,
    };
    blame::marks(&view.sheet, &evidence)
}

// The edge figures of each rank's index, into an empty array; none without a gate.
#[inline(never)]
pub fn edge_figures(gate: Option<EdgeShapeParams>, edges: &EdgeTable, figures: &mut FigureColumn)
    requires { figures.old ≡ blank_figures }
    ensures { figures.new ≡ gate_figures gate (view_in edges.now.view) }
{
    if let Some(g) = gate {
        judged::figures::evaluate_edge_shape(g, edges, figures);
    }
}

// 1 where each rank's index lies on the boundary of its patch's box; nowhere without a gate.
fn boundary_by(gate: Option<EdgeShapeParams>, celled: &CelledView) -> Marks
    requires { CellKeys celled.now.view.sheet.lattice.count celled.now.keys.now }
    ensures { result ≡ gate_boundary gate (view_in celled.now.view) (cells_at celled.now.keys.now) }
{
    match gate {
        None => [0; MAX_POINTS],
        Some(_) => patches::boxes::boundary(
            &celled.view.sheet,
            celled.keys,
            &patches::square_sides(),
        ),
    }
}

// Rule 5, beside the others.
fn with_reasons(lattice: &Lattice, mark: &Marks, figures: &FigureColumn) -> Marks
    ensures { result ≡ column max_points 0 lattice.now.count (λ (k : ℕ). bit (is_set mark.now k || is_reason (get_or figures.now k no_figures).reason)) }
{
    view::filled(0, lattice.count, |k| {
        u8::from(mark[k] == 1 || figures[k].reason.is_some())
    })
}

// For each rank the validate mark of its index, which is 0 or 1, and the residual, in the place of what stood in the column: a judged sheet
// as far as it goes by these. The figures have the edge reasons.
#[inline(never)]
pub fn validate(
    s: Settings,
    celled: &CelledView,
    figures: &FigureColumn,
    residuals: &mut ResidualColumn,
) -> Measured
    requires { Prepared s (view_in celled.now.view) celled.now.keys.now figures.now }
    ensures measured { result ≡ validated_of s (view_in celled.now.view) (cells_at celled.now.keys.now) }
    ensures residuals { residuals.new ≡ residuals_of (view_in celled.now.view) (cells_at celled.now.keys.now) }
{
    let ruled = by_rules(s, celled, residuals);
    Measured {
        marks: with_reasons(&celled.view.sheet.lattice, &ruled, figures),
        boundary: boundary_by(s.edge_shape, celled),
    }
}
