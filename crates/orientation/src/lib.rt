// Votes on the orientation of the lattice, and the marks of the indices whose points cast those of the minority.
#![tactic(auto)]

ghost use Rattle.std.specs.Prelude.{◌≡◌, None, ℕ, ◌<◌, get_or};
ghost use Rattle.folds.specs.Below.{some, tally};
ghost use Rattle.folds.specs.Column.{column};
ghost use Rattle.folds.specs.Marked.{bit, Marked};
ghost use Rattle.view.specs.View.{max_points};
ghost use Rattle.view.specs.Seen.{view_in};
ghost use Rattle.orientation.specs.Orientation.{vote_by, cross, vote_at, orientation_of};
ghost use Rattle.orientation.specs.Voters.{vote_of, is_for, votes_of, voters, voters_at, party_of, turned_at};

use offsets::{NEXT_U, NEXT_V};
use std::cmp::Ordering;
use view::{Lattice, MAX_POINTS, Marks, View};

// The two sides of the votes: that of positive cross products and that of negative ones.
#[derive(Clone, Copy, PartialEq, Eq)]
enum Side {
    Positive,
    Negative,
}

// The vote of each rank, if it casts one.
type Votes = [Option<Side>; MAX_POINTS];

#[tactic(auto, unfolding(crate::specs::Orientation::vote_by))]
fn vote_by(c: f32) -> Option<Side>
    ensures { result ≡ vote_of (vote_by c) }
{
    if c == 0.0 {
        return None;
    }
    Some(if 0.0 < c {
        Side::Positive
    } else {
        Side::Negative
    })
}

#[tactic(auto, unfolding(crate::specs::Orientation::cross))]
fn cross_of(ax: f32, ay: f32, bx: f32, by: f32) -> f32
    ensures { result ≡ cross ax ay bx by }
{
    ax * by - ay * bx
}

// The vote of rank k, if it casts one.
fn vote_at(view: &View, k: usize) -> Option<Side>
    requires { k < view.now.sheet.lattice.count }
    ensures { result ≡ vote_of (vote_at (view_in view.now) k) }
{
    let a = view.sheet.lattice.neighbour(k, NEXT_U)?;
    let b = view.sheet.lattice.neighbour(k, NEXT_V)?;
    let x = view.seen.x;
    let y = view.seen.y;
    vote_by(cross_of(x[a] - x[k], y[a] - y[k], x[b] - x[k], y[b] - y[k]))
}

fn votes(view: &View) -> Votes
    ensures { result ≡ votes_of (view_in view.now) }
{
    view::filled(None, view.sheet.lattice.count, |k| vote_at(view, k))
}

impl Side {
    // Whether a vote is for it.
    fn is_of(self, vote: Option<Side>) -> bool
        ensures { result ≡ is_for self vote }
    {
        vote == Some(self)
    }
}

// How many votes are for the side.
fn votes_for(lattice: &Lattice, vote: &Votes, side: Side) -> usize
    ensures { result ≡ tally (λ (k : ℕ). is_for side (get_or vote.now k None)) lattice.now.count }
{
    view::counted(lattice.count, |k| side.is_of(vote[k]))
}

// Marks the three points of rank k's vote, if it is for the side.
fn mark_voters(view: &View, vote: &Votes, side: Side, k: usize, mark: &mut Marks)
    requires { k < view.now.sheet.lattice.count }
    ensures { Marked (voters (view_in view.now) vote.now side k) mark.old mark.new }
{
    if side.is_of(vote[k]) {
        marks::set(mark, Some(k));
        marks::set(mark, view.sheet.lattice.neighbour(k, NEXT_U));
        marks::set(mark, view.sheet.lattice.neighbour(k, NEXT_V));
    }
}

// The members of the side.
fn side_members(view: &View, vote: &Votes, side: Side) -> Marks
    ensures { result ≡ column max_points 0 view.now.sheet.lattice.count (λ (m : ℕ). bit (some (λ (k : ℕ). voters_at (view_in view.now) vote.now side k m) view.now.sheet.lattice.count)) }
{
    let mut out = [0u8; MAX_POINTS];
    for k in 0..view.sheet.lattice.count {
        mark_voters(view, vote, side, k, &mut out);
    }
    out
}

// What a side has: how many votes, and which indices have a member of it.
#[derive(Drop)]
struct Party {
    votes: usize,
    members: Marks,
}

// What the side has of these votes.
fn party_for(view: &View, vote: &Votes, side: Side) -> Party
    requires { vote.now ≡ votes_of (view_in view.now) }
    ensures { result ≡ party_of (view_in view.now) side }
{
    let members = side_members(view, vote, side);
    Party {
        votes: votes_for(&view.sheet.lattice, vote, side),
        members: marks::by_index(&view.sheet, &members),
    }
}

// Whether rank k's index is marked, from what the sides have.
#[tactic(auto, unfolding(crate::specs::Orientation::turned))]
fn turned_at(positive: &Party, negative: &Party, k: usize) -> bool
    requires { k < max_points }
    ensures { result ≡ turned_at positive.now negative.now k }
{
    if positive.votes == 0 || negative.votes == 0 {
        return false;
    }
    let p = positive.members[k] == 1;
    let q = negative.members[k] == 1;
    match positive.votes.cmp(&negative.votes) {
        Ordering::Greater => q && !p,
        Ordering::Less => p && !q,
        Ordering::Equal => p != q,
    }
}

// The marks of the indices.
fn combined(lattice: &Lattice, positive: &Party, negative: &Party) -> Marks
    ensures { result ≡ column max_points 0 lattice.now.count (λ (k : ℕ). bit (turned_at positive.now negative.now k)) }
{
    view::filled(
        0,
        lattice.count,
        |k| u8::from(turned_at(positive, negative, k)),
    )
}

// The orientation mark of each rank's index.
#[inline(never)]
pub fn lattice_orientation_drops(view: &View) -> Marks
    ensures { result ≡ orientation_of (view_in view.now) }
{
    let vote = votes(view);
    let positive = party_for(view, &vote, Side::Positive);
    let negative = party_for(view, &vote, Side::Negative);
    combined(&view.sheet.lattice, &positive, &negative)
}
