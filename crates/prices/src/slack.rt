ghost use Rattle.std.specs.Prelude.{◌≡◌, ◌<◌, ℕ, suc, IsTrue, true};
ghost use Rattle.grid.specs.Squares.{contains};
ghost use Rattle.grid.specs.States.{IsScene};
ghost use Rattle.prices.specs.Helping.{NeverHelps};
ghost use Rattle.prices.specs.Solving.{Allows};

use crate::distances::Distances;
use crate::matching::Matching;
use crate::needs::sum;
use crate::table::{DistanceTable, part};
use grid::{Dir, Level, MAX_BOXES, Position, Square};
use std::marker::Model;

/// How many more pushes are left than the boxes of a position need, by the tolls of a matching. Contracts see the
/// level, the position, and how many pushes are left after the next one; `None` is any number.
#[derive(Drop)]
pub struct Slack<'a> {
    level: &'a Level,
    table: &'a DistanceTable,
    position: &'a Position,
    tolls: [u32; MAX_BOXES],
    left: Option<u32>,
    // what the boxes need with the tolls, and the sum of the tolls
    needs: u64,
    price: u64,
}

impl<'a> Model for Slack<'a> {
    ghost use Rattle.prices.specs.inside.Slacks.{slack_view, IsSlack};
    ghost use Rattle.prices.specs.Helping.{SlackView};

    ghost Value = { SlackView };

    ghost view = { slack_view };

    ghost invariant = { IsSlack };
}

impl<'a> Slack<'a> {
    /// The slack of a position with `left` pushes after the next one, or any number if `left` is `None`. Any matching
    /// will do; that of the position leaves least.
    pub fn of(
        distances: &'a Distances,
        position: &'a Position,
        left: Option<u32>,
        matching: &Matching,
    ) -> Slack<'a>
        requires { IsScene distances.now.level position.now }
        ensures { result ≡ record { board = distances.now.level; scene = position.now; left = left } }
    {
        let table = &distances.table;
        let all_tolls = matching.tolls;
        let tolls = part(&all_tolls, 0, table.goals.len());
        let needs = if tolls.len() == table.goals.len() {
            table.needs(position.boxes(), position.player(), tolls)
        } else {
            0
        };
        let price = sum(tolls);
        Slack {
            level: &distances.level,
            table,
            position,
            tolls: all_tolls,
            left,
            needs,
            price,
        }
    }

    /// Whether the first push of a box costs more than is left: then no play that solves the position with the pushes
    /// that are left begins the box's way with this push. `false` says nothing, and is always the result if any
    /// number is left.
    pub fn never_helps(&self, square: Square, dir: Dir) -> bool
        requires { contains self.now.scene.boxes square ≡ true }
        ensures { IsTrue result → (m : ℕ) → Allows self.now.left m →
            NeverHelps self.now.board (suc m) self.now.scene square dir }
    {
        match self.left {
            None => false,
            Some(left) => self.least(square, dir) > u64::from(left) + 1,
        }
    }

    /// A lower bound on the pushes of a play that solves the position and begins a box's way with this push, with the
    /// push itself. With a matching made afresh for the position it is [`NEVER`](crate::NEVER) or more if the box, or
    /// another one, can come to no goal then.
    #[tactic(auto, using(grid::proofs::lemmas::Steps::inside_grid))]
    pub fn least(&self, square: Square, dir: Dir) -> u64
        requires { contains self.now.scene.boxes square ≡ true }
        ensures { (m : ℕ) → m < result → NeverHelps self.now.board m self.now.scene square dir }
    {
        let tolls = part(&self.tolls, 0, self.table.goals.len());
        if tolls.len() != self.table.goals.len() {
            return 0;
        }
        let ahead = self.level.next(square, dir);
        let before = self.table.need(square, self.position.player(), tolls);
        let after = self.table.need(ahead, square, tolls);
        let needs = self.needs.saturating_add(u64::from(after));
        needs
            .saturating_add(1)
            .saturating_sub(u64::from(before))
            .saturating_sub(self.price)
    }
}
