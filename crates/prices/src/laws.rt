//! Laws of plays with few pushes that callers may rely on. Each is the contract of a function that does nothing: call
//! it in a proof to use the law.
ghost use Rattle.prices.specs.Solving.{FirstPushLeads, NoneIsNotSolvable, NormsChangeNothing, WalksChangeNothing};
ghost use Rattle.prices.specs.Prices.{NeedsHold, NeedsRefuse, TollsAreFree};
ghost use Rattle.prices.specs.Helping.{CostsTell, NeverLeadsOn};

use grid::Level;

/// The laws of states that a play with at most m pushes solves: an unsolved one has a first push, after which m - 1
/// pushes are enough; walking changes nothing; and a state is either such a state or not.
pub fn a_first_push_leads_on(level: &Level)
    ensures first { FirstPushLeads level.now }
    ensures walks { WalksChangeNothing level.now }
    ensures norms { NormsChangeNothing level.now }
    ensures none { NoneIsNotSolvable level.now }
{}

/// The laws of needs: no play that ends solved has fewer pushes than the boxes need above the tolls of the goals; and
/// for any tolls, the least sum of distance and toll is a need.
#[tactic(auto, using(crate::proofs::lemmas::Prices::bounds))]
pub fn needs_are_bounds(level: &Level)
    ensures hold { NeedsHold level.now }
    ensures refuse { NeedsRefuse level.now }
    ensures tolls { TollsAreFree level.now }
{}

/// Two laws: a push that costs more than is left never helps; and after a push that never helps, no play solves the
/// level with the pushes that are left.
pub fn costs_tell_what_never_helps(level: &Level)
    ensures costs { CostsTell level.now }
    ensures leads { NeverLeadsOn level.now }
{}
