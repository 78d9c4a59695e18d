//! When pushes along one shortest path after the other take the place of searches.

ghost use Rattle.std.specs.Prelude.{◌≡◌};

use crate::search::Search;
use relaxation::Proposal;

/// Where searches of a solve looked at all ends so many times, pushes along one shortest path after the other are tried.
const MANY_SWEEPS: u64 = 100;

/// With fewer looks than these a solve takes no time worth saving.
const FEWEST_LOOKS: u64 = 1_000_000;

/// So many looks at all ends tell how quick searches are, and such pushes from either side.
const SWEEPS_A_TRY: u64 = 2;

/// A look takes such pushes so many times as long as a search: they look at nodes here and there, one by one. Where they were to
/// bring as much into balance a look as searches, rotations of vehicles took a quarter more instructions, with this 1.007.
const DEARER: u64 = 3;

/// When pushes along one shortest path after the other are tried.
#[derive(Clone, Copy)]
pub(crate) struct Trial {
    /// After so many looks; 0 where that is not told yet.
    from: u64,
    /// How it stood then, while it is told how quick searches are.
    begun: Option<Stand>,
}

impl Trial {
    /// It is not told yet.
    pub(crate) const NONE: Trial = Trial {
        from: 0,
        begun: None,
    };
}

/// How much is out of balance after so many looks.
#[derive(Clone, Copy)]
struct Stand {
    unbalanced: u64,
    looks: u64,
}

/// How much came into balance by so many looks.
#[derive(Clone, Copy)]
struct Gain {
    amount: u64,
    looks: u64,
}

impl Gain {
    /// Whether something came into balance, and by a look as much or more.
    fn is_as_quick_as(&self, other: Gain) -> bool {
        self.amount > 0
            && u128::from(self.amount) * u128::from(other.looks)
                >= u128::from(other.amount) * u128::from(self.looks)
    }

    /// The same where each look is so many times as dear.
    fn by_dearer_looks(&self, times: u64) -> Gain {
        Gain {
            amount: self.amount,
            looks: self.looks.saturating_mul(times),
        }
    }
}

impl Search {
    /// Where searches looked at much, tries pushes along one shortest path after the other from either side for a few looks. Where
    /// these are as quick as searches were of late, as many looks as there were so far go to them, from the side from which that
    /// is quicker. The next try is after as many looks again.
    pub fn push_where_slow(&mut self, proposal: &mut Proposal)
        requires { proposal.old ≡ self.old }
        ensures kept { self.new ≡ self.old }
        ensures proposal { proposal.new ≡ proposal.old }
    {
        let ends = proposal.ends().count() as u64;
        if self.trial.from == 0 {
            self.trial.from = ends.saturating_mul(MANY_SWEEPS).max(FEWEST_LOOKS);
        }
        if self.looks < self.trial.from {
            return;
        }
        let Some(begun) = self.trial.begun else {
            self.trial.begun = Some(self.stand(proposal));
            return;
        };
        let some = ends.saturating_mul(SWEEPS_A_TRY);
        if self.looks.saturating_sub(begun.looks) < some {
            return;
        }
        let searches = self.gain_since(proposal, begun);
        let ahead = self.push_for::<true>(proposal, some);
        let behind = self.push_for::<false>(proposal, some);
        let so_far = self.looks;
        if ahead.is_as_quick_as(searches) && ahead.is_as_quick_as(behind) {
            self.push_in_turn::<true>(proposal, so_far);
        } else if behind.is_as_quick_as(searches) {
            self.push_in_turn::<false>(proposal, so_far);
        }
        self.trial = Trial {
            from: self.looks.saturating_add(so_far),
            begun: None,
        };
    }

    /// How it stands now.
    fn stand(&self, proposal: &Proposal) -> Stand {
        Stand {
            unbalanced: proposal.unbalanced(),
            looks: self.looks,
        }
    }

    /// What was gained since it stood so.
    fn gain_since(&self, proposal: &Proposal, begun: Stand) -> Gain {
        Gain {
            amount: begun.unbalanced.saturating_sub(proposal.unbalanced()),
            looks: self.looks.saturating_sub(begun.looks),
        }
    }

    /// Pushes in turn for so many looks, and gives what was gained, by as many looks as searches make in that time.
    fn push_for<const AHEAD: bool>(&mut self, proposal: &mut Proposal, looks: u64) -> Gain
        requires { proposal.old ≡ self.old }
        ensures kept { self.new ≡ self.old }
        ensures proposal { proposal.new ≡ proposal.old }
    {
        let begun = self.stand(proposal);
        self.push_in_turn::<AHEAD>(proposal, looks);
        self.gain_since(proposal, begun).by_dearer_looks(DEARER)
    }
}
