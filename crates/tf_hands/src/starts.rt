ghost use Rattle.std.specs.Prelude.{◌≡◌};
ghost use Rattle.tf_hands.specs.Hands.{start_entry};

use tf_actions::Action;
use tf_states::{AtomState, Payload, What};

/// A task that a hand may take up: what is done with it, and whether this was begun before and is
/// taken up again.
#[derive(Clone, Copy, Debug, PartialEq, Eq)]
pub struct Start {
    pub atom: u16,
    pub action: Action,
    pub restart: bool,
}

impl Start {
    /// The entry with which the task is taken up.
    pub fn what(&self) -> What
        ensures { result ≡ start_entry self.now }
    {
        if self.restart {
            return What::Restart(self.atom);
        }
        let state = match self.action {
            Action::Execute => AtomState::Running,
            Action::Revert => AtomState::Reverting,
        };
        What::Atom {
            atom: self.atom,
            state,
            payload: Payload::Empty,
        }
    }
}
