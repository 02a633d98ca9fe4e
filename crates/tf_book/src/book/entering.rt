ghost use Rattle.std.specs.Prelude.{◌≡◌, ◌<◌, None, Some, true, length, IfOk, IfErr, OnOk, OnErr};
ghost use Rattle.tf_book.specs.declared.faults.Halt.{Halt as Cause};
ghost use Rattle.tf_states.specs.declared.record.What.TheVariants.{Flow as flow_turns};
ghost use Rattle.tf_states.specs.declared.state.FlowState.TheVariants as flow;
ghost use Rattle.tf_hands.specs.Hands.{by_hand};
ghost use Rattle.tf_model.specs.Steps.{may_turn};
ghost use Rattle.tf_desk.specs.State.{IsUnasked};
ghost use Rattle.tf_book.specs.Book.{BookValue, flow_state};
ghost use Rattle.tf_book.specs.Faults.{IsFault};
ghost use Rattle.tf_book.specs.SessionInvariant.{SessionInvariant, Proceeds};
ghost use Rattle.tf_book.specs.Recording.{halt_after, failed_after, past_after, contents_after};
ghost use Rattle.tf_book.specs.Turns.{limit_from, HasTried, IsEntering, IsEntered};

use super::Book;
use crate::faults::{BookFault, Halt};
use crate::turn::Entered;
use tf_desk::Desk;
use tf_states::{Entry, FlowState, What};

impl<K: Desk> Book<K> {
    /// Logs that the flow turns to a state.
    #[tactic(auto, using(crate::proofs::TurnLemmas::turn_step))]
    pub(super) fn turn_to(&mut self, hand: u8, state: FlowState) -> Result<(), Halt>
        requires sound { self.old.halt ≡ None }
        requires hand { hand < 64 }
        requires allowed { may_turn (flow_state self.old) state ≡ true }
        ensures proceeds { Proceeds K.state self.old self.new }
        ensures same { self.new ≡ record self.old {
          past = past_after (by_hand hand (flow_turns state)) self.old.past result;
          contents = contents_after (by_hand hand (flow_turns state)) self.old.contents result;
          journal = self.new.journal;
          halt = halt_after result;
          failed = failed_after (by_hand hand (flow_turns state)) self.old.failed result;
        } }
    {
        self.record(Entry {
            hand,
            what: What::Flow(state),
        })
    }

    /// Logs that the flow runs, from PENDING or SUSPENDED.
    fn run(&mut self, hand: u8) -> Result<(), Halt>
        requires sound { self.old.halt ≡ None }
        requires hand { hand < 64 }
        requires from { may_turn (flow_state self.old) flow.Running ≡ true }
        ensures proceeds { Proceeds K.state self.old self.new }
        ensures entered { OnOk result (IsEntered hand self.old.past self.new.past Entered.Running) }
        ensures cut { OnErr result (IsEntering hand self.old.past self.new.past) }
        ensures tried { OnErr result (HasTried hand self.new) }
        ensures halt { self.new.halt ≡ halt_after result }
    {
        self.turn_to(hand, FlowState::Running)
    }

    /// Logs that the flow is suspended, from RESUMING, and runs.
    fn suspend_and_run(&mut self, hand: u8) -> Result<(), Halt>
        requires sound { self.old.halt ≡ None }
        requires hand { hand < 64 }
        requires from { flow_state self.old ≡ flow.Resuming }
        ensures proceeds { Proceeds K.state self.old self.new }
        ensures entered { OnOk result (IsEntered hand self.old.past self.new.past Entered.Running) }
        ensures cut { OnErr result (IsEntering hand self.old.past self.new.past) }
        ensures tried { OnErr result (HasTried hand self.new) }
        ensures halt { self.new.halt ≡ halt_after result }
    {
        self.turn_to(hand, FlowState::Suspended)?;
        self.turn_to(hand, FlowState::Running)
    }

    /// Logs that a run that was interrupted, in RUNNING or SUSPENDING, is resumed and suspended, and runs.
    fn resume_and_run(&mut self, hand: u8) -> Result<(), Halt>
        requires sound { self.old.halt ≡ None }
        requires hand { hand < 64 }
        requires from { may_turn (flow_state self.old) flow.Resuming ≡ true }
        ensures proceeds { Proceeds K.state self.old self.new }
        ensures entered { OnOk result (IsEntered hand self.old.past self.new.past Entered.Running) }
        ensures cut { OnErr result (IsEntering hand self.old.past self.new.past) }
        ensures tried { OnErr result (HasTried hand self.new) }
        ensures halt { self.new.halt ≡ halt_after result }
    {
        self.turn_to(hand, FlowState::Resuming)?;
        self.turn_to(hand, FlowState::Suspended)?;
        self.turn_to(hand, FlowState::Running)
    }

    /// Logs what a session enters with.
    fn begin(&mut self, hand: u8) -> Result<Entered, Halt>
        requires sound { self.old.halt ≡ None }
        requires hand { hand < 64 }
        ensures proceeds { Proceeds K.state self.old self.new }
        ensures entered { IfOk result (IsEntered hand self.old.past self.new.past) }
        ensures cut { OnErr result (IsEntering hand self.old.past self.new.past) }
        ensures sound { OnOk result (self.new.halt ≡ None) }
        ensures tried { OnErr result (HasTried hand self.new) }
        ensures halt { IfErr result (λ halt. self.new.halt ≡ Some halt) }
    {
        let state = self.flow();
        match state {
            FlowState::Pending | FlowState::Suspended => {
                self.run(hand)?;
                Ok(Entered::Running)
            }
            FlowState::Resuming => {
                self.suspend_and_run(hand)?;
                Ok(Entered::Running)
            }
            FlowState::Running | FlowState::Suspending => {
                self.resume_and_run(hand)?;
                Ok(Entered::Running)
            }
            FlowState::Success | FlowState::Failure | FlowState::Reverted => {
                Ok(Entered::Ended(state))
            }
        }
    }

    /// Keeps where the session is to be suspended, which begins now and may record so many entries before.
    fn keep_limit(&mut self, limit: Option<u32>)
        requires sound { self.old.halt ≡ None }
        ensures keeps { (start : BookValue K) → SessionInvariant K.state start self.old
            → SessionInvariant K.state start self.new }
        ensures same { self.new ≡ record self.old { limit = limit_from limit (length self.old.past) } }
    {
        match limit {
            Some(limit) => self.limit = Some(self.count() + limit as u64),
            None => self.limit = None,
        }
    }

    /// Enters a session by that hand: from PENDING and SUSPENDED the flow runs; a run that was interrupted is
    /// resumed and suspended before; and of a flow that has ended nothing is recorded. The session is to be
    /// suspended once it recorded so many entries as the limit says, those recorded here included.
    pub fn enter(&mut self, hand: u8, limit: Option<u32>) -> Result<Entered, BookFault>
        requires { hand < 64 }
        ensures plan { self.new.plan ≡ self.old.plan }
        ensures keeps { (start : BookValue K) → SessionInvariant K.state start self.old
            → SessionInvariant K.state start self.new }
        ensures limit { self.old.halt ≡ None → self.new.limit ≡ limit_from limit (length self.old.past) }
        ensures unasked { IsUnasked (K.state self.old.journal.desk) (K.state self.new.journal.desk) }
        ensures entered { IfOk result (IsEntered hand self.old.past self.new.past) }
        ensures cut { OnErr result (IsEntering hand self.old.past self.new.past) }
        ensures tried { OnErr result (self.old.halt ≡ None → HasTried hand self.new) }
        ensures sound { OnOk result (self.new.halt ≡ None) }
        ensures fault { IfErr result (IsFault self.old.halt self.new.halt) }
        ensures halted { (cause : Cause) → self.old.halt ≡ Some cause → self.new ≡ self.old }
    {
        if let Some(cause) = self.halt {
            return Err(BookFault::Halted(cause));
        }
        self.keep_limit(limit);
        match self.begin(hand) {
            Ok(entered) => Ok(entered),
            Err(halt) => Err(BookFault::from(halt)),
        }
    }
}
