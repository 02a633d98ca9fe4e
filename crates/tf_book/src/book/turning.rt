ghost use Rattle.std.specs.Prelude.{◌≡◌, ◌⊎◌, ◌<◌, ◌≤◌, ◌-◌, None, Some, Ok, true, false, length, IsSome, IfOk, IfErr, OnOk, OnErr, IsErrOf};
ghost use Rattle.tf_states.specs.declared.state.FlowState.TheVariants as flow;
ghost use Rattle.tf_hands.specs.Hands.{start_entry, action_in, task_of, by_hand};
ghost use Rattle.tf_model.specs.Forced.{choice, end_of, forced as forced_entry};
ghost use Rattle.tf_model.specs.Plan.{is_task};
ghost use Rattle.tf_model.specs.Steps.{is_free, is_still};
ghost use Rattle.tf_states.specs.declared.record.What.TheVariants.{Flow as flow_turns};
ghost use Rattle.tf_book.specs.Book.{BookValue, outline, moment, flow_state};
ghost use Rattle.tf_book.specs.Faults.{IsFault};
ghost use Rattle.tf_book.specs.SessionInvariant.{SessionInvariant, Proceeds, TakesTurn};
ghost use Rattle.tf_book.specs.Recording.{halt_for_memory, halt_after, past_after};
ghost use Rattle.tf_book.specs.Turns.{is_to_stop, IsAnswered, HasTried, HasTriedToEnd, RanOn, RanUntilStop, IsForcedBy, IsForcedOn, IsStartedSo, IsStartOf, HasRested, IsClosedOr, HasStopped, IsStoppedOr, IsFinished, IsLessAfterStart, IsTurn, IsHaltedTurn, IsTurnAsked, IsHaltedTurnAsked, is_entered, end_now, suspending_after};
ghost use Rattle.tf_book.specs.declared.faults.Halt.{Halt as Cause};

use super::Book;
use crate::faults::{BookFault, Halt};
use crate::log::ask;
use crate::turn::Turn;
use tf_actions::Outcome;
use tf_desk::Desk;
use tf_machine::Start;
use tf_states::{Entry, FlowState, What};

impl<K: Desk> Book<K> {
    /// Halts a book that isn't halted, for want of memory.
    pub fn halt_for_memory(&mut self)
        ensures keeps { (start : BookValue K) → SessionInvariant K.state start self.old
            → SessionInvariant K.state start self.new }
        ensures same { self.new ≡ record self.old { halt = halt_for_memory self.old.halt } }
    {
        if self.halt.is_none() {
            self.halt = Some(Halt::Memory);
        }
    }

    /// Logs what is forced, if something is, and answers whether it was.
    fn force_once(&mut self, hand: u8) -> Result<bool, Halt>
        requires sound { self.old.halt ≡ None }
        requires hand { hand < 64 }
        requires running { flow_state self.old ≡ flow.Running }
        ensures proceeds { Proceeds K.state self.old self.new }
        ensures forced { result ≡ Ok true → IsForcedBy (outline self.old) hand self.old.past self.new.past }
        ensures nothing { result ≡ Ok false
            → (self.new.past ≡ self.old.past) × (forced_entry (outline self.old) (moment self.old) ≡ None) }
        ensures cut { OnErr result (IsForcedBy (outline self.old) hand self.old.past self.new.past
            ⊎ (self.new.past ≡ self.old.past)) }
        ensures running { OnOk result (flow_state self.new ≡ flow.Running) }
        ensures tried { OnErr result (HasTried hand self.new) }
        ensures halt { self.new.halt ≡ halt_after result }
        ensures no_more { 67108864 - self.new.journal.size ≤ 67108864 - self.old.journal.size }
        ensures less { result ≡ Ok true → 67108864 - self.new.journal.size < 67108864 - self.old.journal.size }
    {
        let Ok(forced) = self.forced() else {
            self.halt_for_memory();
            return Err(Halt::Memory);
        };
        let Some(what) = forced else {
            return Ok(false);
        };
        self.record(Entry { hand, what })?;
        Ok(true)
    }

    /// Whether the session is to stop: a stop was asked for, or its limit is reached.
    fn is_to_stop(&self, asked: bool) -> bool
        ensures { result ≡ is_to_stop asked self.now.limit (length self.now.past) }
    {
        if asked {
            return true;
        }
        match self.limit {
            Some(limit) => limit <= self.count(),
            None => false,
        }
    }

    /// Logs what is forced, one entry after another, until nothing is or the session is to stop, and answers
    /// whether it is.
    fn force(&mut self, hand: u8, asked: bool) -> Result<bool, Halt>
        requires sound { self.old.halt ≡ None }
        requires hand { hand < 64 }
        requires running { flow_state self.old ≡ flow.Running }
        ensures proceeds { Proceeds K.state self.old self.new }
        ensures ran { result ≡ Ok false
            → RanOn (outline self.old) hand asked self.old.limit self.old.past self.new.past }
        ensures stops { result ≡ Ok true
            → RanUntilStop (outline self.old) hand asked self.old.limit self.old.past self.new.past }
        ensures cut { OnErr result
            (IsForcedOn (outline self.old) hand asked self.old.limit self.old.past self.new.past) }
        ensures sound { OnOk result (self.new.halt ≡ None) }
        ensures tried { OnErr result (HasTried hand self.new) }
        ensures halt { IfErr result (λ halt. self.new.halt ≡ Some halt) }
        ensures no_more { 67108864 - self.new.journal.size ≤ 67108864 - self.old.journal.size }
    {
        'forcing: loop {
            if self.is_to_stop(asked) {
                return Ok(true);
            }
            if !self.force_once(hand)? {
                return Ok(false);
            }
        }
    }

    /// Takes the first candidate up, after its order was made.
    fn take_up(&mut self, hand: u8, start: Start) -> Result<Turn, Halt>
        requires sound { self.old.halt ≡ None }
        requires hand { hand < 64 }
        requires free { is_free (outline self.old) (moment self.old) hand ≡ true }
        requires chosen { choice (outline self.old) (moment self.old) ≡ Some (start_entry start) }
        requires action { start.action ≡ action_in ((moment self.old).state start.atom) }
        requires task { is_task (outline self.old) start.atom ≡ true }
        ensures proceeds { Proceeds K.state self.old self.new }
        ensures started { IfOk result (IsStartOf (outline self.old) hand self.old.past self.new.past start) }
        ensures cut { OnErr result (IsStartedSo (outline self.old) hand self.old.past self.new.past start
            ⊎ (self.new.past ≡ self.old.past)) }
        ensures tried { OnErr result (HasTried hand self.new) }
        ensures halt { self.new.halt ≡ halt_after result }
        ensures less { OnOk result (67108864 - self.new.journal.size < 67108864 - self.old.journal.size) }
    {
        let Ok(order) = self.order(&start) else {
            self.halt_for_memory();
            return Err(Halt::Memory);
        };
        let what = start.what();
        self.record(Entry { hand, what })?;
        Ok(Turn::Start(order))
    }

    /// Logs a last entry of the flow.
    #[tactic(auto, using(crate::proofs::ForceLemmas::last_step))]
    fn close_session(&mut self, hand: u8, state: FlowState) -> Result<(), Halt>
        requires sound { self.old.halt ≡ None }
        requires hand { hand < 64 }
        requires still { is_still (outline self.old) (moment self.old) ≡ true }
        requires ends { (end_of (outline self.old) (moment self.old) ≡ Some state)
            ⊎ ((end_of (outline self.old) (moment self.old) ≡ None) × (flow_state self.old ≡ flow.Suspending)
            × (state ≡ flow.Suspended)) }
        ensures proceeds { Proceeds K.state self.old self.new }
        ensures past { self.new.past ≡ past_after (by_hand hand (flow_turns state)) self.old.past result }
        ensures tried { OnErr result (HasTried hand self.new) }
        ensures halt { self.new.halt ≡ halt_after result }
    {
        self.record(Entry {
            hand,
            what: What::Flow(state),
        })
    }

    /// What comes in RUNNING where nothing is forced and there is no candidate: the hand waits while a task is in
    /// flight, and else the run ends.
    fn rest(&mut self, hand: u8) -> Result<Turn, Halt>
        requires sound { self.old.halt ≡ None }
        requires hand { hand < 64 }
        requires running { flow_state self.old ≡ flow.Running }
        requires unforced { forced_entry (outline self.old) (moment self.old) ≡ None }
        requires unchosen { choice (outline self.old) (moment self.old) ≡ None }
        ensures proceeds { Proceeds K.state self.old self.new }
        ensures rested { IfOk result (HasRested (outline self.old) hand self.old.past self.new.past) }
        ensures cut { OnErr result (IsClosedOr (outline self.old) hand self.old.past self.new.past) }
        ensures sound { OnOk result (self.new.halt ≡ None) }
        ensures tried { OnErr result (HasTried hand self.new) }
        ensures halt { IfErr result (λ halt. self.new.halt ≡ Some halt) }
    {
        if !self.is_still() {
            return Ok(Turn::Idle);
        }
        let Some(state) = self.ended() else {
            unreachable!();
        };
        self.close_session(hand, state)?;
        Ok(Turn::Ended(state))
    }

    /// What comes in SUSPENDING: the hand waits while a task is in flight; else the run ends, if it does, or is
    /// suspended.
    fn wind_up(&mut self, hand: u8) -> Result<Turn, Halt>
        requires sound { self.old.halt ≡ None }
        requires hand { hand < 64 }
        requires suspending { flow_state self.old ≡ flow.Suspending }
        ensures proceeds { Proceeds K.state self.old self.new }
        ensures rested { IfOk result (HasRested (outline self.old) hand self.old.past self.new.past) }
        ensures cut { OnErr result (IsClosedOr (outline self.old) hand self.old.past self.new.past) }
        ensures sound { OnOk result (self.new.halt ≡ None) }
        ensures tried { OnErr result (HasTried hand self.new) }
        ensures halt { IfErr result (λ halt. self.new.halt ≡ Some halt) }
    {
        if !self.is_still() {
            return Ok(Turn::Idle);
        }
        let Some(state) = self.ended() else {
            self.close_session(hand, FlowState::Suspended)?;
            return Ok(Turn::Suspended);
        };
        self.close_session(hand, state)?;
        Ok(Turn::Ended(state))
    }

    /// Logs SUSPENDING, and then what comes in it.
    fn suspend(&mut self, hand: u8) -> Result<Turn, Halt>
        requires sound { self.old.halt ≡ None }
        requires hand { hand < 64 }
        requires running { flow_state self.old ≡ flow.Running }
        ensures proceeds { Proceeds K.state self.old self.new }
        ensures rested { IfOk result
            (HasRested (outline self.old) hand (suspending_after hand self.old.past) self.new.past) }
        ensures cut { OnErr result
            (IsClosedOr (outline self.old) hand (suspending_after hand self.old.past) self.new.past
            ⊎ (self.new.past ≡ self.old.past)) }
        ensures sound { OnOk result (self.new.halt ≡ None) }
        ensures tried { OnErr result (HasTried hand self.new) }
        ensures halt { IfErr result (λ halt. self.new.halt ≡ Some halt) }
    {
        self.turn_to(hand, FlowState::Suspending)?;
        self.wind_up(hand)
    }

    /// The end that may be recorded: there is none while a task is in flight.
    fn end_now(&self) -> Option<FlowState>
        ensures { result ≡ end_now (outline self.now) (moment self.now) }
    {
        if !self.is_still() {
            return None;
        }
        self.ended()
    }

    /// What comes in RUNNING where the session is to stop: the end, where it may be recorded, or else SUSPENDING and
    /// what comes in it.
    fn stop(&mut self, hand: u8) -> Result<Turn, Halt>
        requires sound { self.old.halt ≡ None }
        requires hand { hand < 64 }
        requires running { flow_state self.old ≡ flow.Running }
        ensures proceeds { Proceeds K.state self.old self.new }
        ensures stopped { IfOk result (HasStopped (outline self.old) hand self.old.past self.new.past) }
        ensures cut { OnErr result (IsStoppedOr (outline self.old) hand self.old.past self.new.past) }
        ensures sound { OnOk result (self.new.halt ≡ None) }
        ensures tried { OnErr result (HasTried hand self.new) }
        ensures halt { IfErr result (λ halt. self.new.halt ≡ Some halt) }
    {
        let Some(state) = self.end_now() else {
            return self.suspend(hand);
        };
        self.close_session(hand, state)?;
        Ok(Turn::Ended(state))
    }

    /// A turn in RUNNING: what is forced is recorded, and then the first candidate is taken up, if there is one; unless
    /// the session is to stop before.
    fn run_on(&mut self, hand: u8, asked: bool) -> Result<Turn, Halt>
        requires sound { self.old.halt ≡ None }
        requires hand { hand < 64 }
        requires free { is_free (outline self.old) (moment self.old) hand ≡ true }
        requires running { flow_state self.old ≡ flow.Running }
        ensures proceeds { Proceeds K.state self.old self.new }
        ensures turn { IfOk result (IsTurn (outline self.old) hand asked self.old.limit self.old.past self.new.past) }
        ensures cut { OnErr result
            (IsHaltedTurn (outline self.old) hand asked self.old.limit self.old.past self.new.past) }
        ensures sound { OnOk result (self.new.halt ≡ None) }
        ensures tried { OnErr result (HasTried hand self.new) }
        ensures halt { IfErr result (λ halt. self.new.halt ≡ Some halt) }
        ensures less { IfOk result (IsLessAfterStart self.old.journal.size self.new.journal.size) }
    {
        if self.force(hand, asked)? {
            return self.stop(hand);
        }
        match self.candidate() {
            Some(start) => self.take_up(hand, start),
            None => self.rest(hand),
        }
    }

    /// A turn of a hand, by the state of the flow.
    fn turn(&mut self, hand: u8, asked: bool) -> Result<Turn, Halt>
        requires sound { self.old.halt ≡ None }
        requires hand { hand < 64 }
        requires free { is_free (outline self.old) (moment self.old) hand ≡ true }
        requires entered { is_entered (flow_state self.old) ≡ true }
        ensures proceeds { Proceeds K.state self.old self.new }
        ensures turn { IfOk result (IsTurn (outline self.old) hand asked self.old.limit self.old.past self.new.past) }
        ensures cut { OnErr result
            (IsHaltedTurn (outline self.old) hand asked self.old.limit self.old.past self.new.past) }
        ensures sound { OnOk result (self.new.halt ≡ None) }
        ensures tried { OnErr result (HasTried hand self.new) }
        ensures halt { IfErr result (λ halt. self.new.halt ≡ Some halt) }
        ensures less { IfOk result (IsLessAfterStart self.old.journal.size self.new.journal.size) }
    {
        let state = self.flow();
        match state {
            FlowState::Running => self.run_on(hand, asked),
            FlowState::Suspending => self.wind_up(hand),
            FlowState::Suspended => Ok(Turn::Suspended),
            FlowState::Success | FlowState::Failure | FlowState::Reverted => Ok(Turn::Ended(state)),
            FlowState::Pending | FlowState::Resuming => unreachable!(),
        }
    }

    /// Asks the desk in RUNNING whether a stop is asked for. In another state of the flow it isn't asked.
    fn ask(&mut self) -> bool
        requires sound { self.old.halt ≡ None }
        ensures takes { TakesTurn K.state self.old self.new }
        ensures same { self.new ≡ record self.old {
          journal = record self.old.journal { desk = self.new.journal.desk };
        } }
        ensures answered { IsAnswered result (K.state self.old.journal.desk).asks (K.state self.new.journal.desk).asks }
    {
        if !matches!(self.flow(), FlowState::Running) {
            return false;
        }
        ask(&mut self.journal)
    }

    /// The next turn of a hand that has nothing in flight, in a session that was entered. In RUNNING the desk is asked
    /// once whether a stop is asked for. Then, while the session isn't to stop, what is forced is recorded, entry by
    /// entry; then the first candidate is taken up, and its order is the answer; where there is none the hand waits
    /// while a task is in flight, and else the end is recorded. Where a stop was asked for or the limit is reached, the
    /// end is recorded, if it may be, and else SUSPENDING. In SUSPENDING the hand waits while a task is in flight, and
    /// else the end or the suspension is recorded. A flow that has stopped gives its state again, and nothing is
    /// recorded. An order is made before its start is recorded.
    pub fn next(&mut self, hand: u8) -> Result<Turn, BookFault>
        requires hand { hand < 64 }
        requires free { is_free (outline self.old) (moment self.old) hand ≡ true }
        requires entered { is_entered (flow_state self.old) ≡ true }
        ensures takes { TakesTurn K.state self.old self.new }
        ensures turn { IfOk result (IsTurnAsked (outline self.old) hand self.old.limit
            (K.state self.old.journal.desk).asks (K.state self.new.journal.desk).asks self.old.past self.new.past) }
        ensures cut { OnErr result (IsHaltedTurnAsked (outline self.old) hand self.old.limit
            (K.state self.old.journal.desk).asks (K.state self.new.journal.desk).asks self.old.past self.new.past) }
        ensures tried { OnErr result (self.old.halt ≡ None → HasTried hand self.new) }
        ensures sound { OnOk result (self.new.halt ≡ None) }
        ensures fault { IfErr result (IsFault self.old.halt self.new.halt) }
        ensures halted { (cause : Cause) → self.old.halt ≡ Some cause → self.new ≡ self.old }
        ensures less { IfOk result (IsLessAfterStart self.old.journal.size self.new.journal.size) }
    {
        if let Some(cause) = self.halt {
            return Err(BookFault::Halted(cause));
        }
        let asked = self.ask();
        match self.turn(hand, asked) {
            Ok(turn) => Ok(turn),
            Err(halt) => Err(BookFault::from(halt)),
        }
    }

    /// Logs the end of the task that the hand has in flight, with its outcome.
    pub fn finish(&mut self, hand: u8, outcome: Outcome) -> Result<(), BookFault>
        requires hand { hand < 64 }
        requires task { IsSome (task_of (outline self.old) (moment self.old) hand) }
        ensures proceeds { Proceeds K.state self.old self.new }
        ensures finished { OnOk result (IsFinished (outline self.old) hand outcome self.old.past self.new.past) }
        ensures cut { OnErr result (IsFinished (outline self.old) hand outcome self.old.past self.new.past
            ⊎ (self.new.past ≡ self.old.past)) }
        ensures no_memory { IsErrOf result BookFault.Memory → ⊥ }
        ensures tried { OnErr result (self.old.halt ≡ None → HasTriedToEnd hand outcome self.old self.new) }
        ensures sound { OnOk result (self.new.halt ≡ None) }
        ensures fault { IfErr result (IsFault self.old.halt self.new.halt) }
        ensures halted { (cause : Cause) → self.old.halt ≡ Some cause → self.new ≡ self.old }
        ensures no_more { 67108864 - self.new.journal.size ≤ 67108864 - self.old.journal.size }
    {
        if let Some(cause) = self.halt {
            drop(outcome);
            return Err(BookFault::Halted(cause));
        }
        let entry = self.end(hand, outcome);
        match self.record(entry) {
            Ok(()) => Ok(()),
            Err(halt) => Err(BookFault::from(halt)),
        }
    }
}
