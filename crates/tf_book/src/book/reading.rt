ghost use Rattle.std.specs.Prelude.{◌≡◌, ◌≢◌, ◌<◌, ◌^◌, [], None, Some, true, false, ℕ, length, IsSome, IsTrue, IfOk, IfSome, option_map, is_some};
ghost use Rattle.tf_states.specs.declared.state.FlowState.TheVariants as flow;
ghost use Rattle.tf_hands.specs.Hands.{start_entry, action_in, task_of, end_by};
ghost use Rattle.tf_model.specs.Forced.{choice, end_of, forced as forced_entry};
ghost use Rattle.tf_model.specs.Scope.{order_of};
ghost use Rattle.tf_model.specs.Plan.{is_task, compile_refusal};
ghost use Rattle.tf_model.specs.Steps.{Step, LegalPast, is_still};
ghost use Rattle.tf_actions.specs.Gives.{IsWhole};
ghost use Rattle.tf_bound.specs.Short.{AreShort, IsWithinLimits};
ghost use Rattle.tf_journal.specs.Format.{LeavesBodies};
ghost use Rattle.tf_journal.specs.declared.title.Title.TheVariants.{Book2 as book_title};
ghost use Rattle.tf_details.specs.Elements.{IsHistoryOf, IsContents, past_of};
ghost use Rattle.tf_book.specs.Book.{outline, moment, flow_state, bodies_with};
ghost use Rattle.tf_book.specs.declared.faults.Halt.{Halt as Cause};

use super::Book;
use tf_actions::{Order, Outcome};
use tf_desk::Desk;
use tf_machine::Start;
use tf_states::{Entry, FlowState, What};
use tf_values::Memory;

impl<K: Desk> Book<K> {
    /// The state of the flow.
    pub(super) fn flow(&self) -> FlowState
        ensures { result ≡ flow_state self.now }
    {
        self.machine.flow_state()
    }

    /// The state of the flow. The history is legal and not too long to be counted, and its plan compiles. Unless the
    /// book was halted by the disk, a crash now leaves just what its file holds, where the desk tells its content.
    #[tactic(auto, using(crate::proofs::HistoryLemmas::past_long))]
    pub fn state(&self) -> FlowState
        ensures is { result ≡ flow_state self.now }
        ensures legal { LegalPast (outline self.now) self.now.past }
        ensures few { length self.now.past < 2 ^ 63 }
        ensures compiles { compile_refusal self.now.plan ≡ None }
        ensures history { IsHistoryOf self.now.plan self.now.past }
        ensures limits { IsWithinLimits (outline self.now) }
        ensures short { AreShort self.now.past }
        ensures open { self.now.halt ≢ Some Cause.Disk → self.now.journal.halted ≡ false }
        ensures leaves { IsTrue (K.state self.now.journal.desk).tells → self.now.journal.volatile ≡ false
            → self.now.halt ≢ Some Cause.Disk
            → LeavesBodies book_title (K.state self.now.journal.desk)
            (bodies_with self.now.contents []) }
        ensures held { IsContents self.now.plan self.now.contents }
        ensures told { past_of self.now.contents ≡ self.now.past }
    {
        // What the machine's type keeps is read here: its plan compiles, and keeps its limits.
        let _plan = self.machine.plan();
        self.flow()
    }

    /// The entry that must come next, if one must.
    pub(super) fn forced(&self) -> Result<Option<What>, Memory>
        ensures { IfOk result (λ found. found ≡ forced_entry (outline self.now) (moment self.now)) }
    {
        let found = self.machine.forced(self.alloc)?;
        Ok(found)
    }

    /// The task that a hand takes up next.
    pub(super) fn candidate(&self) -> Option<Start>
        ensures is { option_map start_entry result ≡ choice (outline self.now) (moment self.now) }
        ensures action { IfSome result (λ start. start.action ≡ action_in ((moment self.now).state start.atom)) }
        ensures task { IfSome result (λ start. is_task (outline self.now) start.atom ≡ true) }
        ensures legal { LegalPast (outline self.now) self.now.past }
    {
        self.machine.candidate()
    }

    /// The order to do so with a task.
    pub(super) fn order(&self, start: &Start) -> Result<Order, Memory>
        requires { is_task (outline self.now) start.now.atom ≡ true }
        ensures is { IfOk result (λ order. order_of (outline self.now) (moment self.now) start.now.atom start.now.action
            ≡ Some order) }
        ensures whole { IfOk result (λ order. IsWhole order) }
    {
        let order = self.machine.order(self.alloc, start)?;
        Ok(order)
    }

    /// Whether nothing is in flight.
    pub(super) fn is_still(&self) -> bool
        ensures { result ≡ is_still (outline self.now) (moment self.now) }
    {
        self.machine.is_still()
    }

    /// How the run ends, if it does: always where the flow is RUNNING, nothing is forced, there is no candidate
    /// and nothing is in flight.
    pub(super) fn ended(&self) -> Option<FlowState>
        ensures is { result ≡ end_of (outline self.now) (moment self.now) }
        ensures never_stuck { flow_state self.now ≡ flow.Running
            → forced_entry (outline self.now) (moment self.now) ≡ None
            → choice (outline self.now) (moment self.now) ≡ None → is_still (outline self.now) (moment self.now) ≡ true
            → is_some result ≡ true }
    {
        self.machine.ended()
    }

    /// The entry with which the hand ends the task that it has in flight, with this outcome.
    pub(super) fn end(&self, hand: u8, outcome: Outcome) -> Entry
        requires { IsSome (task_of (outline self.now) (moment self.now) hand) }
        ensures is { (a : ℕ) → task_of (outline self.now) (moment self.now) hand ≡ Some a
            → result ≡ end_by (moment self.now) hand outcome a }
        ensures step { Step (outline self.now) (moment self.now) result }
    {
        self.machine.end(hand, outcome)
    }
}
