ghost use Rattle.std.specs.Prelude.{◌≡◌, ◌⊎◌, ◌<◌, ◌-◌, None, Some, Ok, Err, true, false, OnOk, OnErr, IfErr};
ghost use Rattle.tf_states.specs.declared.state.FlowState.{FlowState as State};
ghost use Rattle.tf_states.specs.declared.state.FlowState.TheVariants as flow;
ghost use Rattle.tf_model.specs.Plan.{count};
ghost use Rattle.tf_model.specs.Steps.{is_put_back_at, put_back_or_rest, reset as reset_of};
ghost use Rattle.tf_numbers.specs.Numbers.{first_below};
ghost use Rattle.tf_book.specs.Book.{outline, moment, flow_state};
ghost use Rattle.tf_book.specs.Faults.{IsFault};
ghost use Rattle.tf_book.specs.SessionInvariant.{Proceeds};
ghost use Rattle.tf_book.specs.Turns.{HasTriedToReset, may_reset as may, IsPutBackBy, IsPutBackOn, IsPutBack};
ghost use Rattle.tf_book.specs.declared.faults.BookFault.{BookFault as Fault};
ghost use Rattle.tf_book.specs.declared.faults.Halt.{Halt as Cause};

use super::Book;
use crate::faults::{BookFault, Halt, ResetFault};
use crate::putting_back::{is_of_flow, may_reset, reset_event};
use tf_desk::Desk;
use tf_states::{Entry, What};

impl<K: Desk> Book<K> {
    /// Whether the flow may be put back: it is REVERTED, and every atom is settled.
    fn may_reset(&self) -> bool
        ensures { result ≡ may (outline self.now) (moment self.now) }
    {
        may_reset(&self.machine)
    }

    /// What is recorded next to put the flow back.
    fn reset_event(&self) -> What
        requires { may (outline self.now) (moment self.now) ≡ true }
        ensures is { result
            ≡ put_back_or_rest (first_below (count (outline self.now)) (is_put_back_at (moment self.now))) }
        ensures reset { reset_of (outline self.now) (moment self.now) ≡ Some result }
    {
        reset_event(&self.machine)
    }

    /// Logs what puts the flow back next, and answers whether something is left to put back.
    #[tactic(auto, using(crate::proofs::ResetLemmas::reset_step))]
    fn put_back_once(&mut self) -> Result<bool, Halt>
        requires sound { self.old.halt ≡ None }
        requires may { may (outline self.old) (moment self.old) ≡ true }
        ensures proceeds { Proceeds K.state self.old self.new }
        ensures put { OnOk result (IsPutBackBy (outline self.old) self.old.past self.new.past) }
        ensures more { result ≡ Ok true → may (outline self.new) (moment self.new) ≡ true }
        ensures done { result ≡ Ok false → flow_state self.new ≡ flow.Pending }
        ensures cut { OnErr result (IsPutBackBy (outline self.old) self.old.past self.new.past
            ⊎ (self.new.past ≡ self.old.past)) }
        ensures sound { OnOk result (self.new.halt ≡ None) }
        ensures tried { OnErr result (HasTriedToReset self.new) }
        ensures halt { IfErr result (λ halt. self.new.halt ≡ Some halt) }
        ensures less { OnOk result (67108864 - self.new.journal.size < 67108864 - self.old.journal.size) }
    {
        let what = self.reset_event();
        let last = is_of_flow(&what);
        self.record(Entry { hand: 0, what })?;
        if last {
            return Ok(false);
        }
        Ok(true)
    }

    /// Logs all that puts the flow back.
    fn put_back(&mut self) -> Result<(), Halt>
        requires sound { self.old.halt ≡ None }
        requires may { may (outline self.old) (moment self.old) ≡ true }
        ensures proceeds { Proceeds K.state self.old self.new }
        ensures put_back { OnOk result (IsPutBack (outline self.old) self.old.past self.new.past) }
        ensures cut { OnErr result (IsPutBackOn (outline self.old) self.old.past self.new.past) }
        ensures sound { OnOk result (self.new.halt ≡ None) }
        ensures tried { OnErr result (HasTriedToReset self.new) }
        ensures halt { IfErr result (λ halt. self.new.halt ≡ Some halt) }
    {
        'putting: loop {
            if !self.put_back_once()? {
                return Ok(());
            }
        }
    }

    /// Puts a reverted flow back: by hand 0 each REVERTED or IGNORE atom becomes PENDING, in tree order, and then the
    /// flow does, each with its line. `Forbidden` comes exactly where the flow isn't REVERTED or an atom isn't
    /// settled, and the book isn't halted; it names the flow's state, and nothing changes.
    pub fn reset(&mut self) -> Result<(), ResetFault>
        ensures proceeds { Proceeds K.state self.old self.new }
        ensures put_back { OnOk result (IsPutBack (outline self.old) self.old.past self.new.past) }
        ensures cut { OnErr result (IsPutBackOn (outline self.old) self.old.past self.new.past) }
        ensures tried { OnErr result (self.old.halt ≡ None → HasTriedToReset self.new) }
        ensures sound { OnOk result (self.new.halt ≡ None) }
        ensures refused { (named : State) → result ≡ Err (ResetFault.Forbidden named)
            → (named ≡ flow_state self.old) × (self.new ≡ self.old) × (self.old.halt ≡ None)
            × (may (outline self.old) (moment self.old) ≡ false) }
        ensures forbidden { self.old.halt ≡ None → may (outline self.old) (moment self.old) ≡ false
            → result ≡ Err (ResetFault.Forbidden (flow_state self.old)) }
        ensures fault { (why : Fault) → result ≡ Err (ResetFault.Book why) → IsFault self.old.halt self.new.halt why }
        ensures halted { (cause : Cause) → self.old.halt ≡ Some cause → self.new ≡ self.old }
    {
        if let Some(cause) = self.halt {
            return Err(ResetFault::Book(BookFault::Halted(cause)));
        }
        if !self.may_reset() {
            return Err(ResetFault::Forbidden(self.flow()));
        }
        match self.put_back() {
            Ok(()) => Ok(()),
            Err(halt) => Err(ResetFault::Book(BookFault::from(halt))),
        }
    }
}
