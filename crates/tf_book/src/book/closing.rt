ghost use Rattle.std.specs.Prelude.{◌≡◌, ◌⊎◌, ℕ, List, [], None, Some, OnOk, OnErr, IfOk, IfErr, IsErrOf};
ghost use Rattle.tf_desk.specs.State.{IsUnasked};
ghost use Rattle.tf_report.specs.Lines.{report as report_of};
ghost use Rattle.tf_book.specs.Book.{BookValue, outline, moment};
ghost use Rattle.tf_book.specs.Closed.{Closed};
ghost use Rattle.tf_book.specs.Faults.{IsFault};
ghost use Rattle.tf_book.specs.SessionInvariant.{SessionInvariant};
ghost use Rattle.tf_book.specs.Recording.{halt_after};
ghost use Rattle.tf_book.specs.declared.faults.Halt.{Halt as Cause};

use super::Book;
use crate::faults::{BookFault, Halt};
use crate::log::say_line;
use tf_desk::Desk;
use tf_report::report;
use tf_values::Memory;

impl<K: Desk> Book<K> {
    /// Says what closes a run.
    fn say_closing(&mut self, closing: &[u8]) -> Result<(), Halt>
        requires sound { self.old.halt ≡ None }
        ensures closes { (start : BookValue K) → SessionInvariant K.state start self.old
            → Closed K.state start self.new closing.now }
        ensures same { self.new ≡ record self.old {
          journal = record self.old.journal { desk = self.new.journal.desk };
          halt = halt_after result;
        } }
        ensures unasked { IsUnasked (K.state self.old.journal.desk) (K.state self.new.journal.desk) }
        ensures out_alone { OnErr result (IsErrOf result Halt.Out) }
    {
        match say_line(&mut self.journal, closing, false) {
            Ok(()) => Ok(()),
            Err(halt) => {
                self.halt = Some(halt);
                Err(halt)
            }
        }
    }

    /// Halts for want of memory, with nothing said of what was to close the run.
    fn leave_unsaid(&mut self)
        requires sound { self.old.halt ≡ None }
        ensures closes { (start : BookValue K) (closing : List ℕ) → SessionInvariant K.state start self.old
            → Closed K.state start self.new closing }
        ensures same { self.new ≡ record self.old { halt = Some Halt.Memory } }
    {
        self.halt = Some(Halt::Memory);
    }

    /// The report at this moment, which nobody says here.
    pub fn report_text(&self) -> Result<Vec<u8>, Memory>
        ensures { IfOk result (λ text. text.items ≡ report_of (outline self.now) (moment self.now)) }
    {
        let mut text = Vec::new(self.alloc);
        let machine = &self.machine;
        report(
            machine.plan(),
            machine.flow_state(),
            machine.views(),
            &mut text,
        )?;
        Ok(text)
    }

    /// Says what closes a run, if it could be made.
    pub(super) fn say_made(&mut self, made: Result<Vec<u8>, Memory>) -> Result<(), Halt>
        requires sound { self.old.halt ≡ None }
        ensures closes { (start : BookValue K) (closing : List ℕ) → SessionInvariant K.state start self.old
            → IfOk made (λ text. text.items ≡ closing)
            → Closed K.state start self.new closing }
        ensures same { self.new ≡ record self.old {
          journal = record self.old.journal { desk = self.new.journal.desk };
          halt = halt_after result;
        } }
        ensures unasked { IsUnasked (K.state self.old.journal.desk) (K.state self.new.journal.desk) }
        ensures faults { IfErr result (λ halt. (halt ≡ Halt.Out) ⊎ (halt ≡ Halt.Memory)) }
        ensures unsaid { IsErrOf result Halt.Memory → (start : BookValue K) → SessionInvariant K.state start self.old
            → Closed K.state start self.new [] }
    {
        let Ok(text) = made else {
            self.leave_unsaid();
            return Err(Halt::Memory);
        };
        self.say_closing(&text)
    }

    /// Says how the flow stands, and where it failed, which reversions failed. It is never halted by the disk or by
    /// a full journal; where it is halted for want of memory, nothing was said.
    pub fn report(&mut self) -> Result<(), BookFault>
        ensures closes { (start : BookValue K) → SessionInvariant K.state start self.old → self.old.halt ≡ None
            → Closed K.state start self.new (report_of (outline self.old) (moment self.old)) }
        ensures same { self.new ≡ record self.old {
          journal = record self.old.journal { desk = self.new.journal.desk };
          halt = self.new.halt;
        } }
        ensures unasked { IsUnasked (K.state self.old.journal.desk) (K.state self.new.journal.desk) }
        ensures sound { OnOk result (self.new.halt ≡ None) }
        ensures fault { IfErr result (IsFault self.old.halt self.new.halt) }
        ensures faults { IfErr result (λ fault. self.old.halt ≡ None
            → (fault ≡ BookFault.Out) ⊎ (fault ≡ BookFault.Memory)) }
        ensures halted { (cause : Cause) → self.old.halt ≡ Some cause → self.new ≡ self.old }
        ensures unsaid { IsErrOf result BookFault.Memory → (start : BookValue K)
            → SessionInvariant K.state start self.old → self.old.halt ≡ None
            → Closed K.state start self.new [] }
    {
        if let Some(cause) = self.halt {
            return Err(BookFault::Halted(cause));
        }
        let made = self.report_text();
        match self.say_made(made) {
            Ok(()) => Ok(()),
            Err(halt) => Err(BookFault::from(halt)),
        }
    }
}
