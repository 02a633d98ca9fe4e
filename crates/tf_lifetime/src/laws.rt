//! The laws of a life.

ghost use Rattle.std.specs.Prelude.{◌≡◌, ◌∷◌, ◌++◌, false, ℕ, List, Option, Some, None, slice_index_or};
ghost use Rattle.tf_flow.specs.Plan.{PlanValue};
ghost use Rattle.tf_states.specs.declared.record.Entry.{Entry};
ghost use Rattle.tf_actions.specs.declared.orders.Order.{Order as AnOrder};
ghost use Rattle.tf_ports.specs.Ports.{gives_by, GivenBack};
ghost use Rattle.tf_ports.specs.declared.crews.Want.{Want as AWant};
ghost use Rattle.tf_journal.specs.Format.{Recovered};
ghost use Rattle.tf_journal.specs.Start.{file_of};
ghost use Rattle.tf_board.specs.Board.{AreOfBoard, board_in, Holds, jobs_of, numbered};
ghost use Rattle.tf_board.specs.declared.jobs.Job.{Job as AJob};
ghost use Rattle.tf_board.specs.Does.{Does};
ghost use Rattle.tf_board.specs.declared.calls.BoardRequest.{BoardRequest};
ghost use Rattle.tf_board.specs.declared.commands.Command.{Command};
ghost use Rattle.tf_book.specs.Book.{IsNoBook};
ghost use Rattle.tf_words.specs.declared.asked.Asked.TheVariants.{Resume};
ghost use Rattle.tf_model.specs.Plan.{outline_of};
ghost use Rattle.tf_commands.specs.Asking.{WasAsked};
ghost use Rattle.tf_words.specs.Words.{command_of};
ghost use Rattle.tf_commands.specs.Books.{Promised, PutsBack, book_in, book_at, HoldsElements, HoldsAsked, HoldsWith};
ghost use Rattle.tf_details.specs.Elements.{Element, history, Contents, with_entries};
ghost use Rattle.tf_migration.specs.Migrates.{Migrates, old_at};
ghost use Rattle.tf_commands.specs.declared.running.Request.{Request};
ghost use Rattle.tf_lifetime.specs.Life.{Call, IsUnfailing, Shown, Life, IsToldBy, EndsAsStated, HoldsBeneath, IsCarriedOver, IsBoardOf, IsDone, HiredIn, AreAllRecorded, WasClaimed, IsHandedOn, AreFirstIfTold, GoesAsItMay};

use tf_desk::Desk;
use tf_ports::Crew;

/// What the file of a name holds at any later point of its life begins with what it held before: the same flows, each with
/// its plan and its history, and behind that what was recorded of them since, and the flows that were begun since.
pub fn history_only_grows<K: Desk, W: Crew>()
    ensures { (name first last : List ℕ) → Life K.state (gives_by W.Hand.gives W.Far.gives) name first last
        → (elements : List Element) → HoldsElements elements (book_in first) → HoldsBeneath elements last }
{}

/// Whatever is recorded over a life is, of each flow of the book, a step of its one history: a step that a rule allows after
/// those before it, within its limits (`HoldsElements`); by a hand that was hired for a call of the life, or by hand 0
/// where it puts the flow back; and where it ends a task, then with an outcome that the relation of the hands that the call
/// wanted gives for the order of the task's last start, whose arguments are those that the definition of scopes gives at
/// that moment: so what only a hand that asks a worker may give (`lost`, `bad-reply`) stands only where such hands were
/// wanted. So it is also of an entry whose record a crash, or a fault of the disk, left pending.
pub fn every_entry_is_a_step<K: Desk, W: Crew>()
    ensures { (name first last : List ℕ) (life : Life K.state (gives_by W.Hand.gives W.Far.gives) name first last)
        (elements : List Element) → HoldsElements elements (book_in first)
        → (newer : List Element) × HoldsElements (newer ++ elements) (book_in last)
        × AreAllRecorded (gives_by W.Hand.gives W.Far.gives)
        (HiredIn K.state (gives_by W.Hand.gives W.Far.gives) life) elements newer }
{}

/// What was carried over stands. A migration that ended with status 0 read a flow from the old book; and the file of its
/// new book holds that flow, with its whole history, at any later point of its life.
pub fn what_was_carried_over_stands<K: Desk, W: Crew>()
    ensures { (old new last : List ℕ) (call : Call K.state (gives_by W.Hand.gives W.Far.gives)) → call.status ≡ 0
        → Migrates old new (K.state call.entry) (K.state call.now) call.status
        → Life K.state (gives_by W.Hand.gives W.Far.gives) new (file_of (K.state call.now) new) last
        → IsCarriedOver (old_at (K.state call.entry) old) last }
{}

/// What a board's file holds at any later point of its life begins with what it held before: the same commands, with those
/// that were added since, each behind them. So a job that was posted stays posted, and what its owners did stays done. It is
/// said of a board with a command; a board without one may be left as a file that isn't made yet. Where the commands were
/// such as a board may hold, so are all of them at any later point: none was refused after those before it.
pub fn boards_only_grow<K: Desk, W: Crew>()
    ensures grows { (name first last : List ℕ) → Life K.state (gives_by W.Hand.gives W.Far.gives) name first last
        → (one : Command) (past : List Command) → Holds (one ∷ past) (board_in first)
        → (added : List Command) × Holds (added ++ (one ∷ past)) (board_in last) }
    ensures legal { (name first last : List ℕ) → Life K.state (gives_by W.Hand.gives W.Far.gives) name first last
        → (one : Command) (past : List Command) → IsBoardOf (one ∷ past) first
        → (added : List Command) × IsBoardOf (added ++ (one ∷ past)) last }
{}

/// What was done on a board stands. A command on it that ended with status 0 said what it comes to on the commands that
/// the board had; and these, with what it added behind them, are in the file at any later point of its life.
pub fn what_was_done_stands<K: Desk, W: Crew>()
    ensures { (name last : List ℕ) (call : Call K.state (gives_by W.Hand.gives W.Far.gives)) (request : BoardRequest)
        → call.status ≡ 0
        → Life K.state (gives_by W.Hand.gives W.Far.gives) name (file_of (K.state call.now) name) last
        → Does request name (K.state call.entry) (K.state call.now) call.status
        → IsDone request name (K.state call.entry) (K.state call.now) last }
{}

/// A job has one owner at a time, over the whole life of its board: where one owner was told that it has claimed the job of
/// an id, and after it another one was, then the list of the board has both claims of that job, and between them that the
/// first owner gave it up. A list says of each job who has it, and a file has one list.
pub fn one_owner<K: Desk, W: Crew>()
    ensures { (name id first second : List ℕ) (one two : Call K.state (gives_by W.Hand.gives W.Far.gives))
        → WasClaimed name id first (K.state one.entry) (K.state one.now) one.status
        → Life K.state (gives_by W.Hand.gives W.Far.gives) name
        (file_of (K.state one.now) name) (file_of (K.state two.entry) name)
        → WasClaimed name id second (K.state two.entry) (K.state two.now) two.status
        → IsHandedOn id first second (file_of (K.state one.entry) name) (file_of (K.state two.now) name) }
{}

/// What a call showed of its entries is never lost: at any later point of the file's life it is told by the history that
/// the file holds then. That is, behind what the file held before the call stand entries of its flow whose lines the text
/// is a prefix of; or all that the call recorded, whose lines the text has whole, with a prefix of the closing. So it is of
/// a run (`run`, `resume`, `demo`), and of a flow that is put back (`reset`), whether the call returned or a crash came
/// inside.
pub fn nothing_shown_is_lost<K: Desk, W: Crew>()
    ensures run { (name mid last text : List ℕ) (call : Call K.state (gives_by W.Hand.gives W.Far.gives))
        (request : Request) (back : GivenBack) (contents : Contents) (plan : PlanValue) (before : List Entry)
        → (p : Promised (gives_by W.Hand.gives W.Far.gives request.want) request
        (WasAsked (K.state call.entry) (K.state call.now)) back name contents plan before
        (K.state call.entry) (K.state call.now) call.status)
        → Shown K.state (gives_by W.Hand.gives W.Far.gives) name call mid text
        → Life K.state (gives_by W.Hand.gives W.Far.gives) name mid last
        → IsToldBy contents plan request.quiet before p.entries (K.state call.entry).shown p.closing text last }
    ensures reset { (name mid last text : List ℕ) (call : Call K.state (gives_by W.Hand.gives W.Far.gives))
        (contents : Contents) (plan : PlanValue) (before : List Entry)
        → (p : PutsBack name contents plan before (K.state call.entry) (K.state call.now) call.status)
        → Shown K.state (gives_by W.Hand.gives W.Far.gives) name call mid text
        → Life K.state (gives_by W.Hand.gives W.Far.gives) name mid last
        → IsToldBy contents plan false before p.entries (K.state call.entry).shown p.closing text last }
{}

/// The orders that a hand was given in a call which recorded a run, where crew and hand tell them, are the first ones that
/// the hand's starts and restarts ask for behind the history before the call, in the history of the flow that the file
/// holds at any later point of its life. So nothing was performed whose start isn't in the book, whatever crash comes after
/// the call.
pub fn orders_stand_in_the_book<K: Desk, W: Crew>()
    ensures { (name mid last : List ℕ) (call : Call K.state (gives_by W.Hand.gives W.Far.gives))
        (request : Request) (back : List (Option (List AnOrder))) (contents : Contents) (plan : PlanValue)
        (before : List Entry)
        → (p : Promised (gives_by W.Hand.gives W.Far.gives request.want) request
        (WasAsked (K.state call.entry) (K.state call.now)) (Some back) name contents plan before
        (K.state call.entry) (K.state call.now) call.status)
        → HoldsWith contents p.entries (book_in mid)
        → Life K.state (gives_by W.Hand.gives W.Far.gives) name mid last
        → (hand : ℕ) → (newer : List Element)
        × HoldsElements (newer ++ (with_entries contents p.entries).elements) (book_in last)
        × AreFirstIfTold (outline_of plan) before (history contents.number newer ++ (p.entries ++ before)) hand
        (slice_index_or back hand None) }
{}

/// A call that resumes a flow which the file holds, on which no count of faults rises and for which no stop is asked, ends
/// the flow: in success, in completed reversion, or in failure; unless memory runs out, or the next record would make the
/// book longer than its limit. So it is at any point of a life, whatever came before.
pub fn ends_as_stated<K: Desk, W: Crew>()
    ensures { (name : List ℕ) (wanted : Option (List ℕ)) (hands : AWant)
        (call : Call K.state (gives_by W.Hand.gives W.Far.gives)) (contents : Contents) (plan : PlanValue)
        (past : List Entry)
        → command_of call.words ≡ Some (Resume name wanted hands None)
        → HoldsAsked wanted contents plan past (book_at (K.state call.entry) name)
        → IsUnfailing K.state (gives_by W.Hand.gives W.Far.gives) call
        → EndsAsStated contents plan past (file_of (K.state call.now) name) call.status }
{}

/// A file that holds a legal book is refused at none of its bodies. So status 6 comes only where the file holds none.
pub fn histories_are_not_refused()
    ensures { (elements : List Element) (found : Recovered) → HoldsElements elements found
        → (offset : ℕ) (byte : Option ℕ) → ¬ (IsNoBook found offset byte) }
{}

/// A job goes from one state to another only as a job may: whatever command is the last of those that a board holds, each
/// job stands after it where it stood before, or goes from UNCLAIMED to CLAIMED, and from there back or to COMPLETE.
pub fn jobs_go_as_they_may()
    ensures { (past : List Command) (last : Command) (number : ℕ) (before after : AJob) → AreOfBoard (last ∷ past)
        → numbered (jobs_of past) number ≡ Some before → numbered (jobs_of (last ∷ past)) number ≡ Some after
        → GoesAsItMay before.standing after.standing }
{}
