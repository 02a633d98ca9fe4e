//! What holds of every list of commands. The functions do nothing; their contracts are the laws.
ghost use Rattle.std.specs.Prelude.{◌≡◌, ◌≤◌, ◌<◌, ◌≢◌, ◌==◌, ℕ, List, ◌∷◌, ◌++◌, false, length, Some, None, slice_get};
ghost use Rattle.std.specs.List.{list_any, AllByRecursion};
ghost use Rattle.tf_journal.specs.Format.{Recovered};
ghost use Rattle.tf_values.specs.declared.value.Val.{Val};
ghost use Rattle.tf_board.specs.Board.{AreOfBoard, Finds, IsCommand, command_bytes, standing_of, jobs_of, place_of, named, refuses_id, LegalJobs};
ghost use Rattle.tf_board.specs.Does.{number_of, applied};
ghost use Rattle.tf_board.specs.Seeking.{free_job, id_at, details_at, by_other};
ghost use Rattle.tf_board.specs.declared.commands.Command.{Command};
ghost use Rattle.tf_board.specs.declared.commands.Command.TheVariants as command;
ghost use Rattle.tf_board.specs.declared.commands.JobAction.{JobAction};
ghost use Rattle.tf_board.specs.declared.commands.JobAction.TheVariants as action;
ghost use Rattle.tf_board.specs.declared.jobs.Job.{Job};
ghost use Rattle.tf_board.specs.declared.jobs.Standing.TheVariants as standing;

/// A form is that of one command, and has 1 to 131,200 bytes.
pub fn command_has_one_form()
    ensures one { (a b : Command) → IsCommand a → IsCommand b → command_bytes a ≡ command_bytes b → a ≡ b }
    ensures long { (c : Command) → IsCommand c → (1 ≤ length (command_bytes c)) × (length (command_bytes c) ≤ 131200) }
{}

/// A claim is among the commands only where nobody had the job before it, and after it the claimant has it.
pub fn a_claim_is_of_a_free_job()
    ensures free { (past : List Command) (job : ℕ) (owner : List ℕ)
        → LegalJobs (command.Apply action.Claim job owner ∷ past)
        → standing_of past job ≡ standing.Free }
    ensures held { (past : List Command) (job : ℕ) (owner : List ℕ)
        → standing_of (command.Apply action.Claim job owner ∷ past) job ≡ standing.Held owner }
{}

/// Between two claims of one job its first claimant gave it up: so no job has two owners, and nobody loses one unasked.
pub fn a_job_is_given_up_between_claims()
    ensures { (newer past : List Command) (job : ℕ) (first second : List ℕ)
        → LegalJobs (command.Apply action.Claim job second
        ∷ (newer ++ (command.Apply action.Claim job first ∷ past)))
        → (later : List Command) × (older : List Command)
        × (newer ≡ later ++ (command.Apply action.Abandon job first ∷ older)) }
{}

/// An id names the job of least number that has it: it has the id, and each job before it has another.
pub fn an_id_names_its_first_job()
    ensures { (past : List Command) (id : List ℕ) (job : Job) → named (jobs_of past) id ≡ Some job
        → (job.id ≡ id) × ((other : Job) (place : ℕ) → slice_get (jobs_of past) place ≡ Some other
        → other.number < job.number → other.id ≢ id) }
{}

/// A file has one list of commands: two lists that a board may hold, and that are found in it, are the same.
pub fn a_file_has_one_list()
    ensures { (a b : List Command) (found : Recovered) → AreOfBoard a → AreOfBoard b → Finds a found → Finds b found
        → a ≡ b }
{}

/// An id goes on naming the job that it names, whatever commands are added.
pub fn an_id_goes_on_naming_its_job()
    ensures { (newer past : List Command) (id : List ℕ) (place : ℕ) → place_of (jobs_of past) id ≡ Some place
        → place_of (jobs_of (newer ++ past)) id ≡ Some place }
{}

/// A job that is found free has an id by which anybody may claim it, and details; its number isn't to be skipped.
pub fn a_free_job_may_be_claimed()
    ensures claim { (past : List Command) (skip : List ℕ) (number : ℕ) → free_job past skip ≡ Some number
        → (id : List ℕ) × (id_at past number ≡ Some id) × (number_of past id ≡ number)
        × ((owner : List ℕ) → refuses_id past action.Claim id owner ≡ None) }
    ensures details { (past : List Command) (skip : List ℕ) (number : ℕ) → free_job past skip ≡ Some number
        → (details : Val) × (details_at past number ≡ Some details) }
    ensures unskipped { (past : List Command) (skip : List ℕ) (number : ℕ) → free_job past skip ≡ Some number
        → list_any (λ n. n == number) skip ≡ false }
{}

/// While others alone do something, who claimed a job by its id may give it back, finish it or throw it away by that id,
/// which goes on naming it.
pub fn a_claimant_keeps_its_job()
    ensures { (newer past : List Command) (id owner : List ℕ) (act : JobAction) → act ≢ action.Claim
        → LegalJobs (newer ++ (applied past action.Claim id owner ∷ past))
        → AllByRecursion (by_other owner) newer
        → (refuses_id (newer ++ (applied past action.Claim id owner ∷ past)) act id owner ≡ None)
        × (number_of (newer ++ (applied past action.Claim id owner ∷ past)) id ≡ number_of past id) }
{}
