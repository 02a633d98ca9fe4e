//! What holds of every command. The functions do nothing; their contracts are the laws.

ghost use Rattle.std.specs.Prelude.{◌≡◌, ℕ, List, Some};
ghost use Rattle.tf_words.specs.Words.{IsConduct, IsDemo, command_of};
ghost use Rattle.tf_words.specs.declared.asked.Asked.TheVariants as command;

/// The seed and the size of a generated flow are within their bounds.
pub fn demo_numbers_are_within()
    ensures { (words : List (List ℕ)) (seed size : ℕ) (book : List ℕ) (hands : ℕ)
        → command_of words ≡ Some (command.Demo seed size book hands) → IsDemo seed size }
{}

/// The conductors are 1 to 64, and the word by which their owners are named leaves room for a number.
pub fn conductors_are_within()
    ensures { (words : List (List ℕ)) (board owner : List ℕ) (hands : ℕ)
        → command_of words ≡ Some (command.Conduct board owner hands) → IsConduct owner hands }
{}
