ghost use Rattle.std.specs.Prelude.{◌≡◌, ◌++◌, ◌∷◌, []};

/// What a journal is of: the book of a flow, the jobs of a board, or the book of several flows. It stands as the
/// file's title.
#[derive(Clone, Copy, Debug, PartialEq, Eq)]
pub enum Title {
    Book,
    Jobs,
    Book2,
}

impl Title {
    ghost use Rattle.std.specs.Prelude.{◌≡◌, ◌++◌, ◌∷◌, []};
    ghost use Rattle.tf_journal.specs.Format.{title_of, body_limit};

    /// The title's bytes and a closed gate, as they stand behind the file's gate.
    pub(crate) fn closed(self) -> &'static [u8; 17]
        ensures { result.now ≡ title_of self ++ 0 ∷ [] }
    {
        match self {
            Title::Book => b"TASKFLOW BOOK 1\n\0",
            Title::Jobs => b"TASKFLOW JOBS 1\n\0",
            Title::Book2 => b"TASKFLOW BOOK 2\n\0",
        }
    }

    /// The greatest length of a body.
    pub(crate) fn body_limit(self) -> u64
        ensures { result ≡ body_limit self }
    {
        match self {
            Title::Book | Title::Jobs => 1_048_576,
            Title::Book2 => 1_048_577,
        }
    }
}
