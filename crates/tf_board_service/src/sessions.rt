// How sessions end, and the points at which their requests were answered.
ghost use Rattle.std.specs.Prelude.{◌≡◌};

use std::marker::Model;

/// How a session ended.
#[derive(Clone, Copy, Debug, PartialEq, Eq)]
pub enum SessionEnd {
    /// The link ended between two frames, and every request was answered.
    Ended,
    /// The link failed, or it ended inside a frame.
    Lost,
    /// At this place of the stream stands a frame that is no request, or a length that no frame has; the requests
    /// before it were answered. A place past the greatest number of 64 bits counts as that number.
    Bad { at: u64 },
    /// The shared board is halted, or memory ran out, which halts it; the last request has no reply.
    Halted,
}

/// For each request that was answered, how many commands stood before it.
#[derive(Debug, Drop)]
pub struct Points {
    items: Vec<u64>,
}

impl Model for Points {
    ghost use Rattle.std.specs.Prelude.{List, ℕ};

    ghost Value = { List ℕ };

    ghost view = { λ points. points.items.items };
}

impl Points {
    /// A list of these points. It takes no memory.
    pub fn make(items: Vec<u64>) -> Points
        ensures { result ≡ items.items }
    {
        Points { items }
    }

    /// The points, in order.
    pub fn items(&self) -> &[u64]
        ensures { result.now ≡ self.now }
    {
        &self.items
    }
}

/// A session that is over.
#[derive(Debug, Drop)]
pub struct Session {
    pub end: SessionEnd,
    pub points: Points,
}

/// The sessions of a service, in the order of their links.
#[derive(Debug, Drop)]
pub struct Sessions {
    items: Vec<Session>,
}

impl Model for Sessions {
    ghost use Rattle.std.specs.Prelude.{List};
    ghost use Rattle.tf_board_service.specs.declared.sessions.Session.{Session};

    ghost Value = { List Session };

    ghost view = { λ sessions. sessions.items.items };
}

impl Sessions {
    /// A list of these sessions. It takes no memory.
    pub fn make(items: Vec<Session>) -> Sessions
        ensures { result ≡ items.items }
    {
        Sessions { items }
    }

    /// The sessions, in order.
    pub fn items(&self) -> &[Session]
        ensures { result.now ≡ self.now }
    {
        &self.items
    }
}
