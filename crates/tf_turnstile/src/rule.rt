// The rule of the table, what a seat knows, and the kinds of step. No value of these types but an `Opening` is ever made.
ghost use Rattle.std.specs.Prelude.{ℕ, Bool, List, Option};
ghost use Rattle.std.specs.Coded.{coded_option};
ghost use Rattle.std.specs.Borrow.{ftrue};
ghost use base.Stored.{coded×, coded_ℕ, coded_list};

use crate::keeping::Kept;
use atomic_table::{Join, Play, Split, TableRule};
use std::marker::{Model, PhantomData};
use std::snapshot::Snapshot;

/// What a turnstile is made with: its first value, and for how many passes.
#[derive(Drop)]
pub(crate) struct Opening<B> {
    pub(crate) kept: Snapshot<B>,
    pub(crate) passes: u8,
}

/// What a seat knows.
pub(crate) struct View<B, E> {
    marker: PhantomData<(B, E)>,
    // The turnstile's first value, or none where the seat was given back.
    pub ghost start: { Option B } by { coded_option B.code },
    pub ghost number: { ℕ },
    // The entries after the first ones that it has seen.
    pub ghost seen: { List (ℕ × E) } by { coded_list (coded× coded_ℕ E.code) },
    // The value that it has taken.
    pub ghost taken: { Option B } by { coded_option B.code },
    pub ghost is_last: { Bool },
    // What each seat had seen that was given back to it.
    pub ghost back: { List (List (ℕ × E)) } by { coded_list (coded_list (coded× coded_ℕ E.code)) },
}

impl<B, E> Model for View<B, E> {
    ghost also_owns = { λ _. ftrue };
}

pub(crate) struct Order;

impl<B: Kept> TableRule<Option<B>, View<B, B::Entry>, Opening<B>> for Order {
    ghost use Rattle.tf_turnstile.specs.Order.{HoldsBetweenSteps, first_view};

    ghost holds = { HoldsBetweenSteps B.origin B.first B.entries };

    ghost first = { λ opening. first_view opening.kept.value };
}

/// A seat becomes a pass, and the new one the last seat.
pub(crate) struct Deal;

impl<B, E> Split<View<B, E>> for Deal {
    ghost use Rattle.tf_turnstile.specs.Order.{left_view, right_view};

    ghost left = { left_view };

    ghost right = { right_view };
}

/// The last seat takes another one back.
pub(crate) struct Return;

impl<B, E> Join<View<B, E>> for Return {
    ghost use Rattle.tf_turnstile.specs.Order.{back_view, spent_view};

    ghost both = { back_view };

    ghost spent = { spent_view };
}

/// The exchange of the turn word that takes the slot, or finds it taken.
pub(crate) struct TakeOut;

impl<B, E> Play<Option<B>, View<B, E>> for TakeOut {
    ghost use Rattle.tf_turnstile.specs.Steps.{takes_out};

    ghost then = { takes_out };
}

/// A load of the count with the value in hand.
pub(crate) struct Look;

impl<B: Kept> Play<Option<B>, View<B, B::Entry>> for Look {
    ghost use Rattle.tf_turnstile.specs.Steps.{looks};

    ghost then = { looks B.origin B.first B.entries };
}

/// The store of the count with the value in hand.
pub(crate) struct Count;

impl<B: Kept> Play<Option<B>, View<B, B::Entry>> for Count {
    ghost use Rattle.tf_turnstile.specs.Steps.{counts};

    ghost then = { counts B.origin B.first B.entries };
}

/// The store of the turn word that gives the slot back.
pub(crate) struct PutHome;

impl<B, E> Play<Option<B>, View<B, E>> for PutHome {
    ghost use Rattle.tf_turnstile.specs.Steps.{puts_home};

    ghost then = { puts_home };
}

/// A load of the count without the value in hand, or a step on the bell word.
pub(crate) struct Quiet;

impl<B, E> Play<Option<B>, View<B, E>> for Quiet {
    ghost use Rattle.tf_turnstile.specs.Steps.{tells_nothing};

    ghost then = { tells_nothing };
}
