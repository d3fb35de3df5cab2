//! The invariant of the word that workers share, and what each step on it gives.
//!
//! There are two kinds of step on the word: an add and a load. A split and a join load it too.
use crate::done::Account;
use atomic_table::{Join, Play, Split, TableRule};

/// Between any two steps of any threads the word is the sum of what the workers added.
pub struct Sums;

impl TableRule<(), Account, ()> for Sums {
    ghost use Rattle.indicatif_board.specs.Done.{AddsUp, new_account};

    ghost holds = { λ _ s. AddsUp s.words s.views };

    ghost first = { λ _. new_account };
}

/// A worker adds.
pub struct Adds;

impl Play<(), Account> for Adds {
    ghost use Rattle.std.specs.Prelude.{◌≡◌};
    ghost use Rattle.indicatif_board.specs.Done.{after_adding};

    ghost then = { λ t me _ after. after ≡ (after_adding t.first me.0, me.1) };
}

/// A worker reads the sum.
pub struct Totals;

impl Play<(), Account> for Totals {
    ghost use Rattle.std.specs.Prelude.{◌≡◌};
    ghost use Rattle.indicatif_board.specs.Done.{ReadsSum};

    ghost then = { λ _ me found after. ReadsSum me.0 found after.0 × (after.1 ≡ me.1) };
}

/// A worker becomes two.
pub struct Halves;

impl Split<Account> for Halves {
    ghost use Rattle.indicatif_board.specs.Done.{own_half, given_half};

    ghost left = { own_half };

    ghost right = { given_half };
}

/// Two workers become one.
pub struct Joins;

impl Join<Account> for Joins {
    ghost use Rattle.indicatif_board.specs.Done.{account_of_both, spent_account};

    ghost both = { account_of_both };

    ghost spent = { spent_account };
}
