//! The rule of the table, and what each step on it tells.
ghost use Rattle.std.specs.Prelude.{ℕ, Option};
ghost use Rattle.turn_lock.specs.Rule.{Rule, first_known, spent};
ghost use Rattle.turn_lock.specs.Steps.{took, wrote, left, glanced, settled, giving, given, meeting};

use crate::booked::Booked;
use crate::known::Known;
use atomic_table::{Join, Play, Split, TableRule};
use std::marker::{Brand, PhantomData};
use std::snapshot::Snapshot;

/// The rule of the table.
pub(crate) struct ByTheBook;

impl<S: Booked> TableRule<Option<S>, Known<S, S::Entry>, Snapshot<S>> for ByTheBook {
    ghost holds = { λ about. Rule S.entries S.home S.may_make about.value };

    ghost first = { λ about. first_known about.value };
}

/// The turn is tried for.
pub(crate) struct Take;

impl<S: Booked> Play<Option<S>, Known<S, S::Entry>> for Take {
    ghost then = { took S.entries S.home S.may_make };
}

/// An entry is made. A call at `Brand` picks which.
pub(crate) trait Next<E> {
    ghost entry: { Option E };
}

impl<E> Next<E> for Brand {
    ghost use Rattle.std.specs.Prelude.{None};

    ghost entry = { None };
}

/// The step that makes an entry.
pub(crate) struct Write<N> {
    next: PhantomData<N>,
}

impl<S, E, N: Next<E>> Play<Option<S>, Known<S, E>> for Write<N> {
    ghost then = { wrote N.entry };
}

/// The turn is given back.
pub(crate) struct Leave;

impl<S, E> Play<Option<S>, Known<S, E>> for Leave {
    ghost then = { left };
}

/// The length of the book is looked at.
pub(crate) struct Glance;

impl<S: Booked> Play<Option<S>, Known<S, S::Entry>> for Glance {
    ghost then = { glanced S.may_make };
}

/// A number is given away. A call at `Brand` picks which.
pub(crate) trait Given {
    ghost number: { ℕ };
}

impl Given for Brand {
    ghost number = { 0 };
}

/// The step that gives a number away.
pub(crate) struct Give<N> {
    given: PhantomData<N>,
}

impl<S, E, N: Given> Split<Known<S, E>> for Give<N> {
    ghost left = { giving N.number };

    ghost right = { given N.number };
}

/// Another seat is taken in.
pub(crate) struct Meet;

impl<S, E> Join<Known<S, E>> for Meet {
    ghost both = { meeting };

    ghost spent = { spent };
}

/// The longer of two lists is found by the length of the book.
pub(crate) struct Settle;

impl<S, E> Play<Option<S>, Known<S, E>> for Settle {
    ghost then = { settled };
}
