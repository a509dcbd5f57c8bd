//! The rule, and what each step tells.
use crate::view::View;
use atomic_table::{Join, Play, Split, TableRule};
use std::marker::PhantomData;
use tas_model::Recorded;

pub struct Claims<R> {
    marker: PhantomData<R>,
}

/// The number of slots is the key.
impl<R: Recorded> TableRule<Option<R>, View, u64> for Claims<R> {
    ghost use Rattle.flow_lock.specs.Claims.{Lawful};
    ghost use Rattle.flow_lock.specs.Histories.{history_of};
    ghost use Rattle.flow_lock.specs.Passes.{first};

    ghost holds = { λ _. Lawful R.id (history_of R.tuple R.params R.entries) };

    ghost first = { first };
}

pub struct Look;

impl<S> Play<S, View> for Look {
    ghost use Rattle.flow_lock.specs.Plays.{looks};

    ghost then = { looks };
}

pub struct Glance;

impl<S> Play<S, View> for Glance {
    ghost use Rattle.flow_lock.specs.Plays.{glances};

    ghost then = { glances };
}

pub struct TryPin;

impl<S> Play<S, View> for TryPin {
    ghost use Rattle.flow_lock.specs.Plays.{tries};

    ghost then = { tries };
}

pub struct LetGo;

impl<S> Play<S, View> for LetGo {
    ghost use Rattle.flow_lock.specs.Plays.{lets_go};

    ghost then = { lets_go };
}

pub struct Doom;

impl<S> Play<S, View> for Doom {
    ghost use Rattle.flow_lock.specs.Plays.{dooms};

    ghost then = { dooms };
}

pub struct Inspect;

impl<S> Play<S, View> for Inspect {
    ghost use Rattle.flow_lock.specs.Plays.{inspects};

    ghost then = { inspects };
}

pub struct Tally;

impl<S> Play<S, View> for Tally {
    ghost use Rattle.flow_lock.specs.Plays.{tallies};

    ghost then = { tallies };
}

pub struct Learn;

impl<S> Play<S, View> for Learn {
    ghost use Rattle.flow_lock.specs.Plays.{learns};

    ghost then = { learns };
}

pub struct Take<R> {
    marker: PhantomData<R>,
}

impl<R: Recorded> Play<Option<R>, View> for Take<R> {
    ghost use Rattle.flow_lock.specs.Histories.{history_of};
    ghost use Rattle.flow_lock.specs.Plays.{takes};

    ghost then = { takes R.id (history_of R.tuple R.params R.entries) };
}

pub struct Give<R> {
    marker: PhantomData<R>,
}

impl<R: Recorded> Play<Option<R>, View> for Give<R> {
    ghost use Rattle.flow_lock.specs.Histories.{history_of};
    ghost use Rattle.flow_lock.specs.Plays.{gives};

    ghost then = { gives R.id (history_of R.tuple R.params R.entries) };
}

pub struct Clear<R> {
    marker: PhantomData<R>,
}

impl<R: Recorded> Play<Option<R>, View> for Clear<R> {
    ghost use Rattle.flow_lock.specs.Histories.{history_of};
    ghost use Rattle.flow_lock.specs.Plays.{clears};

    ghost then = { clears R.id (history_of R.tuple R.params R.entries) };
}

pub struct Open<R> {
    marker: PhantomData<R>,
}

impl<R: Recorded> Play<Option<R>, View> for Open<R> {
    ghost use Rattle.flow_lock.specs.Histories.{history_of};
    ghost use Rattle.flow_lock.specs.Plays.{opens};

    ghost then = { opens R.id (history_of R.tuple R.params R.entries) };
}

pub struct TryFree<R> {
    marker: PhantomData<R>,
}

impl<R: Recorded> Play<Option<R>, View> for TryFree<R> {
    ghost use Rattle.flow_lock.specs.Histories.{history_of};
    ghost use Rattle.flow_lock.specs.Plays.{frees};

    ghost then = { frees R.id (history_of R.tuple R.params R.entries) };
}

pub struct Restore<R> {
    marker: PhantomData<R>,
}

impl<R: Recorded> Play<Option<R>, View> for Restore<R> {
    ghost use Rattle.flow_lock.specs.Histories.{history_of};
    ghost use Rattle.flow_lock.specs.Plays.{restores};

    ghost then = { restores R.id (history_of R.tuple R.params R.entries) };
}

/// A pass is split off, with a turn.
pub struct Cut;

impl Split<View> for Cut {
    ghost use Rattle.flow_lock.specs.Passes.{left, right};

    ghost left = { left };

    ghost right = { right };
}

/// A turn is made.
pub struct Lend;

impl Split<View> for Lend {
    ghost use Rattle.flow_lock.specs.Passes.{lender, lent};

    ghost left = { lender };

    ghost right = { lent };
}

/// All turns leave a view.
pub struct Peel;

impl Split<View> for Peel {
    ghost use Rattle.flow_lock.specs.Passes.{peeled, peel};

    ghost left = { peeled };

    ghost right = { peel };
}

/// The baton leaves a view.
pub struct Yield;

impl Split<View> for Yield {
    ghost use Rattle.flow_lock.specs.Passes.{without_baton, baton_of};

    ghost left = { without_baton };

    ghost right = { baton_of };
}

/// A pass is joined.
pub struct Glue;

impl Join<View> for Glue {
    ghost use Rattle.flow_lock.specs.Passes.{both, spent};

    ghost both = { both };

    ghost spent = { spent };
}

/// Turns come to a view.
pub struct Fetch;

impl Join<View> for Fetch {
    ghost use Rattle.flow_lock.specs.Passes.{with_turns, spent};

    ghost both = { with_turns };

    ghost spent = { spent };
}

/// The baton comes to a view.
pub struct Accept;

impl Join<View> for Accept {
    ghost use Rattle.flow_lock.specs.Passes.{with_baton, spent};

    ghost both = { with_baton };

    ghost spent = { spent };
}
