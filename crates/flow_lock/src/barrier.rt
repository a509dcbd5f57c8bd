//! Passes are split and joined, turns are lent and collected, and the baton goes round.
ghost use Rattle.std.specs.Prelude.{◌≡◌, ℕ, ◌<◌, ◌≤◌, [], true, false};
ghost use Rattle.flow_lock.specs.Orders.{Order};
ghost use Rattle.flow_lock.specs.Steps.{HasAll};
ghost use Rattle.flow_lock.specs.Passes.{Seen, left, right, both, lender, lent, peeled, with_turns, without_baton};
ghost use Rattle.flow_lock.specs.Passes.{with_baton};
ghost use Rattle.flow_lock.specs.Plays.{IsOrdered, IsCounted};

use crate::pass::{Pass, SlowPass};
use crate::plays::{Accept, Cut, Fetch, Glue, Learn, Lend, Peel, Tally, Yield};
use crate::table::FlowTable;
use tas_model::Recorded;

impl<R: Recorded + Drop> FlowTable<R> {
    /// A new pass, which has seen what the slow path has, with a turn. At most 4,096 are out at a time.
    pub fn split(&self, from: &mut SlowPass<R>) -> Pass<R>
        requires { (from.old.table ≡ self.now) × (1 < from.old.view.parts) × (from.old.view.baton ≡ true) }
        ensures from { from.new ≡ record from.old { view = left from.old.view } }
        ensures new { (result.table ≡ self.now) × (result.view ≡ right from.old.view) }
    {
        let pass = self.split_view(&mut from.pass);
        from.passes += 1;
        pass
    }

    fn split_view(&self, from: &mut Pass<R>) -> Pass<R>
        requires { (from.old.table ≡ self.now) × (1 < from.old.view.parts) × (from.old.view.baton ≡ true) }
        ensures from { from.new ≡ record from.old { view = left from.old.view } }
        ensures new { (result.table ≡ self.now) × (result.view ≡ right from.old.view) }
    {
        Pass {
            seat: self.table.shared.split_seat::<Cut>(&mut from.seat),
        }
    }

    /// The slow path takes in what a pass has seen and done, with its turns. The pass has no pin and no record.
    pub fn join(&self, into: &mut SlowPass<R>, from: Pass<R>)
        requires table { (into.old.table ≡ self.now) × (from.table ≡ self.now) }
        requires plain { (from.view.slow ≡ false) × (from.view.baton ≡ false) }
        requires idle { (from.view.pins ≡ []) × (from.view.held ≡ []) }
        ensures { into.new ≡ record into.old { view = both into.old.view from.view } }
    {
        self.join_view(&mut into.pass, from);
        into.passes -= 1;
    }

    fn join_view(&self, into: &mut Pass<R>, from: Pass<R>)
        requires table { (into.old.table ≡ self.now) × (from.table ≡ self.now) }
        requires slow { into.old.view.slow ≡ true }
        requires plain { (from.view.slow ≡ false) × (from.view.baton ≡ false) }
        requires idle { (from.view.pins ≡ []) × (from.view.held ≡ []) }
        ensures joined { into.new ≡ record into.old { view = both into.old.view from.view } }
        ensures one { from.view.parts ≡ 1 }
        ensures few { into.new.view.parts ≤ 4097 }
    {
        let Pass { seat } = from;
        let shared = &self.table.shared;
        shared.join_seat::<Glue>(&mut into.seat, seat);
        shared.load::<Tally>(&mut into.seat, 0);
    }

    /// Gives a pass a turn.
    pub fn lend(&self, slow: &mut SlowPass<R>, pass: &mut Pass<R>)
        requires table { (slow.old.table ≡ self.now) × (pass.old.table ≡ self.now) }
        requires baton { slow.old.view.baton ≡ true }
        ensures slow { slow.new ≡ record slow.old { view = lender slow.old.view } }
        ensures pass { pass.new ≡ record pass.old { view = with_turns pass.old.view (lent slow.old.view) } }
    {
        self.lend_turn(&mut slow.pass, pass);
    }

    fn lend_turn(&self, from: &mut Pass<R>, to: &mut Pass<R>)
        requires table { (from.old.table ≡ self.now) × (to.old.table ≡ self.now) }
        requires baton { from.old.view.baton ≡ true }
        ensures from { from.new ≡ record from.old { view = lender from.old.view } }
        ensures to { to.new ≡ record to.old { view = with_turns to.old.view (lent from.old.view) } }
    {
        let shared = &self.table.shared;
        let turn = shared.split_seat::<Lend>(&mut from.seat);
        shared.join_seat::<Fetch>(&mut to.seat, turn);
    }

    /// Gives the slow path a turn of its own, to act in while other turns are about.
    pub fn lend_slow(&self, slow: &mut SlowPass<R>)
        requires { (slow.old.table ≡ self.now) × (slow.old.view.baton ≡ true) }
        ensures { slow.new ≡ record slow.old { view = with_turns (lender slow.old.view) (lent slow.old.view) } }
    {
        self.lend_itself(&mut slow.pass);
    }

    fn lend_itself(&self, pass: &mut Pass<R>)
        requires { (pass.old.table ≡ self.now) × (pass.old.view.baton ≡ true) }
        ensures { pass.new ≡ record pass.old { view = with_turns (lender pass.old.view) (lent pass.old.view) } }
    {
        let shared = &self.table.shared;
        let turn = shared.split_seat::<Lend>(&mut pass.seat);
        shared.join_seat::<Fetch>(&mut pass.seat, turn);
    }

    /// Takes the turns of a pass back, with what was done in them. The pass keeps its pins.
    pub fn collect(&self, slow: &mut SlowPass<R>, pass: &mut Pass<R>)
        requires table { (slow.old.table ≡ self.now) × (pass.old.table ≡ self.now) }
        requires idle { pass.old.view.held ≡ [] }
        ensures slow { slow.new ≡ record slow.old { view = with_turns slow.old.view pass.old.view } }
        ensures pass { pass.new ≡ record pass.old { view = peeled pass.old.view } }
    {
        self.collect_turns(&mut slow.pass, pass);
    }

    fn collect_turns(&self, into: &mut Pass<R>, from: &mut Pass<R>)
        requires table { (into.old.table ≡ self.now) × (from.old.table ≡ self.now) }
        requires idle { from.old.view.held ≡ [] }
        ensures into { into.new ≡ record into.old { view = with_turns into.old.view from.old.view } }
        ensures from { from.new ≡ record from.old { view = peeled from.old.view } }
    {
        let shared = &self.table.shared;
        let turns = shared.split_seat::<Peel>(&mut from.seat);
        shared.join_seat::<Fetch>(&mut into.seat, turns);
    }

    /// The barrier: all turns are back, and the slow path learns what they made of the histories and of the words.
    pub fn learn(&self, slow: &mut SlowPass<R>)
        requires { (slow.old.table ≡ self.now) × (slow.old.view.baton ≡ true) × HasAll slow.old.view }
        ensures table { slow.new.table ≡ slow.old.table }
        ensures order { (order : Order) × IsOrdered order slow.old.view slow.new.view }
        ensures words { IsCounted slow.old.view slow.new.view }
    {
        self.learn_order(&mut slow.pass);
    }

    fn learn_order(&self, pass: &mut Pass<R>)
        requires { (pass.old.table ≡ self.now) × (pass.old.view.baton ≡ true) × HasAll pass.old.view }
        ensures table { pass.new.table ≡ pass.old.table }
        ensures order { (order : Order) × IsOrdered order pass.old.view pass.new.view }
        ensures words { IsCounted pass.old.view pass.new.view }
    {
        self.table.shared.load::<Learn>(&mut pass.seat, 0);
    }

    /// Hands the baton to a pass, which then knows what the slow path knew.
    pub fn pass_on(&self, from: &mut SlowPass<R>, to: &mut Pass<R>)
        requires table { (from.old.table ≡ self.now) × (to.old.table ≡ self.now) }
        requires baton { (from.old.view.baton ≡ true) × (to.old.view.baton ≡ false) }
        requires idle { from.old.view.held ≡ [] }
        ensures from { from.new ≡ record from.old { view = without_baton from.old.view } }
        ensures to { to.new ≡ record to.old { view = with_baton to.old.view from.old.view } }
    {
        self.hand_over(&mut from.pass, to);
    }

    /// Hands the baton back to the slow path.
    pub fn pass_back(&self, from: &mut Pass<R>, to: &mut SlowPass<R>)
        requires table { (from.old.table ≡ self.now) × (to.old.table ≡ self.now) }
        requires baton { (from.old.view.baton ≡ true) × (to.old.view.baton ≡ false) }
        requires idle { from.old.view.held ≡ [] }
        ensures from { from.new ≡ record from.old { view = without_baton from.old.view } }
        ensures to { to.new ≡ record to.old { view = with_baton to.old.view from.old.view } }
    {
        self.hand_over(from, &mut to.pass);
    }

    fn hand_over(&self, from: &mut Pass<R>, to: &mut Pass<R>)
        requires table { (from.old.table ≡ self.now) × (to.old.table ≡ self.now) }
        requires baton { (from.old.view.baton ≡ true) × (to.old.view.baton ≡ false) }
        requires idle { from.old.view.held ≡ [] }
        ensures from { from.new ≡ record from.old { view = without_baton from.old.view } }
        ensures to { to.new ≡ record to.old { view = with_baton to.old.view from.old.view } }
    {
        let shared = &self.table.shared;
        let baton = shared.split_seat::<Yield>(&mut from.seat);
        shared.join_seat::<Accept>(&mut to.seat, baton);
    }
}
