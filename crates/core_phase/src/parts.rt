//! A phase whose lanes are lent, played and collected by who has the slow path's pass.
ghost use Rattle.std.specs.Prelude.{◌≡◌, List, All};
ghost use Rattle.std.specs.List.{AllZip};
ghost use Rattle.flow_lock.specs.Orders.{Order};
ghost use Rattle.flow_lock.specs.Plays.{IsOrdered, IsCounted};
ghost use Rattle.flow_lock.specs.Steps.{IsAlone, HasAll};
ghost use Rattle.flow_lock.specs.declared.view.View.{View};
ghost use Rattle.core_worker.specs.Workers.{Common};
ghost use Rattle.core_phase.specs.Lanes.{IsIdle, MayPlay, CanPlay, HasPlayed, Works, IsReady};
ghost use Rattle.core_phase.specs.Parts.{come_back};
ghost use Rattle.core_phase.specs.Phases.{AreLent, AreBack, IsPhase};
ghost use Rattle.core_phase.specs.declared.lane.Lane.{Lane};

/// What [`play_phase`] says holds also where its steps are made one by one, as by a host that has the slow path's pass
/// within another part, or whose lanes play beside those of others: [`lend_all`] gives each lane a turn, the lanes
/// play, none of them wanting memory, [`collect_all`] takes all turns back, and [`FlowTable::learn`] learns what was
/// done. Then the lanes may play, all turns are there to be learned of, and there is the order of a phase.
///
/// [`play_phase`]: crate::play_phase
/// [`lend_all`]: crate::lend_all
/// [`collect_all`]: crate::collect_all
/// [`FlowTable::learn`]: flow_lock::FlowTable::learn
pub fn played_parts_are_phases()
    ensures play { (c : Common) (v : View) (vs ls : List Lane) → All (IsIdle c) vs → All MayPlay vs
        → AreLent v.made vs ls → All CanPlay ls }
    ensures ready { (c : Common) (v : View) (vs ls ms : List Lane) → IsAlone v → All (IsIdle c) vs
        → AreLent v.made vs ls → AllZip HasPlayed ls ms → All Works ms
        → All (IsReady c) ms × HasAll (come_back vs ms v) }
    ensures phase { (c : Common) (v w : View) (vs ls ms ws : List Lane) → IsAlone v → All (IsIdle c) vs
        → AreLent v.made vs ls → AllZip HasPlayed ls ms → All Works ms → AreBack ms ws
        → (order : Order) × IsOrdered order (come_back vs ms v) w → IsCounted (come_back vs ms v) w
        → All (IsIdle c) ws × IsPhase vs ws v w }
{}
