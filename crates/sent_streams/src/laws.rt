//! The laws of what a flow sends: its stream, byte by byte, and no more than was accepted.

ghost use Rattle.std.specs.Prelude.{◌≡◌, true, ℕ, ◌+◌, ◌*◌, ◌^◌, ◌<◌, ◌≤◌, List, length};
ghost use Rattle.tas_model.specs.declared.entry.Entry.{Entry};
ghost use Rattle.tas_model.specs.declared.entry.HostParams.{HostParams};
ghost use Rattle.tas_model.specs.LegalHistory.{Legal, replay};
ghost use Rattle.tas_model.specs.OneStream.{OneStream};
ghost use Rattle.tas_model.specs.Outputs.{accepted, bytes_read, sent};
ghost use Rattle.tas_model.specs.Valid.{InRange};
ghost use Rattle.host_rounds.specs.Lists.{Each};
ghost use Rattle.host_rounds.specs.Passing.{ticks_in};
ghost use Rattle.sent_streams.specs.Streams.{IsOf, AllTaken, told_end};

/// Each segment that was sent is of one direction: a SYN bears the first number, and all else says nothing but what the
/// application's Sends took.
pub fn sent_is_one_stream()
    ensures { (params : HostParams) (h : List Entry) → InRange params → Legal params h
        → Each (IsOf (replay params h).iss (accepted h)) (sent h) }
{}

/// Where all that came to an endpoint is of one direction, with a stream shorter than 2^31, its peer sends one stream,
/// and it is that one: no two places are confused.
pub fn taken_is_one_stream()
    ensures { (params : HostParams) (first : ℕ) (stream : List ℕ) (h : List Entry) → Legal params h
        → length stream + 2 < 2 ^ 31 → AllTaken first stream h → OneStream params stream h }
{}

/// In so many ticks an endpoint accepts no more bytes than these: its bucket lets so many go, and a ring more waits.
pub fn time_bounds_what_is_accepted()
    ensures { (params : HostParams) (h : List Entry) → InRange params → Legal params h
        → length (accepted h) ≤ 65536 * (ticks_in h + 17) }
{}

/// Once a Recv was answered by the end, the peer has ended its stream, and all of it that was received was read.
pub fn the_end_is_told_last()
    ensures { (params : HostParams) (h : List Entry) → InRange params → Legal params h → told_end h ≡ true
        → ((replay params h).rx.ended ≡ true) × (bytes_read h ≡ (replay params h).rx.got) }
{}
