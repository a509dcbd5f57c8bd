//! How windows are scaled (RFC 7323, section 2).

ghost use Rattle.std.specs.Prelude.{◌≡◌, ℕ, ◌-◌, ◌*◌, ◌/◌, ◌^◌, length, min};
ghost use Rattle.tas_model.specs.Endpoint.{Endpoint, wnd, window_field as model_window_field, agreed_scaling};
ghost use Rattle.tas_model.specs.Endpoint.{syn_window_field as model_syn_window_field};
ghost use Rattle.tas_model.specs.Segments.{offered_window as model_offered_window};
ghost use Rattle.tas_model.specs.ApplicationCalls.{least_update as model_least_update};
ghost use Rattle.tas_model.specs.Valid.{Valid};
ghost use Rattle.flow_state.specs.Calls.{seg_of};
ghost use Rattle.flow_state.specs.Stands.{Stands, IsScaling};

use crate::parts::Parts;
use segment_fields::Segment;

/// How windows are scaled (RFC 7323, section 2.2): not at all, unless both SYN segments bore the option.
#[derive(Clone, Copy, PartialEq, Eq, Debug)]
pub struct Scaling {
    /// Both SYN segments bore it.
    pub agreed: bool,
    /// A window that comes counts units of 2^ss bytes.
    pub ss: u8,
    /// A window that goes counts units of 2^rs bytes.
    pub rs: u8,
}

impl Scaling {
    /// No window is scaled.
    pub const NONE: Scaling = Scaling {
        agreed: false,
        ss: 0,
        rs: 0,
    };

    /// The scaling between sides whose SYN segments bear these shifts.
    pub fn between(own: Option<u8>, theirs: Option<u8>) -> Scaling
        ensures { IsScaling result (agreed_scaling own theirs) }
    {
        match (own, theirs) {
            (Some(rs), Some(theirs)) => Scaling {
                agreed: true,
                ss: theirs.min(14),
                rs,
            },
            _ => Scaling::NONE,
        }
    }
}

/// The bytes that a window field of 1 counts for with this shift. No window of the code needs more than 2^32.
fn unit(shift: u8) -> u64
    ensures { result ≡ 2 ^ min shift 32 }
{
    1 << shift.min(32)
}

impl Parts {
    /// The window in which bytes are taken, in bytes: the room there is, and no more than a header can show.
    pub fn window(&self) -> u32
        ensures exact { result ≡ min (self.now.rx.size - length self.now.rx.bytes) (65535 * 2 ^ self.now.scaling.rs) }
        ensures wnd { (e : Endpoint) → Stands self.now e → result ≡ wnd e }
    {
        let most = 65535 * unit(self.scaling.rs);
        u64::from(self.rx.room()).min(most) as u32
    }

    /// That window as a header shows it, in units of 2^rs bytes, rounded down (RFC 7323, section 2.3).
    pub fn window_field(&self) -> u16
        ensures { (e : Endpoint) → Stands self.now e → result ≡ model_window_field e }
    {
        (u64::from(self.window()) / unit(self.scaling.rs)) as u16
    }

    /// That window as a SYN shows it, which never scales it, in bytes (RFC 7323, section 2.2).
    pub fn syn_window_field(&self) -> u16
        ensures { (e : Endpoint) → Stands self.now e → result ≡ model_syn_window_field e }
    {
        self.rx.room().min(65535) as u16
    }

    /// The room from which on the window is opened again, in bytes: a segment or half the ring, whichever is less, and
    /// never less than a window field can show.
    pub fn least_update(&self) -> u32
        ensures { (e : Endpoint) → Valid e → Stands self.now e → result ≡ model_least_update e }
    {
        let step = u32::from(self.params.mss).min(self.params.ring / 2);
        step.max(1 << self.scaling.rs.min(14))
    }

    /// The window that a segment offers, in bytes: its field by the peer's shift, but in a SYN (RFC 7323, section 2.3).
    pub fn offered_window(&self, seg: &Segment<'_>) -> u32
        ensures { (e : Endpoint) → Valid e → Stands self.now e
            → result ≡ model_offered_window e.scaling (seg_of seg.now) }
    {
        if seg.flags.is_syn() {
            return u32::from(seg.window);
        }
        u32::from(seg.window) << self.scaling.ss.min(14)
    }

    /// Agrees with the peer on the scaling of windows, whose SYN bore this shift.
    pub fn agree_scaling(&mut self, theirs: Option<u8>)
        ensures stands { (e : Endpoint) → Stands self.old e
            → Stands self.new (record e { scaling = agreed_scaling e.params.scale theirs }) }
        ensures params { self.new.params ≡ self.old.params }
        ensures tuple { self.new.tuple ≡ self.old.tuple }
    {
        self.scaling = Scaling::between(self.params.scale, theirs);
    }
}
