//! What is read off the compact record.

ghost use Rattle.std.specs.Prelude.{◌≡◌, ℕ, ◌+◌, ◌-◌, ◌^◌, ◌<◌, ◌≤◌, List, length, min};
ghost use Rattle.tas_model.specs.Endpoint.{Endpoint, next_place as model_next_place};
ghost use Rattle.tas_model.specs.Segments.{ack_head as model_ack_head};
ghost use Rattle.tas_model.specs.Valid.{Valid};
ghost use Rattle.flow_state.specs.Stands.{Stands, IsNear};
ghost use Rattle.tas_model.specs.ApplicationCalls.{column, Running};
ghost use Rattle.flow_state.specs.Calls.{is_running, is_closed_phase};
ghost use Rattle.flow_state.specs.App.{is_shut_phase};

use crate::parts::Parts;
use tas_model::{Head, Phase};

impl Parts {
    /// Whether it is past SYN-RECEIVED and before CLOSED.
    pub fn is_running(&self) -> bool
        ensures { result ≡ is_running self.now.phase }
    {
        !matches!(
            self.phase,
            Phase::SynSent | Phase::SynReceived | Phase::Closed
        )
    }

    /// Whether it is CLOSED.
    pub fn is_closed(&self) -> bool
        ensures { result ≡ is_closed_phase self.now.phase }
    {
        matches!(self.phase, Phase::Closed)
    }

    /// Whether the own stream was ended, where the connection stands.
    pub fn is_shut(&self) -> bool
        ensures exact { result ≡ is_shut_phase self.now.phase }
        ensures shut { (e : Endpoint) → Stands self.now e → column e ≡ Running → result ≡ e.tx.shut }
    {
        matches!(
            self.phase,
            Phase::FinWait1 | Phase::FinWait2 | Phase::Closing | Phase::LastAck | Phase::TimeWait
        )
    }

    /// Whether the peer's FIN was taken.
    pub fn is_ended(&self) -> bool
        ensures { (e : Endpoint) → Valid e → Stands self.now e → result ≡ e.rx.ended }
    {
        let counted = u128::from(self.rcv.minus(self.irs));
        counted != (self.rx.end() + 1) % 0x1_0000_0000
    }

    /// The next place that is expected of the peer.
    pub fn next_place(&self) -> u128
        ensures next { (e : Endpoint) → Valid e → Stands self.now e → result ≡ model_next_place e.rx }
        ensures near { IsNear self.now → result < 2 ^ 126 }
    {
        if self.is_ended() {
            self.rx.end() + 2
        } else {
            self.rx.end() + 1
        }
    }

    /// The header of an ACK as it is made now (RFC 9293, section 3.10.7.4).
    pub fn ack_head(&self) -> Head
        ensures { (e : Endpoint) → Stands self.now e → result ≡ model_ack_head e }
    {
        Head {
            flags: 16,
            seq: self.max,
            ack: self.rcv,
            window: self.window_field(),
            mss: None,
            scale: None,
        }
    }

    /// The first place of the own stream that is not acknowledged.
    pub fn una_place(&self) -> u128
        ensures una { (e : Endpoint) → Valid e → Stands self.now e → result ≡ e.tx.una }
        ensures far { result < 2 ^ 127 + 2 }
    {
        let base = self.tx.base();
        let counted = u128::from(self.una.minus(self.iss));
        if counted == base % 0x1_0000_0000 {
            base
        } else if counted == (base + 1) % 0x1_0000_0000 {
            base + 1
        } else {
            base + 2
        }
    }

    /// The next place to send.
    pub fn nxt_place(&self) -> u128
        ensures { (e : Endpoint) → Valid e → Stands self.now e → result ≡ e.tx.nxt }
    {
        self.una_place() + u128::from(self.nxt.minus(self.una))
    }

    /// Past the highest place that was sent. That of the FIN, behind all bytes, is the last.
    pub fn max_place(&self) -> u128
        ensures max { (e : Endpoint) → Valid e → Stands self.now e → result ≡ e.tx.max }
        ensures near { IsNear self.now → result < 2 ^ 126 }
    {
        let counted = self.una_place() + u128::from(self.max.minus(self.una));
        counted.min(self.tx.end() + 2)
    }
}
