//! What a line states.

use crate::scenario::{KillLine, MoveLine, Step};
use link_script::LinkAct;
use tas_model::Bytes;

/// The first words of lines.
#[derive(Clone, Copy)]
pub enum Keyword {
    Limit,
    Host,
    App,
    Listen,
    Accept,
    Connect,
    Send,
    Fill,
    Recv,
    Drain,
    Shut,
    Close,
    Abort,
    Wait,
    Lose,
    Dup,
    Delay,
    Corrupt,
    DropEach,
    Move,
    Kill,
}

/// The options of a host's line.
#[derive(Clone, Copy)]
pub enum OptionName {
    Iss,
    Ring,
    Mss,
    Rto,
    Slots,
    Backlog,
    Scale,
}

/// The options that a host's line gives, as far as it was read: whether a value was out of its range, a word was no
/// option's name, or an option came twice.
#[derive(Clone, Copy)]
pub struct Given {
    pub iss: Option<u32>,
    pub ring: Option<u32>,
    pub mss: Option<u16>,
    pub rto: Option<u32>,
    pub slots: Option<u32>,
    pub backlog: Option<u32>,
    pub scale: Option<u8>,
    pub wrong: bool,
    pub unknown: bool,
    pub repeated: bool,
}

/// What a line says, where its words are of a form. Names are not looked up yet.
#[derive(Drop)]
pub enum Statement {
    Limit(u32),
    /// A host's name, address and options.
    Host(Bytes, u32, Given),
    /// An application's host and name.
    App(Bytes, Bytes),
    Do(Step),
    /// A line on the frame of a host's flow.
    OnFrame(Bytes, u32, u32, LinkAct),
    DropEach(Bytes, u32),
    /// Whether the line has the word `at` in its place.
    Move(MoveLine, bool),
    /// Whether the line has the words `at` and `holding` in their places.
    Kill(KillLine, bool),
}

/// What a line is read as.
#[derive(Drop)]
pub enum Reading {
    /// It is skipped.
    Nothing,
    /// It is refused, by a kind from 1 to 5.
    Wrong(u8),
    Says(Statement),
}

/// What a name of an application's is.
#[derive(Clone, Copy)]
pub enum Role {
    Listener,
    Socket,
}
