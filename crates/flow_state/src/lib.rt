//! The record of one flow: its endpoint in compact form, and its history.
#![tactic(auto)]

mod app;
mod app_end;
mod app_recv;
mod app_send;
mod application;
mod arena;
mod call;
mod came;
mod counts;
mod engine;
mod history;
mod open;
mod paced;
mod parts;
mod reading;
mod record;
mod releasing;
mod scaling;
mod sharing;
mod slot;
mod stage;
mod stretch;
mod stretches;
mod view;

pub use app::AppCalls;
pub use call::{Answer, CallIn};
pub use counts::CallerCounts;
pub use engine::{Clock, Engine, cost, need};
pub use history::FlowHistory;
pub use paced::PacedRun;
pub use parts::Parts;
pub use record::FlowRecord;
pub use scaling::Scaling;
pub use stage::Stage;
pub use stretch::QuietRun;
pub use stretches::{StretchView, Stretches};
pub use view::{CallView, EntryAt, EntryView, ReplyView, SegView};
