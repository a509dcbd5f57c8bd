//! Senders of notes to applications.
ghost use Rattle.std.specs.Prelude.{◌≡◌, ◌++◌, ◌∷◌, [], OnOk, OnErr, position};
ghost use Rattle.core_worker.specs.News.{notes_about};
ghost use Rattle.core_worker.specs.Telling.{AreOwnSenders, IsTold, is_sender_for, held_by};

use crate::news::News;
use crate::shared::Shared;
use app_reaper::NumberList;
use context_queue::SenderPass;
use flow_lock::{Pass, SlowPass};
use flow_state::FlowRecord;
use std::alloc::{AllocError, Global};
use std::marker::Model;
use std::sync::Wait;
use tas_model::FlowId;

/// A sender of an application's queue, by the application's number.
#[derive(Drop)]
pub struct AppSender {
    pub app: u32,
    pub sender: SenderPass,
}

/// The pass of who tells an application.
#[derive(Clone, Copy)]
pub enum Teller<'a> {
    Worker(&'a Pass<FlowRecord>),
    Slow(&'a SlowPass<FlowRecord>),
}

/// A worker's senders, one for each application that it tells of its flows. One is found by its application's number
/// without a walk over the others.
#[derive(Drop)]
pub struct AppSenders {
    senders: Vec<AppSender>,
    /// The numbers of their applications.
    apps: NumberList,
}

impl Model for AppSenders {
    ghost use Rattle.std.specs.Prelude.{◌≡◌, List, map};
    ghost use Rattle.core_worker.specs.Telling.{app_of};
    ghost use Rattle.core_worker.specs.declared.senders.AppSender.{AppSender};

    ghost Value = { List AppSender };

    ghost view = { λ s. s.senders.items };

    ghost invariant = { λ s. s.apps.list ≡ map app_of s.senders.items };
}

impl AppSenders {
    /// No sender. It takes no memory.
    pub fn new(alloc: Global) -> AppSenders
        ensures { result ≡ [] }
    {
        AppSenders {
            senders: Vec::new(alloc),
            apps: NumberList::new(alloc),
        }
    }

    /// Adds a sender. The error is want of memory, and then the sender is gone and all else as it was.
    pub fn add(&mut self, app: u32, sender: SenderPass) -> Result<(), AllocError>
        ensures ok { OnOk result (self.new ≡ self.old ++ record { app = app; sender = sender } ∷ []) }
        ensures err { OnErr result (self.new ≡ self.old) }
    {
        self.apps.reserve()?;
        self.senders.push(AppSender { app, sender })?;
        self.apps.put(app);
        Ok(())
    }

    /// Tells an application the news of its flow, where there is one and a sender for it. Who tells holds no record: an
    /// application that hears of an entry finds it in the table.
    pub fn tell<R: Wait>(
        &mut self,
        rt: &R,
        shared: &Shared,
        teller: Teller<'_>,
        app: Option<u32>,
        flow: FlowId,
        news: News,
    )
        requires own { AreOwnSenders shared.now.queues self.old }
        requires free { held_by teller ≡ [] }
        ensures own { AreOwnSenders shared.now.queues self.new }
        ensures told { IsTold app shared.now.queues (notes_about flow news) self.old self.new }
    {
        let _ = teller;
        let Some(app) = app else {
            return;
        };
        let Some(i) = self.place_of(app) else {
            return;
        };
        let Some(queue) = shared.queue(app) else {
            unreachable!()
        };
        news.post(rt, queue, &mut self.senders[i].sender, flow);
    }

    /// Where the first sender for this application stands.
    fn place_of(&self, app: u32) -> Option<usize>
        ensures { result ≡ position (is_sender_for app) self.now }
    {
        self.apps.place_of(app)
    }
}
