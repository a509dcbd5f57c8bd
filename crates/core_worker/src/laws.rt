//! The laws of what applications are told.

ghost use Rattle.std.specs.Prelude.{◌≡◌, List, [], ◌∷◌, ◌++◌, None};
ghost use Rattle.tas_model.specs.declared.entry.FlowId.{FlowId};
ghost use Rattle.tas_model.specs.Endpoint.{Endpoint};
ghost use Rattle.core_worker.specs.News.{news_of, notes_about};
ghost use Rattle.core_worker.specs.Telling.{queue_of, AreOwnSenders};
ghost use Rattle.core_worker.specs.declared.shared.AppQueue.{AppQueue};
ghost use Rattle.core_worker.specs.declared.senders.AppSender.{AppSender};

/// Where a flow's endpoint stays as it was there are no news of it, and no note tells any.
pub fn no_change_is_no_news()
    ensures { (id : FlowId) (e : Endpoint) → notes_about id (news_of e e) ≡ [] }
{}

/// Senders post to their applications' queues still when an application gets its queue, and then its sender too.
pub fn senders_stay_own()
    ensures queue { (queues : List AppQueue) (senders : List AppSender) (q : AppQueue)
        → AreOwnSenders queues senders → AreOwnSenders (queues ++ q ∷ []) senders }
    ensures sender { (queues : List AppQueue) (senders : List AppSender) (q : AppQueue) (s : AppSender)
        → AreOwnSenders queues senders → queue_of q.app queues ≡ None → s.app ≡ q.app → s.sender.line ≡ q.queue.line
        → AreOwnSenders (queues ++ q ∷ []) (senders ++ s ∷ []) }
{}
