//! The law of one call that is made alone, over what `app_reaper` and `flow_lock` ensure.
ghost use Rattle.std.specs.Prelude.{◌≡◌, ℕ};
ghost use Rattle.tas_model.specs.declared.entry.FlowId.{FlowId};
ghost use Rattle.tas_model.specs.declared.entry.Caller.{Caller};
ghost use Rattle.flow_state.specs.declared.call.CallIn.{CallIn};
ghost use Rattle.flow_state.specs.Calls.{call_of, offer_of};
ghost use Rattle.flow_state.specs.Flow.{Flow};
ghost use Rattle.host_rounds.specs.Hosts.{Live, at_flow, with_call};
ghost use Rattle.flow_lock.specs.Steps.{IsAlone};
ghost use Rattle.flow_lock.specs.declared.view.View.{View};
ghost use Rattle.app_reaper.specs.OneCall.{IsOwn, IsUse, history_with};
ghost use Rattle.host_books.specs.Books.{Setting, host_of, IsAt};

/// Who is alone and makes one call on a flow, by one take and one give, changes the host by just that call, and is
/// alone still.
pub fn calls_alone_are_moves()
    ensures alone { (id : FlowId) (caller : Caller) (t : ℕ) (call : CallIn) (v w : View) (r : Flow) → IsAlone v
        → IsUse id r (history_with r caller t call) v w → IsAlone w }
    ensures moved { (s : Setting) (n : ℕ) (id : FlowId) (caller : Caller) (t : ℕ) (call : CallIn) (v w : View)
        (r : Flow) → IsAlone v → IsAt n id s.books → IsOwn id v r → IsUse id r (history_with r caller t call) v w
        → host_of s w.base
        ≡ at_flow n (λ (l : Live). with_call l caller t (call_of call) (offer_of call)) (host_of s v.base) }
{}
