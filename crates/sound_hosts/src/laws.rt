//! The laws of sound hosts.
ghost use Rattle.std.specs.Prelude.{◌≡◌, ℕ, false, List, Some};
ghost use Rattle.atomic_table.specs.Seated.{TableId};
ghost use Rattle.tas_model.specs.declared.entry.FlowId.{FlowId};
ghost use Rattle.tas_model.specs.Endpoint.{is_closed};
ghost use Rattle.flow_index.specs.Changes.{found_after};
ghost use Rattle.flow_index.specs.declared.change.Found.TheVariants as found;
ghost use Rattle.flow_lock.specs.Orders.{known_of};
ghost use Rattle.flow_lock.specs.declared.view.Held.{Held};
ghost use Rattle.slow_worker.specs.Workers.{Worker, flow_with};
ghost use Rattle.libtas_sockets.specs.Apps.{Application};
ghost use Rattle.host_books.specs.Books.{Book, IsAt};
ghost use Rattle.host_books.specs.Indexes.{endpoint_of, AreIndexed};
ghost use Rattle.sound_hosts.specs.Hosts.{CoreHost, known_in, flows_in};
ghost use Rattle.sound_hosts.specs.Sound.{IsHostSound, IsShown, IsNewHost, without_flows};
ghost use Rattle.sound_hosts.specs.Leading.{Leads};

/// Of a sound host both the slow path's list and the index lead to each flow that isn't closed, under its four-tuple.
pub fn open_flows_are_led()
    ensures listed { (h : CoreHost) (place : ℕ) (id : FlowId) → IsHostSound h → IsAt place id h.books
        → is_closed (endpoint_of (known_of id (known_in h))) ≡ false
        → flow_with (known_of id (known_in h)).tuple h.slow.flows ≡ Some id }
    ensures shown { (h : CoreHost) (place : ℕ) (id : FlowId) → IsHostSound h → IsAt place id h.books
        → is_closed (endpoint_of (known_of id (known_in h))) ≡ false
        → found_after (known_of id (known_in h)).tuple h.slow.index.published ≡ found.Flow id }
{}

/// A host that opened no flow is sound.
pub fn new_hosts_are_sound()
    ensures { (table : TableId) (w : Worker) (xs : List Application) → IsNewHost table w xs
        → IsHostSound (without_flows table w xs) }
{}

/// Where flows were led on, side by side or alone, the slow path's list and the index are still right.
pub fn phases_keep_the_lists()
    ensures { (books : List Book) (before after : List Held) (w : Worker) → Leads before after
        → AreIndexed books before → w.flows ≡ flows_in before books → IsShown books before w.index
        → (w.flows ≡ flows_in after books) × IsShown books after w.index × AreIndexed books after }
{}
