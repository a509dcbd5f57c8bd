//! The law that what was taken and what waits is what was posted.

ghost use Rattle.std.specs.Prelude.{◌≡◌, List, ◌++◌};
ghost use Rattle.context_queue.specs.Notes.{notes_of};
ghost use Rattle.context_queue.specs.Delivery.{Delivers, IsReceiver, IsSender};
ghost use Rattle.context_queue.specs.declared.note.Letter.{Letter};
ghost use Rattle.context_queue.specs.declared.delivery.View.{View};

/// Where a queue's rule holds of what waits in it and of what its passes know, as it does at every moment: what the
/// receiver has taken of a sender, and then what waits of that sender, is what that sender posted, in its order.
pub fn taken_and_waiting_is_posted()
    ensures { (waiting : List Letter) (views : List View) (r s : View)
        → Delivers waiting views → IsReceiver views r → IsSender views s
        → notes_of s.number (r.taken ++ waiting) ≡ s.posts }
{}
