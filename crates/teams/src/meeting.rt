//! Stores that learn what others of their kind were answered.

ghost use Rattle.std.specs.Prelude.{◌≡◌, ◌≢◌, ℕ, List, Bool, Result, true};
ghost use Rattle.model.specs.declared.refusal.Refusal.{Refusal};
ghost use Rattle.model.specs.declared.refusal.Refusal.TheVariants.{Memory, Stopped};
ghost use Rattle.model.specs.Goals.{Running};
ghost use Rattle.events.specs.declared.event.Event.{Event};
ghost use Rattle.events.specs.declared.reply.Reply.{Reply};
ghost use Rattle.events.specs.declared.reply.Reply.TheVariants.{Refused};

use builder::Store;
use jobs::Outlook;
use model::Refusal;
use std::alloc::Global;
use trust::User;

/// A store that meets others, and knows then what they were answered.
pub trait Meet: Store {
    /// Relates a store before it met others, or none, and after it.
    ghost met: { Self → Self → Type 0 };

    /// Whether it was told that what it calls is stopped.
    ghost stopped: { Self → Bool };

    /// It has made no call.
    ghost is_new: { Self → Type 0 };

    /// How many of its calls stopped what it calls.
    ghost stops: { Self → ℕ };

    /// Meets all others that call the same: it knows then what they were answered. Tells whether what they call is
    /// stopped. It may wait.
    fn meet_others(&mut self) -> bool
        ensures met { met self.old self.new }
        ensures stopped { result ≡ stopped self.new };

    /// How a user's goal of that number may go on, as it sees it now, which may be more than it had seen. It is only
    /// looked at.
    fn outlook(&mut self, user: &User, number: u16) -> Result<Outlook, Refusal>
        ensures { met self.old self.new };

    /// Has what it calls give back what nobody holds, if it is to. No reply shows that. It may wait.
    fn sweep(&self, alloc: Global);

    /// It may meet none.
    ghost met_none: { (s : Self) → met s s };

    /// It may meet some, and then more.
    ghost met_more: { (s t u : Self) → met s t → met t u → met s u };

    /// It stays stopped after it met others.
    ghost stopped_met: { (s t : Self) → met s t → stopped s ≡ true → stopped t ≡ true };

    /// It is stopped after it was told so.
    ghost stopped_told: { (s t : Self) (event : Event)
        → Self.called s event (Refused Stopped) t → stopped t ≡ true };

    /// It stays stopped after a call.
    ghost stopped_called: { (s t : Self) (event : Event) (reply : Reply)
        → Self.called s event reply t → stopped s ≡ true → stopped t ≡ true };

    /// Who asks for a job may meet others, and nothing else comes of it.
    ghost met_asking: { (s t : Self) (user : List ℕ) (number : ℕ) (told : Result Running Refusal)
        → Self.asked s user number told t → met s t };

    /// No call has stopped anything where none was made.
    ghost stops_new: { (s : Self) → is_new s → stops s ≡ 0 };

    /// Who meets others stops nothing.
    ghost stops_met: { (s t : Self) → met s t → stops t ≡ stops s };

    /// Only a call that is answered 90 may stop what it calls.
    ghost stops_called: { (s t : Self) (event : Event) (reply : Reply)
        → Self.called s event reply t → reply ≢ Refused Memory → stops t ≡ stops s };
}
