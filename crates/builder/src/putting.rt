//! Putting Stops.

ghost use Rattle.std.specs.Prelude.{◌≡◌, ◌⊎◌, true};
ghost use Rattle.crossbeam_channel.specs.Claims.{view, IsSeatAt};
ghost use Rattle.crossbeam_channel.specs.Ends.{sends_on};
ghost use Rattle.builder.specs.Rounds.{IsProducer, PutStops};

use crate::queue::{Producer, Sender, put};
use crate::ticket::Ticket;
use std::sync::Wait;

/// Puts so many Stops, but for those that the queue hands back.
pub(crate) fn put_stops<R: Wait>(rt: &R, sender: &Sender, producer: &mut Producer, stops: usize)
    requires seat { IsSeatAt (sends_on sender.now) producer.old }
    requires producer { IsProducer (view producer.old) }
    ensures seat { IsSeatAt (sends_on sender.now) producer.new }
    ensures put { PutStops (view producer.old) (view producer.new) }
{
    for stop in 0..stops {
        let _stop = stop;
        let _put = put(rt, sender, producer, Ticket::Stop);
    }
}
