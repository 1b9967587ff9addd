// Laws of what the queues hold. The functions do nothing.
ghost use Rattle.link_queues.specs.Laws.{FlightGoesOn, SendsHaveRoom, TakesAreThere};

/// Queues that hold the messages in flight of a trace have, at each event with which the trace is a run, the host of what it takes
/// and room for what it sends; and when its message is taken and then its messages are sent they hold the messages in flight of the
/// trace with it (own rule).
pub fn flight_goes_on()
    ensures takes { TakesAreThere }
    ensures sends { SendsHaveRoom }
    ensures goes_on { FlightGoesOn }
{}
