// What a seat knows of the board's run. No value of it is made.
use cxl_message::Event;
use std::collections::LinkedList;

/// What a seat has seen of the board's run, with what it knows of other seats.
pub struct View {
    /// The events that it has seen, newest first.
    pub seen: LinkedList<Event>,
    /// Each agent of the seat, with what its own seat had seen last.
    pub agents: LinkedList<(u8, LinkedList<Event>)>,
    /// What was joined since the last load: each of these traces begins what is seen.
    pub joined: LinkedList<LinkedList<Event>>,
    /// Whether this is the device's seat, from which the hosts' seats are split, and how many of them were.
    pub counts_hosts: bool,
    /// How many hosts the board has.
    pub hosts: u8,
}
