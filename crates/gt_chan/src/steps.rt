//! What comes of a try at a channel.

use gt_model::Party;

/// What comes of a send.
#[derive(Clone, Copy, Debug, PartialEq, Eq)]
pub enum SendStep {
    /// The value stands in the channel, which had room.
    Done,
    /// The channel has capacity 0, and this party, the first receiver of another goroutine, takes the value.
    With(Party),
    /// Nobody takes the value yet.
    Park,
    /// The channel is closed.
    Closed,
}

/// What comes of a receive.
#[derive(Clone, Copy, Debug, PartialEq, Eq)]
pub enum RecvStep {
    /// This value, which was sent first of those in the channel, is received.
    Got(u32),
    /// The channel has capacity 0, and the value is received from this party, the first sender of another goroutine. The
    /// channel does not keep what a sender that waits will send: the caller has it from the sender's instruction.
    With(Party),
    /// The channel is closed and has no items: 0 is received, and the receiver is told so.
    Zero,
    /// Nothing is received yet.
    Park,
}

/// What comes of a close.
#[derive(Clone, Copy, Debug, PartialEq, Eq)]
pub enum CloseStep {
    /// The channel is closed now. All that wait at it can go on, which `Chan::next_waiter` hands out.
    Woken,
    /// The channel was closed before; nothing changed.
    Closed,
}
