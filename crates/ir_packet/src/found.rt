//! What a reader finds.

/// What a byte ended. Only `Packet` has a payload, which the reader lends.
#[derive(Clone, Copy, Debug, PartialEq, Eq)]
pub enum Found {
    /// A packet with the right sum.
    Packet,
    /// A packet with a wrong sum, or with digits that are none.
    BadSum,
    /// A packet of more than 4,096 bytes.
    TooLong,
    /// The byte 03 between packets, which gdb sends at Ctrl-C.
    Interrupt,
    /// A `+` between packets.
    Acknowledged,
    /// A `-` between packets.
    Refused,
}
