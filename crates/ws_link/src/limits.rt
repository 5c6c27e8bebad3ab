//! What a link and a door bear: sizes in bytes, numbers of tries, and the one time, in milliseconds.
//!
//! They stand in one place since a bound on time is a number of tries times what each waits.

/// The most bytes of a frame's payload, and of a message in fragments. It is more than a session takes, so that the session can answer a
/// text that is too long, and not much more, since a journal keeps each message; beyond it the link fails.
pub const MESSAGE_BYTES: usize = 128 * 1024;

/// The most bytes that may wait to be sent, where the peer does not read. A text that would make them more is not sent, and the link
/// fails.
pub const WAITING_BYTES: usize = 16 * 1024 * 1024;

/// How many bytes one read of the stream asks for.
pub const READ_BYTES: usize = 16 * 1024;

/// How often a poll reads from the stream at most, and how often a poll or a send writes to it. What comes beyond is left for the next
/// call, so that no peer holds a call by sending on and on.
pub const CALL_STEPS: u32 = 16;

/// How long a read or a write waits at most during a handshake and a close, in milliseconds. The system may round it up to its tick,
/// some milliseconds. At every other time both return at once.
pub const STEP_MILLIS: u64 = 50;

/// How many reads, and how many writes, a handshake may take: with `STEP_MILLIS` each, 5 seconds before a peer that says nothing, and
/// 10 seconds at the most.
pub const SHAKE_STEPS: u32 = 100;

/// How often a close tries to send what waits. Each try is one write and, where not all was taken, one read: with `STEP_MILLIS` each,
/// 5 seconds before a peer that never reads.
pub const FLUSH_TRIES: u32 = 50;

/// How often a close, and a door that has turned a peer away, reads on, behind all that was sent, before it leaves a peer that does not end
/// the stream: with `STEP_MILLIS` each, 1 second.
pub const LINGER_READS: u32 = 20;
