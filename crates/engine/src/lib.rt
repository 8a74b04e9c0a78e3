// The one door for hosts: the engine's calls, the types that they take and give, and the numbers of calls that are turned down.
// Only names go in here: what they name is written and proved in the crate that it comes from. docs/HOST.md says how a host uses them.
//
// Every call has two forms, proved on every input equal to one step of the definition (`step` in crates/model/specs/Calls.antt), a preview to `preview`
// (Preview.antt beside it). In place (`.._in`), the host hands over a `Core` and lends two tables, and no neighbour is copied. By value, the engine goes in,
// and the engine after the call comes out.
// A call that is turned down gives its number, and leaves core, tables and buffer as they were; 0 means done. Calls that take a time and an answer buffer are
// turned down with 1 for a time outside 0 to 10^15 microseconds, and with 2 for a buffer under 4,096 bytes, in this order; the answer stands at the buffer's
// front, and the bytes behind it stay.
#![tactic(auto)]

// ---- an engine

// A new engine by value, or a new core and tables: a node id, no interfaces, no neighbours, switched off.
// In place the tables may hold anything before the first call: a new core has none of their rows.
pub use engine_state::{Core, Engine};
pub use peer_table::{Numbers, Words, no_numbers, no_words};

// ---- interfaces

// Takes up an interface with the address at which neighbours are to measure this box; one that is held gets the new address.
// 6: a new interface, with 4 held. It takes no time and no buffer, and puts nothing out.
pub use call_host::{add_interface, add_interface_in};

// Drops an interface; one that is not held is no refusal. It is never turned down, takes no time and no buffer, and puts nothing out.
pub use call_host::{remove_interface, remove_interface_in};

// Tells the engine that an interface failed: it is dropped, whatever the kind of the failure. It is never turned down, and puts nothing out.
pub use call_host::{IoErrorKind, handle_io_error, io_error_in};

// ---- switching on and off

// Switches on or off; switching to what it already is does nothing. On: a session of its own where it has no neighbours, and what is due, with the first
// broadcast.
// Off: a bye on each interface, no neighbours, count 0, the next node id. Turned down with 1 and 2 only.
pub use call_host::{set_enabled, switch_in};

// ---- packets

// Takes the bytes of a packet that came in on an interface from an address: hears its message, may elect a session, and does what is due. Bytes that say
// nothing, or that come while it is off, are no refusal. 3: over 512 bytes. 5: an alive of a node that is not held, with 16 held. 11: a pong to a ping time
// that was counted, of a neighbour that is measured and in the session that the pong names, if it names one.
pub use call_packet::{handle_packet, packet_in};

// ---- the timer

// Does what is due: broadcasts, pings, neighbours that are dropped with the election that follows, the count. While it is on its answer has the time of the
// next call; while it is off the answer is empty. Turned down with 1 and 2 only.
pub use call_host::{handle_timer, timer_in};

// ---- the state of the session

// Commits a state that the app asks for: reports what was taken of it, and while it is on announces that on each interface. The held state does nothing.
// Turned down with 1 and 2 only.
pub use call_host::{commit_app_state, commit_in};

// What a commit would report, and by how much it would move the beat origin, asked without making it: no engine, table or buffer changes.
// Turned down with 1 only.
pub use call_query::{Preview, preview_app_state, preview_in};

// ---- what calls give

// `Told`, in place: the core after the call, and its number. `Called`, by value: the engine after it, and its number.
pub use call::{Called, Told};

// `DONE` is 0. A call with a time and a buffer is tested for `TIME_OUT_OF_RANGE`, 1, and `BUFFER_TOO_SMALL`, 2; then a packet for `PACKET_TOO_LONG`, 3,
// `PEERS_FULL`, 5, and `PONG_DOUBLED`, 11, in this order. `INTERFACES_FULL`, 6, is of a new interface alone.
pub use call::{BUFFER_TOO_SMALL, DONE, INTERFACES_FULL, PACKET_TOO_LONG, TIME_OUT_OF_RANGE};
pub use messages::{PEERS_FULL, PONG_DOUBLED};

// ---- values

// Times and counters, a session's state with its beats, phases and tempos, ids and addresses.
pub use interface_map::InterfaceId;
pub use time::{Duration, HostTime, MicroBeats, Tempo, TempoWire};
pub use timeline::{SessionState, StartStopState, Timeline};
pub use wire::{NodeId, SocketAddrPlain};
