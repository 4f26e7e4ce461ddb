//! The laws. A call of one does nothing.
ghost use Rattle.board_typed.specs.Laws.{CallsKeepOrder, CallsKeepOthers, HandlesShareTheCell, KeysAreShort, PortsAreKnown};
ghost use Rattle.board_typed.specs.Runs.{TypedCallsAlone};

/// The cells of a new domain are in order, and each call leaves them so.
pub fn calls_keep_order()
    ensures { CallsKeepOrder }
{}

/// Each call leaves every other thing as it was, with its board and the cells of that.
pub fn calls_keep_others()
    ensures { CallsKeepOthers }
{}

/// Where the cells are in order, a port that is held is never answered `ThingUnknown`, nor is a factory that is held where a port is made of it.
pub fn ports_are_known()
    ensures { PortsAreKnown }
{}

/// Where the cells are in order, whoever holds a thing has keys of at most 64 bytes.
pub fn keys_are_short()
    ensures { KeysAreShort }
{}

/// Where the cells are in order, the handles that readers and writers are given of an entry have its one cell.
pub fn handles_share_the_cell()
    ensures { HandlesShareTheCell }
{}

/// Wherever typed calls alone lead, each value that was not given back stands, no reader, writer or builder of ports is answered `ThingUnknown`, and handles of an entry have one cell. That a factory isn't given up while a builder of it stands is its type's: it borrows the factory.
pub fn typed_calls_alone()
    ensures { TypedCallsAlone }
{}
