//! Rows that stand alone.

use crate::row::Row;

/// What a channel does in reset.
pub(crate) const RESET_ROW: Row<'static> = Row {
    name: "__reset",
    first: "! RESET |=> ! %valid",
    second: "",
};

/// What a waiting channel does.
pub(crate) const HOLD_ROW: Row<'static> = Row {
    name: "__hold",
    first: "%valid && ! %ready |=> %valid",
    second: "",
};

/// What a payload signal does while it waits; the item is its name.
pub(crate) const STABLE_ROW: Row<'static> = Row {
    name: "_?_stable",
    first: "%valid && ! %ready |=> $stable ( %? )",
    second: "",
};

/// How long a channel waits; the item is the wait.
pub(crate) const WAIT_ROW: Row<'static> = Row {
    name: "__wait",
    first: "%valid && ! %ready |-> ## [ 1 : ? ] %ready",
    second: "",
};

/// The writes of an ID, which is the item.
pub(crate) const WRITES_ROW: Row<'static> = Row {
    name: "_awo_? [ 16 ]",
    first: "add ( %awvalid && %awready && %awid == ? , 1 )",
    second: "sub ( %bvalid && %bready && %bid == ? , 1 )",
};

/// The reads of an ID, which is the item.
pub(crate) const READS_ROW: Row<'static> = Row {
    name: "_aro_? [ 16 ]",
    first: "add ( %arvalid && %arready && %arid == ? , 1 )",
    second: "sub ( %rvalid && %rready && %rlast && %rid == ? , 1 )",
};

/// What a response to a write of an ID comes after.
pub(crate) const WRITE_ID_ROW: Row<'static> = Row {
    name: "_b_id_?",
    first: "%bvalid && %bid == ? |-> _awo_? != 0",
    second: "",
};

/// What a response to a read of an ID comes after.
pub(crate) const READ_ID_ROW: Row<'static> = Row {
    name: "_r_id_?",
    first: "%rvalid && %rid == ? |-> _aro_? != 0",
    second: "",
};
