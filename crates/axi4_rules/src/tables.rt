//! The rows of the table.

ghost use Rattle.std.specs.Prelude.{◌≡◌};
ghost use Rattle.axi4_rules.specs.Rules.{size_bound};

use crate::row::Row;

/// log2 of the bytes of a beat.
#[tactic(auto, unfolding(crate::specs::Rules::size_bound))]
pub(crate) fn size_bound(width: u32) -> &'static str
    ensures { result.now ≡ size_bound width }
{
    if width == 8 {
        return "3'd0";
    }
    if width == 16 {
        return "3'd1";
    }
    if width == 32 {
        return "3'd2";
    }
    if width == 64 {
        return "3'd3";
    }
    "3'd4"
}

/// The rules of an address channel that stand before that of a beat's size.
pub(crate) const BURST_ROWS: [Row<'static>; 2] = [
    Row {
        name: "__burst",
        first: "%valid |-> %burst != 2'b11",
        second: "",
    },
    Row {
        name: "__len",
        first: "%valid && %burst != 2'b01 |-> %len <= 8'd15",
        second: "",
    },
];

/// The rules of an address channel that stand after that of a beat's size.
pub(crate) const ADDRESS_ROWS: [Row<'static>; 7] = [
    Row {
        name: "__wrap_len",
        first: "%valid && %burst == 2'b10 |-> %len == 8'd1 || %len == 8'd3",
        second: "|| %len == 8'd7 || %len == 8'd15",
    },
    Row {
        name: "__wrap_align",
        first: "%valid && %burst == 2'b10 |->",
        second: "( %addr & ( ( ?'d1 << %size ) - ?'d1 ) ) == ?'d0",
    },
    Row {
        name: "__4k",
        first: "%valid && %burst == 2'b01 |-> ( { 8'd0 , %addr [ 11 : 0 ] } & ~ ( ( 20'd1 <<",
        second: "%size ) - 20'd1 ) ) + ( ( { 12'd0 , %len } + 20'd1 ) << %size ) <= 20'd4096",
    },
    Row {
        name: "__cache",
        first: "%valid && ! %cache [ 1 ] |-> %cache [ 3 : 2 ] == 2'b00",
        second: "",
    },
    Row {
        name: "__excl_len",
        first: "%valid && %lock |-> %len <= 8'd15",
        second: "",
    },
    Row {
        name: "__excl_bytes",
        first: "%valid && %lock |-> $onehot ( ( ( { 12'd0 , %len } + 20'd1 ) << %size ) )",
        second: "&& ( ( { 12'd0 , %len } + 20'd1 ) << %size ) <= 20'd128",
    },
    Row {
        name: "__excl_align",
        first: "%valid && %lock |-> ( { 8'd0 , %addr [ 11 : 0 ] }",
        second: "& ( ( ( { 12'd0 , %len } + 20'd1 ) << %size ) - 20'd1 ) ) == 20'd0",
    },
];

/// The counters of each port.
pub(crate) const COUNTER_ROWS: [Row<'static>; 3] = [
    Row {
        name: "_awo [ 16 ]",
        first: "add ( %awvalid && %awready , 1 )",
        second: "sub ( %bvalid && %bready , 1 )",
    },
    Row {
        name: "_wlo [ 16 ]",
        first: "add ( %wvalid && %wready && %wlast , 1 )",
        second: "sub ( %bvalid && %bready , 1 )",
    },
    Row {
        name: "_aro [ 16 ]",
        first: "add ( %arvalid && %arready , 1 )",
        second: "sub ( %rvalid && %rready && %rlast , 1 )",
    },
];

/// The counters of a port with one transaction at a time.
pub(crate) const SINGLE_COUNTER_ROWS: [Row<'static>; 6] = [
    Row {
        name: "_wlock [ 1 ]",
        first: "load ( %awvalid && %awready , %awlock )",
        second: "",
    },
    Row {
        name: "_rlock [ 1 ]",
        first: "load ( %arvalid && %arready , %arlock )",
        second: "",
    },
    Row {
        name: "_wlen [ 8 ]",
        first: "load ( %awvalid && %awready , %awlen )",
        second: "",
    },
    Row {
        name: "_rlen [ 8 ]",
        first: "load ( %arvalid && %arready , %arlen )",
        second: "",
    },
    Row {
        name: "_wbeat [ 9 ]",
        first: "load ( %wvalid && %wready && %wlast , 0 )",
        second: "add ( %wvalid && %wready , 1 )",
    },
    Row {
        name: "_rbeat [ 9 ]",
        first: "load ( %rvalid && %rready && %rlast , 0 )",
        second: "add ( %rvalid && %rready , 1 )",
    },
];

/// What responses come after.
pub(crate) const RESPONSE_ROWS: [Row<'static>; 3] = [
    Row {
        name: "_b_after_aw",
        first: "%bvalid |-> _awo != 0",
        second: "",
    },
    Row {
        name: "_b_after_w",
        first: "%bvalid |-> _wlo != 0",
        second: "",
    },
    Row {
        name: "_r_after_ar",
        first: "%rvalid |-> _aro != 0",
        second: "",
    },
];

/// The rules of a port with one transaction at a time.
pub(crate) const SINGLE_ROWS: [Row<'static>; 4] = [
    Row {
        name: "_b_exokay",
        first: "%bvalid && %bresp == 2'b01 |-> _wlock",
        second: "",
    },
    Row {
        name: "_r_exokay",
        first: "%rvalid && %rresp == 2'b01 |-> _rlock",
        second: "",
    },
    Row {
        name: "_w_last",
        first: "%wvalid && _awo == 1 && _wlo == 0 |->",
        second: "%wlast == ( _wbeat == _wlen )",
    },
    Row {
        name: "_r_last",
        first: "%rvalid && _aro == 1 |->",
        second: "%rlast == ( _rbeat == _rlen )",
    },
];
