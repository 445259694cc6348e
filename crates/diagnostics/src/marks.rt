//! What to write in place of marks that no item has.

ghost use Rattle.std.specs.Prelude.{◌≡◌, nat_eq, drop, option_map};
ghost use Rattle.std.specs.List.{find, starts_with};
ghost use Rattle.diagnostics.specs.Hints.{stands_before};

/// A mark, how many bytes of it stand before the byte of the fault, and what to write in its place.
pub type Mark = (&'static str, usize, &'static str);

/// Marks by which items go wrong.
pub const MARKS: [Mark; 49] = [
    ("===", 2, "write ==: x and z are 0"),
    ("!==", 2, "write !=: x and z are 0"),
    (
        "==?",
        2,
        "write == on the bits that count, without ? and x, as a[3:2] == 2'b10",
    ),
    (
        "!=?",
        2,
        "write != on the bits that count, as a[3:2] != 2'b10",
    ),
    (">>>", 2, "write >>: all values are unsigned"),
    ("<<<", 2, "write <<"),
    ("##[*]", 2, "write ##[0:60], or count in a counter"),
    ("##[+]", 3, "write ##[1:60], or count in a counter"),
    ("##[", 3, "a bound is a number, not a name"),
    ("#-#", 0, "write ##0 for #-#, as in A ##0 S"),
    ("#=#", 0, "write ##1 for #=#, as in A ##1 S"),
    (
        "][->",
        1,
        "write !a[*0:20] ##1 a for a[->1], and so on once more for each further a",
    ),
    ("][=", 1, "write !a[*0:20] ##1 a ##1 !a[*0:20] for a[=1]"),
    ("][+", 1, "write [*1:20]"),
    (
        "[->",
        1,
        "write !a[*0:20] ##1 a for a[->1], and so on once more for each further a",
    ),
    ("[=", 1, "write !a[*0:20] ##1 a ##1 !a[*0:20] for a[=1]"),
    ("[*]", 2, "write [*0:20]"),
    ("[+]", 1, "write [*1:20]"),
    ("[*", 2, "a bound is a number, not a name"),
    ("[", 1, "write ((v >> i) & 1) == 1 for v[i] of a [n:0]"),
    ("+:", 0, "write both bounds, as v[3:0] for v[0 +: 4]"),
    ("-:", 0, "write both bounds, as v[7:4] for v[7 -: 4]"),
    (
        "][",
        1,
        "a select is of a name alone: name the word by a wire in the bench",
    ),
    ("].", 1, "name the signal by a wire in the bench"),
    ("<->", 1, "write !a == !b for a <-> b"),
    ("=>", 0, "write |=> between sequences, >= between numbers"),
    (
        "->",
        1,
        "write |-> between sequences, !a || b between expressions",
    ),
    ("'0", 0, "write 0, or a size, as 8'd0"),
    ("'1", 0, "write a size and all bits, as 8'hFF"),
    (
        "'s",
        0,
        "write the number without s: all values are unsigned",
    ),
    (
        "\"",
        0,
        "leave out all from else on: the report has the clock of each failure",
    ),
    ("`", 0, "write out what the macro stands for"),
    ("\\", 0, "name the signal by a wire in the bench"),
    (
        "property @",
        9,
        "write brackets, as assert property (@(posedge clk) ..);",
    ),
    ("@(", 2, "write @(posedge clk)"),
    ("@", 1, "write @(posedge clk)"),
    (
        "@",
        0,
        "an assertion has one clock, which stands at its front alone",
    ),
    ("property (", 10, "begin with the clock, as @(posedge clk)"),
    ("property(", 9, "begin with the clock, as @(posedge clk)"),
    ("assert ", 7, "write assert property (@(posedge clk) ..)"),
    ("expect ", 7, "write assert property (@(posedge clk) ..)"),
    (
        ",",
        0,
        "$past alone takes a second value, a number of clocks; what is gated is kept in a counter",
    ),
    (
        "\u{feff}",
        0,
        "it is a byte order mark: save the text without one",
    ),
    ("0x", 1, "write a size and the base, as 8'h26 for 0x26"),
    ("0X", 1, "write a size and the base, as 8'h26 for 0X26"),
    ("0b", 1, "write a size and the base, as 4'b0101 for 0b0101"),
    ("inside", 0, "write a == 1 || a == 2 for a inside {1, 2}"),
    ("{", 0, "write {a, a} for {2{a}}"),
    ("-", 0, "write 0 - a for -a"),
];

/// The bytes from one on.
fn behind(bytes: &[u8], at: usize) -> &[u8]
    ensures { result.now ≡ drop at bytes.now }
{
    &bytes[at.min(bytes.len())..]
}

/// Whether a mark stands so many bytes before a byte.
pub(crate) fn stands_before(text: &str, at: usize, mark: &str, back: usize) -> bool
    ensures { result ≡ stands_before text.now at mark.now back }
{
    if back > at {
        return false;
    }
    behind(text.as_bytes(), at - back).starts_with(mark.as_bytes())
}

/// What to write in place of the mark that stands at a byte, by the first row whose mark does.
pub fn hint_at(text: &str, at: usize, rows: &[Mark]) -> Option<&'static str>
    ensures { option_map (λ hint. hint.now) result ≡ option_map (λ row. row.2.now)
        (find (λ row. stands_before text.now at row.0.now row.1) rows.now) }
{
    for (mark, back, hint) in rows {
        if stands_before(text, at, *mark, *back) {
            return Some(*hint);
        }
    }
    None
}
