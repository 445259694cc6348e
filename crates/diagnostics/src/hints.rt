//! What to write in place of what is refused.

ghost use Rattle.std.specs.Prelude.{◌≡◌, option_map};
ghost use Rattle.std.specs.List.{find};
ghost use Rattle.std.specs.Str.{bytes_eq};

/// A word or a symbol, and what to write in its place.
pub type Hint = (&'static str, &'static str);

/// Words that the profile leaves out.
pub const WORDS: [Hint; 30] = [
    (
        "within",
        "for S of 3 clocks write (1[*0:2] ##1 R ##1 1[*0:2]) intersect S, of 4 1[*0:3], and so on",
    ),
    (
        "first_match",
        "it stands round a whole antecedent alone; round a consequent leave it out",
    ),
    (
        "strong",
        "leave it out: what the end of the dump leaves open is told as open",
    ),
    (
        "weak",
        "leave it out: what the end of the dump leaves open is told as open",
    ),
    (
        "not",
        "write !b for a boolean b, and S |-> 0 for not (S) of a sequence S",
    ),
    (
        "if",
        "write C |-> R and, in another assertion, !C |-> S for if (C) R else S",
    ),
    (
        "else",
        "leave it out: the report has the clock of each failure",
    ),
    ("case", "write an assertion for each case"),
    (
        "always",
        "leave it out in front; write a[*4] for always [0:3] a, or count in a counter",
    ),
    ("nexttime", "write ##1 S, and ##2 S for nexttime [2] S"),
    (
        "eventually",
        "write ##[1:4] S for eventually [1:4] S, ##[0:60] S without a range, or use a counter",
    ),
    (
        "until",
        "write a[*0:60] ##1 b for a until b, or count in a counter",
    ),
    ("s_always", "write a[*60] for as many clocks as are meant"),
    ("s_nexttime", "write ##1 S, and ##2 S for s_nexttime [2] S"),
    (
        "s_eventually",
        "write ##[0:60] S, ##[1:4] S for s_eventually [1:4] S, or count in a counter",
    ),
    (
        "s_until",
        "write a[*0:60] ##1 b for a s_until b, or count in a counter",
    ),
    (
        "s_until_with",
        "write a[*1:60] ##0 b for a s_until_with b, or count in a counter",
    ),
    (
        "until_with",
        "write a[*1:60] ##0 b for a until_with b, or count in a counter",
    ),
    ("implies", "write !a || b for a implies b of booleans"),
    (
        "iff",
        "write !a == !b for a iff b of booleans; a gated clock has to be a wire of the bench",
    ),
    (
        "accept_on",
        "write disable iff (C), in an assertion of its own",
    ),
    (
        "reject_on",
        "write A |-> (!C throughout S), which fails where C comes while S is awaited",
    ),
    (
        "cover",
        "write assert property (.. S |-> 1): what holds is what was covered",
    ),
    ("restrict", "leave it out: it is for formal tools"),
    (
        "property",
        "write its body in each assertion; named sequences are for what is shared",
    ),
    (
        "default",
        "write the clock and disable iff in each assertion",
    ),
    ("clocking", "write the clock in each assertion"),
    (
        "negedge",
        "name a clock that is turned round in the bench: wire nclk = ~clk;",
    ),
    (
        "edge",
        "posedge alone is half of those clocks: make a clock in the bench that rises at each",
    ),
    (
        "local",
        "leave it out: $past(a, n) is for what was sampled before",
    ),
];

/// Symbols and system names that the profile leaves out.
pub const SIGNS: [Hint; 22] = [
    (
        "*",
        "name the product by a wire in the bench, or write a sum or a shift",
    ),
    (
        "/",
        "name the quotient by a wire in the bench, or write a shift",
    ),
    (
        "%",
        "name the remainder by a wire in the bench, or write low bits, as a[1:0]",
    ),
    (
        "$",
        "write a bound in its place, as ##[1:60] or [*1:60], or count in a counter",
    ),
    (
        "$countones",
        "write $onehot(v) for == 1, $onehot0(v) for <= 1, else a sum: 0 + v[0] + v[1]",
    ),
    (
        "$countbits",
        "write $onehot(v) for == 1, $onehot0(v) for <= 1, else a sum: 0 + v[0] + v[1]",
    ),
    (
        "$signed",
        "leave it out: all values are unsigned; v[7] is the sign of 8 bits",
    ),
    ("$unsigned", "leave it out: all values are unsigned"),
    ("$bits", "write the number of bits, as 8"),
    ("$clog2", "write the number, as 3 for $clog2(8)"),
    ("$time", "count clocks in a counter: a rule has no time"),
    (
        "$assertoff",
        "leave it out: disable iff says when a rule is off",
    ),
    (
        "$isunknown",
        "x and z are 0, so it is never true: leave out what asks it, and see note N2 of lint",
    ),
    ("$rise", "write $rose(a)"),
    ("$fall", "write $fell(a)"),
    ("$change", "write $changed(a)"),
    ("$prev", "write $past(a)"),
    ("$sampled", "leave it out: all values are sampled"),
    (
        "$error",
        "leave it out: the report has the clock of each failure",
    ),
    (
        "$display",
        "leave it out: the report has the clock of each failure",
    ),
    (
        "|->",
        "write one antecedent: A ##0 B |-> C for A |-> (B |-> C), A ##1 B |-> C for A |=> (..)",
    ),
    (
        "|=>",
        "write one antecedent: A ##0 B |=> C for A |-> (B |=> C), A ##1 B |=> C for A |=> (..)",
    ),
];

/// Codes of faults that say what may stand there.
pub const CODES: [Hint; 16] = [
    (
        "L2",
        "digits are those of the base, without x, z and ?, and a size is from 1 to 128",
    ),
    (
        "L3",
        "the comment has no end, so all that follows is refused with it",
    ),
    (
        "P3",
        "at most 64 brackets and unfinished operators are open at once",
    ),
    (
        "L2 of a plain number",
        "it is 2^32 or more: write a size, as 40'd5000000000",
    ),
    (
        "P4",
        "a bound is a decimal from 0 to 127, the lower one first; ##[1:126] b weighs 127, the most",
    ),
    (
        "P4 of $past",
        "so many clocks before are a plain decimal from 1 to 64",
    ),
    (
        "P4 of a counter",
        "the width of a counter is a plain decimal from 1 to 128",
    ),
    (
        "Y2",
        "names of assertions, sequences and counters are all different",
    ),
    ("Y3", "a concatenation has at most 128 bits"),
    (
        "Y4",
        "bits are counted from 0 at the right, whatever range is declared",
    ),
    (
        "Y5",
        "the side can match no clock, whatever the signals are",
    ),
    (
        "Y6",
        "the consequent may match without a clock: begin its range at 1",
    ),
    (
        "Y7",
        "all assertions have the clock of the first one: make a file for each clock",
    ),
    ("Y8", "a sequence can't be used in itself"),
    (
        "Y9",
        "a side weighs at most 127: split S and T into two assertions, or use a counter",
    ),
    (
        "C1",
        "the path behind posedge names no variable of the dump",
    ),
];

/// What stands beside a word, in the first row that has it.
pub fn hint_beside(word: &str, rows: &[Hint]) -> Option<&'static str>
    ensures { option_map (λ hint. hint.now) result ≡ option_map (λ row. row.1.now)
        (find (λ row. bytes_eq row.0.now word.now) rows.now) }
{
    for (other, hint) in rows {
        if *other == word {
            return Some(*hint);
        }
    }
    None
}
