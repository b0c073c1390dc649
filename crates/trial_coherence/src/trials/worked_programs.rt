// Programs whose answer sets are known. Atom 1 is false in all of them.

// Of atoms 2 and 3 each excludes the other, and either gives atom 4. So the answer sets are 2 with
// 4 and 3 with 4.
pub const ONE_OF_TWO: &[u8] =
    b"1 2 1 1 3\n1 3 1 1 2\n1 4 1 0 2\n1 4 1 0 3\n0\n2 a\n3 b\n4 c\n0\nB+\n0\nB-\n1\n0\n1\n";

// 2 is a fact, 3 may be chosen, and 4 where both are. So the answer sets are 2, and 2 with 3 and 4.
pub const A_FACT: &[u8] =
    b"1 2 0 0\n3 1 3 0 0\n1 4 2 0 2 3\n0\n2 a\n3 b\n4 c\n0\nB+\n0\nB-\n1\n0\n1\n";

// Of 2 and 3 each excludes the other, and so do 4 and 5.
pub const TWO_OF_FOUR: &[u8] =
    b"1 2 1 1 3\n1 3 1 1 2\n1 4 1 1 5\n1 5 1 1 4\n0\n2 a\n3 b\n4 c\n5 d\n0\nB+\n0\nB-\n1\n0\n1\n";

// 2 and 3 may be chosen, but not 3 without 2.
pub const NOT_ALONE: &[u8] = b"3 2 2 3 0 0\n1 1 2 1 2 3\n0\n2 a\n3 b\n0\nB+\n0\nB-\n1\n0\n1\n";

// 2 to 6 may be chosen. 2 neither with 6 nor without.
pub const NO_ONE: &[u8] =
    b"3 5 2 3 4 5 6 0 0\n1 1 2 0 2 6\n1 1 2 1 6 2\n0\n2 a\n0\nB+\n0\nB-\n1\n0\n1\n";

// The same for 2 with 3.
pub const NO_TWO: &[u8] =
    b"3 5 2 3 4 5 6 0 0\n1 1 3 0 2 3 6\n1 1 3 1 6 2 3\n0\n2 a\n0\nB+\n0\nB-\n1\n0\n1\n";

// For 2 to 4.
pub const NO_THREE: &[u8] =
    b"3 5 2 3 4 5 6 0 0\n1 1 4 0 2 3 4 6\n1 1 4 1 6 2 3 4\n0\n2 a\n0\nB+\n0\nB-\n1\n0\n1\n";

// For 2 to 5.
pub const NO_FOUR: &[u8] =
    b"3 5 2 3 4 5 6 0 0\n1 1 5 0 2 3 4 5 6\n1 1 5 1 6 2 3 4 5\n0\n2 a\n0\nB+\n0\nB-\n1\n0\n1\n";

/// All of them.
pub static TEXTS: [&[u8]; 8] = [
    ONE_OF_TWO,
    A_FACT,
    TWO_OF_FOUR,
    NOT_ALONE,
    NO_ONE,
    NO_TWO,
    NO_THREE,
    NO_FOUR,
];
