//! What lines spell, which are bad and why, and what is written of them.
use crate::tests::cases::check_cases;
use std::test::Fail;

/// Each cause, with the number of its line.
static BAD: &[u8] = b"
read
^a 1 2 put k v
b 1 2 put k\tv
^bad line 2: a line has five to seven words of printable ASCII, separated by single spaces: CALLER START END put|hit|miss|remove KEY [VALUE [TIME]]
@
read
^# x

a 1 2 put k v\r
^bad line 3: a line has five to seven words of printable ASCII, separated by single spaces: CALLER START END put|hit|miss|remove KEY [VALUE [TIME]]
@
read
^a 1 2 put^bad line 1: a line has five to seven words of printable ASCII, separated by single spaces: CALLER START END put|hit|miss|remove KEY [VALUE [TIME]]
@
read
^a 1 2 put k v 1 1^bad line 1: a line has five to seven words of printable ASCII, separated by single spaces: CALLER START END put|hit|miss|remove KEY [VALUE [TIME]]
@
read
^a  1 2 put k v^bad line 1: a line has five to seven words of printable ASCII, separated by single spaces: CALLER START END put|hit|miss|remove KEY [VALUE [TIME]]
@
read
^ a 1 2 put k v^bad line 1: a line has five to seven words of printable ASCII, separated by single spaces: CALLER START END put|hit|miss|remove KEY [VALUE [TIME]]
@
read
^a 1 2 put k v ^bad line 1: a line has five to seven words of printable ASCII, separated by single spaces: CALLER START END put|hit|miss|remove KEY [VALUE [TIME]]
@
read
^a x 2 put k v^bad line 1: START must be a number below 2^63, in decimal without leading zeros
@
read
^a 01 2 put k v^bad line 1: START must be a number below 2^63, in decimal without leading zeros
@
read
^a - 2 put k v^bad line 1: START must be a number below 2^63, in decimal without leading zeros
@
read
^a 9223372036854775808 2 put k v^bad line 1: START must be a number below 2^63, in decimal without leading zeros
@
read
^a +1 2 put k v^bad line 1: START must be a number below 2^63, in decimal without leading zeros
@
read
^a x x get % %^bad line 1: START must be a number below 2^63, in decimal without leading zeros
@
read
^a 1 02 get % %^bad line 1: END must be a number below 2^63, in decimal without leading zeros, or - if the call never returned
@
read
^a 1 - hit % %^bad line 1: END of a hit or a miss must be a number: leave out gets that never returned
@
read
^a 1 -2 put k v^bad line 1: END must be a number below 2^63, in decimal without leading zeros, or - if the call never returned
@
read
^a 1 9223372036854775808 put k v^bad line 1: END must be a number below 2^63, in decimal without leading zeros, or - if the call never returned
@
read
^a 1 2 get k v^bad line 1: the fourth word must be put, hit, miss or remove
@
read
^a 1 2 put k^bad line 1: wrong number of words: put and hit have KEY VALUE and at most one time after them, miss and remove have only KEY
@
read
^a 1 2 miss k v^bad line 1: wrong number of words: put and hit have KEY VALUE and at most one time after them, miss and remove have only KEY
@
read
^a 1 2 remove k v 3^bad line 1: wrong number of words: put and hit have KEY VALUE and at most one time after them, miss and remove have only KEY
@
read
^a 1 - hit k v^bad line 1: END of a hit or a miss must be a number: leave out gets that never returned
@
read
^a 1 - miss k^bad line 1: END of a hit or a miss must be a number: leave out gets that never returned
@
read
^a 1 2 miss k%2^bad line 1: bad percent-encoding in the key: % must be followed by two hexadecimal digits
@
read
^a 1 2 miss %^bad line 1: bad percent-encoding in the key: % must be followed by two hexadecimal digits
@
read
^a 1 2 miss %g0^bad line 1: bad percent-encoding in the key: % must be followed by two hexadecimal digits
@
read
^a 1 2 miss %%41^bad line 1: bad percent-encoding in the key: % must be followed by two hexadecimal digits
@
read
^a 1 2 miss -^bad line 1: the key must have 1 to 255 bytes after percent-decoding: - means no bytes, %2D is a hyphen
@
read
^a 1 2 hit k %2^bad line 1: bad percent-encoding in the value: % must be followed by two hexadecimal digits
@
read
^a 1 2 put k v -^bad line 1: the expiry of a put must be a number below 2^63, in decimal without leading zeros: leave it out if the value never expires
@
read
^a 1 2 put k v 18446744073709551615^bad line 1: the expiry of a put must be a number below 2^63, in decimal without leading zeros: leave it out if the value never expires
@
read
^a 1 2 hit k v x^bad line 1: the moment of a hit must be a number below 2^63, in decimal without leading zeros: leave it out to mean 0
@
read
^



a 1 2 hit k v x
a^bad line 5: the moment of a hit must be a number below 2^63, in decimal without leading zeros: leave it out to mean 0
@
read
^a 1 2 put k v
a 1 2 put k v
a^bad line 3: a line has five to seven words of printable ASCII, separated by single spaces: CALLER START END put|hit|miss|remove KEY [VALUE [TIME]]
@
read
^\ta 1 2 put k v^bad line 1: a line has five to seven words of printable ASCII, separated by single spaces: CALLER START END put|hit|miss|remove KEY [VALUE [TIME]]
@
read
^a 1 2 put k v#

# a
b 1 2 put k \x80^bad line 4: a line has five to seven words of printable ASCII, separated by single spaces: CALLER START END put|hit|miss|remove KEY [VALUE [TIME]]
";

#[test]
fn bad_lines_have_their_number_and_their_cause(rt: HostRuntime) -> Result<(), Fail> {
    check_cases(rt.alloc(), BAD)
}

/// What is read, as it is written.
static RIGHT: &[u8] = b"
read
^^@
read
^# nothing

#
^@
read
^x 1 2 put k v^c0 1 2 put k v
@
read
^x 1 2 put k v
y 3 - put k - 7
x 5 4 miss k
^c0 1 2 put k v
c1 3 - put k - 7
c0 5 4 miss k
@
read
^x 0 9223372036854775807 hit %2D %2d 0^c0 0 9223372036854775807 hit %2D %2D
@
read
^x 0 1 hit a%20%0a%25%fF%7f %4a%4B- 5^c0 0 1 hit a%20%0A%25%FF%7F JK- 5
@
read
^
#
y 1 - remove --

x 1 2 put k %2D 9223372036854775807
y 1 1 miss y^c0 1 - remove --
c1 1 2 put k %2D 9223372036854775807
c0 1 1 miss y
@
read
^- 1 2 put k v^c0 1 2 put k v
";

#[test]
fn right_lines_are_read_and_written(rt: HostRuntime) -> Result<(), Fail> {
    check_cases(rt.alloc(), RIGHT)
}

/// Misses of as many callers as there may be, and of one more.
static CALLERS: &[u8] = b"
callers 65536; named 65535 65536 65535
^^@
callers 65537; came bad
^^bad line 65537: too many callers: a history has at most 65536
";

#[test]
fn there_are_at_most_65536_callers(rt: HostRuntime) -> Result<(), Fail> {
    check_cases(rt.alloc(), CALLERS)
}
