//! How long lines, keys and values may be.
use crate::tests::cases::check_cases;
use std::test::Fail;

/// Each length and the next, in a line at the end of a text, and in one that others follow.
static SIZES: &[u8] = b"
fill x 8191; came 0 0 0; line; line; line a 1 2 miss k; came 1 1 0 3
^#^@
fill x 8192; came bad; line; line; line a 1 2 miss k; came bad
^#^bad line 1: the line is too long: a line has at most 8192 bytes
@
fill x 8192; came bad; line; line; line a 1 2 miss k; came bad
^^bad line 1: a line has five to seven words of printable ASCII, separated by single spaces: CALLER START END put|hit|miss|remove KEY [VALUE [TIME]]
@
fill x 8193; came bad; line; line; line a 1 2 miss k; came bad
^

^bad line 3: the line is too long: a line has at most 8192 bytes
@
fill x 255; came 1 1 0 1; line; line; line a 1 2 miss k; came 2 1 0 1 3
^a 1 2 miss ^@
fill x 256; came bad; line; line; line a 1 2 miss k; came bad
^a 1 2 miss ^bad line 1: the key must have 1 to 255 bytes after percent-decoding: - means no bytes, %2D is a hyphen
@
fill %20 255; came 1 1 0 1; line; line; line a 1 2 miss k; came 2 1 0 1 3
^a 1 2 miss ^@
fill x 2048; came 1 1 0 1; line; line; line a 1 2 miss k; came 2 1 0 1 3
^a 1 2 put k ^@
fill x 2049; came bad; line; line; line a 1 2 miss k; came bad
^a 1 2 put k ^bad line 1: the value must have at most 2048 bytes after percent-decoding: record a hash of a longer one
@
fill %2D 2048; came 1 1 0 1; line; line; line a 1 2 miss k; came 2 1 0 1 3
^a 1 2 hit k ^@
fill %2D 2049; came bad; line; line; line a 1 2 miss k; came bad
^a 1 2 hit k ^bad line 1: the value must have at most 2048 bytes after percent-decoding: record a hash of a longer one
";

#[test]
fn each_length_has_its_limit(rt: HostRuntime) -> Result<(), Fail> {
    check_cases(rt.alloc(), SIZES)
}
