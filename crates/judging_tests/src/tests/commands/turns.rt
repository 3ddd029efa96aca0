//! Several files that are judged in turn.
use super::files::run_cases;
use std::test::Fail;

/// After each turn what is written, by name if there are several.
static TURNS: &[u8] = b"
line a 1 2 put k v; line b 3 4 hit k v; write right.txt
line a 1 2 put k v; line a 3 4 put k w; line b 5 6 hit k v; write stale.txt
line a 1 2 put k v; line bad; write bad.txt
line x 1 2 put k v; bare; judge right.txt 0
^accepted 2 calls
@
line x 1 2 put k v; bare; other -; judge right.txt 0
^right.txt:
accepted 2 calls
-:
accepted 1 calls
@
line x 1 2 put k v; bare; other right.txt; judge stale.txt 1
^stale.txt:
rejected hit key k lines 1 2 3
right.txt:
accepted 2 calls
@
line x 1 2 put k v; bare; other bad.txt; other stale.txt; judge right.txt 2
^right.txt:
accepted 2 calls
bad.txt:
bad line 2: a line has five to seven words of printable ASCII, separated by single spaces: CALLER START END put|hit|miss|remove KEY [VALUE [TIME]]
stale.txt:
rejected hit key k lines 1 2 3
@
line x 1 2 put k v; bare; other bad.txt; judge absent.txt 3
^absent.txt:
bad.txt:
bad line 2: a line has five to seven words of printable ASCII, separated by single spaces: CALLER START END put|hit|miss|remove KEY [VALUE [TIME]]
@
line x 1 2 put k v; bare; json; other -; judge right.txt 0
^{\"file\":\"right.txt\",\"calls\":2,\"puts\":1,\"removals\":0,\"hits\":1,\"misses\":0,\"verdict\":\"accepted\"}
{\"file\":\"-\",\"calls\":1,\"puts\":1,\"removals\":0,\"hits\":0,\"misses\":0,\"verdict\":\"accepted\"}
@
line x 1 2 put k v; bare; json; other right.txt; judge bad.txt 2
^{\"file\":\"bad.txt\",\"verdict\":\"bad line\",\"line\":2,\"cause\":\"a line has five to seven words of printable ASCII, separated by single spaces: CALLER START END put|hit|miss|remove KEY [VALUE [TIME]]\"}
{\"file\":\"right.txt\",\"calls\":2,\"puts\":1,\"removals\":0,\"hits\":1,\"misses\":0,\"verdict\":\"accepted\"}
@
line x 1 2 put k v; bare; json; judge right.txt 0
^{\"calls\":2,\"puts\":1,\"removals\":0,\"hits\":1,\"misses\":0,\"verdict\":\"accepted\"}
";

#[test]
fn files_are_judged_in_turn(rt: HostRuntime) -> Result<(), Fail> {
    run_cases(&rt, TURNS)
}
