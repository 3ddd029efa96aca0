//! What came of judging, as JUnit files.
use crate::tests::cases::check_cases;
use std::test::Fail;

/// The file of the second text has all that XML escapes.
static FILES: &[u8] = b"
least 2; junit
^a 1 4 put k v
b 2 6 hit k v
^<?xml version=\"1.0\" encoding=\"UTF-8\"?>
<testsuites>
<testsuite name=\"kangaroo judge\" tests=\"1\" failures=\"0\" errors=\"0\">
<testcase classname=\"kangaroo judge\" name=\"a&lt;b&gt;.txt\"></testcase>
</testsuite>
</testsuites>
@
least 0; junit
^alice 10 14 put color r<d
bob 16 21 put color b&\"e
carol 25 30 hit color r<d
^<?xml version=\"1.0\" encoding=\"UTF-8\"?>
<testsuites>
<testsuite name=\"kangaroo judge\" tests=\"1\" failures=\"1\" errors=\"0\">
<testcase classname=\"kangaroo judge\" name=\"a&lt;b&gt;.txt\"><failure message=\"rejected\">the hit of r&lt;d (line 3) is stale: put r&lt;d (line 1) ended at 14, before put b&amp;&quot;e (line 2) started at 16, which ended at 21, before the hit started at 25
* 1  alice  10  14  put    r&lt;d   []
* 2  bob    16  21  put    b&amp;&quot;e    []
* 3  carol  25  30  hit    r&lt;d       []
</failure></testcase>
</testsuite>
</testsuites>
@
least 3; junit
^a 1 4 put k v
b 2 6 hit k v
^<?xml version=\"1.0\" encoding=\"UTF-8\"?>
<testsuites>
<testsuite name=\"kangaroo judge\" tests=\"1\" failures=\"0\" errors=\"1\">
<testcase classname=\"kangaroo judge\" name=\"a&lt;b&gt;.txt\"><error message=\"accepted 2 calls of at least 3\"/></testcase>
</testsuite>
</testsuites>
@
least 0; junit
^a 0 9 put k v
b 0 9 put k v
c 0 9 put k w
d 1 2 hit k v
e 3 4 hit k w
d 5 6 hit k v
^<?xml version=\"1.0\" encoding=\"UTF-8\"?>
<testsuites>
<testsuite name=\"kangaroo judge\" tests=\"1\" failures=\"0\" errors=\"1\">
<testcase classname=\"kangaroo judge\" name=\"a&lt;b&gt;.txt\"><error message=\"undecided 2 hits\"/></testcase>
</testsuite>
</testsuites>
@
least 0; junit
^a 1 2 get k
^<?xml version=\"1.0\" encoding=\"UTF-8\"?>
<testsuites>
<testsuite name=\"kangaroo judge\" tests=\"1\" failures=\"0\" errors=\"1\">
<testcase classname=\"kangaroo judge\" name=\"a&lt;b&gt;.txt\"><error message=\"bad line 1: the fourth word must be put, hit, miss or remove\"/></testcase>
</testsuite>
</testsuites>
";

#[test]
fn each_judgement_has_its_junit_file(rt: HostRuntime) -> Result<(), Fail> {
    check_cases(rt.alloc(), FILES)
}
