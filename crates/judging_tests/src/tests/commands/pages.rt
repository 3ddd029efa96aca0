//! What stands in a page.
use crate::tests::cases::check_cases;
use std::test::Fail;

/// What stands in the pages of a stale hit, with bytes that begin tags; of values that were there from the start;
/// and of no calls.
static PAGES: &[u8] = b"
page
^a<b 10 14 put k< r<d
bob 16 21 put k< b&\"e
carol 25 30 hit k< r<d
^
1 a%3Cb 10 14 put k%3C r%3Cd
2 bob 16 21 put k%3C b&\"e
3 carol 25 30 hit k%3C r%3Cd
</script>
<script type=\"text/plain\" id=\"report-lines\">
rejected hit key k%3C lines 1 2 3
fault hit key k%3C lines 1 2 3 late 4
the hit of r%3Cd (line 3) is stale: put r%3Cd (line 1) ended at 14, before put b&\"e (line 2) started at 16, which ended at 21, before the hit started at 25
</script>
@
warm; page
^a 3 4 hit k old 2
b 5 - put k new 99
^
1 a 3 4 hit k old 2
2 b 5 - put k new 99
+1 65535 0 0 put k old
</script>
<script type=\"text/plain\" id=\"report-lines\">
accepted 2 calls
1 values were taken as there from the start
</script>
@
page
^^
</script>
<script type=\"text/plain\" id=\"report-lines\">
accepted 0 calls
</script>
";

#[test]
fn pages_have_the_calls_and_the_faults(rt: HostRuntime) -> Result<(), Fail> {
    check_cases(rt.alloc(), PAGES)
}
