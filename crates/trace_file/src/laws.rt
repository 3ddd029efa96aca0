// Laws of traces and of their faults, over all histories, certificates and bytes.
ghost use Rattle.std.specs.Prelude.{◌≡◌, ◌≢◌, ◌↔◌, ◌<◌, ◌++◌, [], Ok, Err, Some, All, List, ℕ, length};
ghost use Rattle.trace_file.specs.declared.call.Call.{Call};
ghost use Rattle.trace_file.specs.declared.trace.Trace.{Trace};
ghost use Rattle.trace_file.specs.declared.trace_fault.TraceFault.{TraceFault};
ghost use Rattle.trace_file.specs.declared.trace_fault.TraceFault.TheVariants.{Truncated, TrailingBytes};
ghost use Rattle.trace_file.specs.Reading.{outcome_of, first_fault_of};
ghost use Rattle.trace_file.specs.Standing.{StandsIn};
ghost use Rattle.trace_file.specs.Stream.{pair_of};
ghost use Rattle.trace_file.specs.Text.{IsPairOf, IsTrace, IsTraceOf, text_of};
ghost use Rattle.trace_file.specs.declared.version.Version.{Version};

/// Traces tell their pairs apart: a pair has one text of a form at most, a text one pair and one form, no text begins
/// another, and what was written is read back.
pub fn trace_laws()
    ensures read_back { (version : Version) (history : List Call) (certificate : List ℕ) →
        IsPairOf version history certificate →
        outcome_of (text_of version history certificate) ≡ Ok (pair_of history certificate) }
    ensures exactly { (bytes : List ℕ) (trace : Trace) → All (λ byte. byte < 256) bytes →
        ((outcome_of bytes ≡ Ok trace) ↔ IsTrace bytes trace.history trace.certificate) }
    ensures one_text { (version : Version) (bytes others : List ℕ) (history : List Call) (certificate : List ℕ) →
        IsTraceOf version bytes history certificate → IsTraceOf version others history certificate →
        bytes ≡ others }
    ensures one_version { (version other : Version) (bytes : List ℕ) (history history' : List Call)
        (certificate certificate' : List ℕ) →
        IsTraceOf version bytes history certificate → IsTraceOf other bytes history' certificate' →
        version ≡ other }
    ensures one_pair { (bytes : List ℕ) (history other : List Call) (certificate certificate' : List ℕ) →
        IsTrace bytes history certificate → IsTrace bytes other certificate' →
        (history ≡ other) × (certificate ≡ certificate') }
    ensures no_front { (bytes more : List ℕ) (history other : List Call) (certificate certificate' : List ℕ) →
        IsTrace bytes history certificate → IsTrace (bytes ++ more) other certificate' → more ≡ [] }
{}

/// What the faults of bytes say of them.
pub fn fault_laws()
    // A fault is met exactly where it stands among the bytes as its definition says, whatever reader meets it; so no
    // two faults stand among the same bytes.
    ensures stands { (bytes : List ℕ) (fault : TraceFault) → All (λ byte. byte < 256) bytes →
        ((first_fault_of bytes ≡ Some fault) ↔ StandsIn bytes fault) }

    // A fault that was met stays, whatever follows: no trace begins so.
    ensures stays { (bytes more : List ℕ) (fault : TraceFault) → All (λ byte. byte < 256) bytes →
        first_fault_of bytes ≡ Some fault → first_fault_of (bytes ++ more) ≡ Some fault }
    ensures no_trace { (bytes more : List ℕ) (fault : TraceFault) (history : List Call) (certificate : List ℕ) →
        All (λ byte. byte < 256) bytes → first_fault_of bytes ≡ Some fault →
        ¬ IsTrace (bytes ++ more) history certificate }

    // Bytes after a trace are found at its end, and a trace that is cut ends too early.
    ensures trailing { (version : Version) (history : List Call) (certificate : List ℕ) (more : List ℕ) →
        IsPairOf version history certificate → more ≢ [] →
        outcome_of (text_of version history certificate ++ more)
        ≡ Err (TrailingBytes (length (text_of version history certificate))) }
    ensures cut { (bytes more : List ℕ) (history : List Call) (certificate : List ℕ) →
        All (λ byte. byte < 256) bytes → IsTrace (bytes ++ more) history certificate → more ≢ [] →
        outcome_of bytes ≡ Err (Truncated (length bytes)) }
{}
