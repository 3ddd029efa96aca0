// The next step of a trail.
use crate::trail::Trail;
use std::snapshot::Snapshot;
use trace_file::ActRef;

/// The next step of a trail, with what lies before it, as clauses see it: it has no bytes.
#[derive(Drop)]
pub(crate) enum TrailStep<'a> {
    /// Nothing was asked yet.
    Opened,
    /// Then the key of these bytes was acted on so.
    Acted(Snapshot<Trail>, Snapshot<&'a [u8]>, Snapshot<ActRef<'a>>),
}
