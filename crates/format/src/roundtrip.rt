ghost use Rattle.format.specs.RoundTrip.{PageReadsBack, SegmentReadsBack, TrailersDiffer};

// The trailer and the body of a page are read back from its bytes.
#[tactic(auto, using(crate::proofs::ReadBack::trailer_read_back, crate::proofs::ReadBack::body_read_back))]
pub fn page_reads_back()
    ensures { PageReadsBack }
{}

// A segment in its own place is read back from its bytes.
#[tactic(auto, using(crate::proofs::ReadBack::segment_reads_back))]
pub fn segment_reads_back()
    ensures { SegmentReadsBack }
{}

// Different trailers have different bytes.
#[tactic(auto, using(crate::proofs::ReadBack::trailers_differ))]
pub fn trailers_differ()
    ensures { TrailersDiffer }
{}
