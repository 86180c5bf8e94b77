//! Laws of buckets.

ghost use Rattle.lookup_index.specs.Buckets.{BucketLaw, PartBucketLaw};

/// Values that are equal, and a record and the number of its row, have one bucket.
#[tactic(auto, using(crate::proofs::Buckets::same_bucket))]
pub fn bucket_law()
    ensures { BucketLaw }
{}

/// A value by which a part of a list or of a set of records is found has the bucket of a part.
#[tactic(auto, using(crate::proofs::PartBuckets::same_part))]
pub fn part_bucket_law()
    ensures { PartBucketLaw }
{}
