//! What a rotator tells of a work.
use crate::work::Work;
use sm_model::Answer;

/// A work that a rotator was asked to do, and its answer.
#[derive(Drop)]
pub struct Told {
    pub work: Work,
    pub answer: Answer,
}
