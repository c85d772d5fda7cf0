//! A submission in progress.

use koth_hill::Challenge;
use std::alloc::Allocator;
use std::marker::Model;
use war_types::Warrior;

/// A submission in progress: the warrior of a source, and its challenge. One that is given up leaves nothing on the
/// device and on the hill.
#[derive(Drop)]
pub struct Submission<A: Allocator> {
    pub(crate) warrior: Warrior<A>,
    pub(crate) challenge: Challenge,
}

impl<A: Allocator> Model for Submission<A> {
    ghost use Rattle.hill_store.specs.Submission.{SubmissionParts, submission_of};

    ghost Value = { SubmissionParts };

    ghost view = { λ s. submission_of s.warrior s.challenge };
}
