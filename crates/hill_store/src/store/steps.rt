//! A submission in parts: it is begun, fought step by step, and finished. Until it is finished, device and hill stay as
//! they are.

ghost use Rattle.std.specs.Prelude.{◌≡◌, ◌-◌, ◌^◌, ◌<◌, ℕ, List, None, Ok, IfSome};
ghost use Rattle.{redcode_asm.specs.Assembly.assembly, sector_disk.specs.Served.IsKept};
ghost use Rattle.koth_hill.specs.{Challenge.IsStep, Kept.{IsKept as IsKeptHill, verdict_kept}};
ghost use Rattle.hill_store.specs.{Seen.{Challenges, Submits}, Submission.{IsBegun, IsSubmitting, MayChallenge}};

use crate::reply::Reply;
use crate::store::{Store, assembled, refused};
use crate::submission::Submission;
use koth_hill::{Challenge, Verdict};
use redcode_asm::Unassembled;
use sector_disk::Device;
use std::alloc::Allocator;

impl<D: Device, A: Allocator + Copy> Store<D, A> {
    /// Assembles a source, in this number of steps if there is one, and begins its submission. `None` if the assembly
    /// spends the steps, and a reply if it ends without a warrior that may be judged: then nothing is submitted.
    pub fn begin(&self, source: &[u8], steps: Option<u64>) -> Option<Result<Submission<A>, Reply>>
        ensures begun { IsBegun D.facts steps self.now source.now result }
        ensures hill { IsKeptHill self.now.hill }
    {
        if self.reopen {
            return Some(Err(Reply::Reopen));
        }
        let warrior = match assembled(self.alloc, source, self.hill.settings(), steps) {
            Ok(warrior) => warrior,
            Err(Unassembled::Refused(fault)) => return Some(Err(refused(fault))),
            Err(Unassembled::StepsSpent) => return None,
        };
        if self.header.generation() == u64::MAX {
            return Some(Err(Reply::Worn));
        }
        let challenge = Challenge::new(&self.hill);
        Some(Ok(Submission { warrior, challenge }))
    }

    /// Plays on in a submission that this hill has in progress, as a step of its challenge with `turns` turns does. The
    /// verdict comes once all its matches are fought. It doesn't depend on `turns`.
    pub fn step(&mut self, submission: &mut Submission<A>, turns: u32) -> Option<Verdict>
        requires { IsSubmitting self.old submission.old }
        ensures submitting { IsSubmitting self.old submission.new }
        ensures warrior { submission.new.warrior ≡ submission.old.warrior }
        ensures rounds { result ≡ None → IsStep turns self.old.hill.settings submission.old.challenge
            submission.new.challenge }
        ensures last { IfSome result (λ judged. judged ≡ verdict_kept self.old.hill submission.old.warrior) }
        ensures unchanged { self.new ≡ self.old }
    {
        submission
            .challenge
            .step(&self.hill, &mut self.arena, &submission.warrior, turns)
    }

    /// Finishes a submission to this hill that was judged so. The reply comes once that is durable.
    pub fn finish(&mut self, submission: Submission<A>, judged: &Verdict) -> Reply
        requires may { MayChallenge self.old submission.warrior }
        requires verdict { judged.now ≡ verdict_kept self.old.hill submission.warrior }
        ensures submits { (source : List ℕ) → assembly self.old.hill.settings source ≡ Ok submission.warrior
            → Submits D.facts self.old source result self.new }
        ensures challenges { Challenges D.facts self.old submission.warrior result self.new }
        ensures kept { IsKept D.facts self.old.device self.new.device }
    {
        if judged.stays {
            self.admit(submission.warrior, judged)
        } else {
            self.pass(judged)
        }
    }

    /// Makes all steps of a submission, and finishes it.
    pub(super) fn settle(&mut self, mut submission: Submission<A>) -> Reply
        requires { IsSubmitting self.old submission }
        ensures submits { (source : List ℕ) → assembly self.old.hill.settings source ≡ Ok submission.warrior
            → Submits D.facts self.old source result self.new }
        ensures kept { IsKept D.facts self.old.device self.new.device }
    {
        let verdict = self.fight_out(&mut submission);
        self.finish(submission, &verdict)
    }

    /// Makes all steps of a submission.
    fn fight_out(&mut self, submission: &mut Submission<A>) -> Verdict
        requires { IsSubmitting self.old submission.old }
        ensures verdict { result ≡ verdict_kept self.old.hill submission.old.warrior }
        ensures warrior { submission.new.warrior ≡ submission.old.warrior }
        ensures unchanged { self.new ≡ self.old }
    {
        submission
            .challenge
            .fight_out(&self.hill, &mut self.arena, &submission.warrior)
    }
}
