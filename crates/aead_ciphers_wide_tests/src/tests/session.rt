//! Tests of `session`: runs of jobs with the bytes of test case 2, by keys over each expanded key.

use crate::tests::cases::{opening, sealed, sealing};
use crate::tests::checks::{equal, same};
use crate::tests::examples::session::run_both;
use crate::tests::plain_key::PlainKey;
use aead_ciphers::aes_gcm::{self, GcmKey};
use aead_ciphers::session::{Job, Operation, Outcome, run};
use aead_ciphers_wide::aes_gcm::ExpandedKey;
use aead_vectors::gcm_spec::{CASE_2, Case};
use std::alloc::Global;
use std::process::Abort;
use std::test::Fail;

/// Returns a job with this buffer, and with an outcome that no run sets.
fn job(alloc: Global, operation: Operation, buffer: &[u8]) -> Result<Job, Fail> {
    let mut job = Job::new(operation, Vec::new(alloc), buffer.to_vec(alloc)?);
    job.outcome = Outcome::Opened(usize::MAX);
    Ok(job)
}

/// Asserts the outcome and the buffer of a job.
fn ended(rt: &impl Abort, job: Option<&Job>, outcome: Outcome, buffer: &[u8]) {
    let Some(job) = job else {
        panic!(rt; "no such job");
    };
    equal(rt, job.outcome, outcome, "the outcome");
    same(rt, &job.buffer, buffer, "the buffer");
}

/// Returns the contents of an opened buffer: the message, followed by the tag.
fn opened(case: &Case) -> Result<Vec<u8>, Fail> {
    let mut bytes = case.message.clone()?;
    bytes.extend_from_slice(&case.tag)?;
    Ok(bytes)
}

/// Returns jobs that seal and open the case twice, for keys with one nonce each.
fn jobs_of(alloc: Global, case: &Case, sealed: &[u8]) -> Result<Vec<Job>, Fail> {
    let mut jobs = Vec::new(alloc);
    for _ in 0..2u8 {
        jobs.push(job(alloc, Operation::Seal, &case.message)?)?;
        jobs.push(job(alloc, Operation::Open(0), sealed)?)?;
    }
    Ok(jobs)
}

/// Asserts that keys with one nonce each seal and open a case once.
fn once<K: GcmKey, L: GcmKey>(rt: &impl Abort, alloc: Global, case: &Case) -> Result<(), Fail> {
    let sealed = sealed(alloc, case, &[])?;
    let mut jobs = jobs_of(alloc, case, &sealed)?;
    run(
        &mut sealing::<K>(case, 1)?,
        &mut opening::<L>(case, 1)?,
        &mut jobs,
    );
    ended(rt, jobs.get(0), Outcome::Sealed, &sealed);
    ended(rt, jobs.get(1), Outcome::Opened(16), &opened(case)?);
    ended(rt, jobs.get(2), Outcome::Refused, &case.message);
    ended(rt, jobs.get(3), Outcome::Refused, &sealed);
    Ok(())
}

#[test]
fn seals_and_opens_once(rt: HostRuntime) -> Result<(), Fail> {
    let case = Case::parse(rt.alloc(), CASE_2)?;
    once::<aes_gcm::ExpandedKey, aes_gcm::ExpandedKey>(&rt, rt.alloc(), &case)?;
    once::<ExpandedKey, ExpandedKey>(&rt, rt.alloc(), &case)?;
    once::<PlainKey, PlainKey>(&rt, rt.alloc(), &case)?;
    once::<ExpandedKey, PlainKey>(&rt, rt.alloc(), &case)
}

/// Asserts that the first `count` jobs sealed 20 bytes each, and that the jobs after them failed and left their buffers
/// unchanged.
fn sealed_so_many(rt: &impl Abort, jobs: &[Job], count: u8) {
    for (i, job) in (0..5u8).zip(jobs.iter()) {
        if i < count {
            equal(rt, job.outcome, Outcome::Sealed, "sealed");
            equal(rt, job.buffer.len(), 36, "the ciphertext and tag");
        } else {
            ended(rt, Some(job), Outcome::Refused, &[i; 20]);
        }
    }
}

/// Returns five jobs that seal 20 bytes each.
fn five_jobs(alloc: Global) -> Result<Vec<Job>, Fail> {
    let mut jobs = Vec::new(alloc);
    for i in 0..5u8 {
        jobs.push(job(alloc, Operation::Seal, &[i; 20])?)?;
    }
    Ok(jobs)
}

/// Asserts that two of five jobs are sealed by a key with two nonces.
fn twice<K: GcmKey>(rt: &impl Abort, alloc: Global, case: &Case) -> Result<(), Fail> {
    let mut jobs = five_jobs(alloc)?;
    run(
        &mut sealing::<K>(case, 2)?,
        &mut opening::<K>(case, 0)?,
        &mut jobs,
    );
    sealed_so_many(rt, &jobs, 2);
    Ok(())
}

#[test]
fn refuses_once_the_nonces_are_spent(rt: HostRuntime) -> Result<(), Fail> {
    let case = Case::parse(rt.alloc(), CASE_2)?;
    twice::<aes_gcm::ExpandedKey>(&rt, rt.alloc(), &case)?;
    twice::<ExpandedKey>(&rt, rt.alloc(), &case)?;
    twice::<PlainKey>(&rt, rt.alloc(), &case)
}

/// Asserts that of two lists the second finds the nonces that the first left: two of its five jobs.
fn two_lists<K: GcmKey>(rt: &impl Abort, alloc: Global, case: &Case) -> Result<(), Fail> {
    let (mut first, mut second) = (five_jobs(alloc)?, five_jobs(alloc)?);
    run_both(
        &mut sealing::<K>(case, 7)?,
        &mut opening::<K>(case, 0)?,
        &mut first,
        &mut second,
    );
    sealed_so_many(rt, &first, 5);
    sealed_so_many(rt, &second, 2);
    Ok(())
}

#[test]
fn two_lists_in_a_row(rt: HostRuntime) -> Result<(), Fail> {
    let case = Case::parse(rt.alloc(), CASE_2)?;
    two_lists::<aes_gcm::ExpandedKey>(&rt, rt.alloc(), &case)?;
    two_lists::<ExpandedKey>(&rt, rt.alloc(), &case)
}
