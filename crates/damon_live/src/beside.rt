// Workers, controllers and passes beside each other.
ghost use Rattle.std.specs.Prelude.{◌≡◌, IfOk, vec_len};
ghost use Rattle.damon_live.specs.Work.{AreNumbered, IsShared};

use crate::kept::Kept;
use crate::named::Named;
use crate::pace::{Pace, Spot};
use crate::rest::end_begun;
use crate::work::{Done, Job, Shared, work};
use live_commit::Phase;
use page_words::PageWords;
use std::alloc::{AllocError, Global};
use std::sync::{Mutex, Wait};
use std::thread;
use std::thread::Threads;

/// Makes the touches of each worker and the calls of each controller in threads of their own, and the
/// passes in this one.
pub(crate) fn run_beside<'a, N: Named + Send + Sync, R: Threads + Wait + Sync, P: Pace + Sync>(
    rt: &R,
    alloc: Global,
    shared: &Shared<P>,
    kept: Kept<'a, N>,
    jobs: Vec<Job<N>>,
) -> Result<(Kept<'a, N>, Vec<Done<N>>), AllocError>
    requires shared { IsShared N.table N.script shared.now.words.now shared.now.script.now }
    requires numbered { AreNumbered (λ j. j.worker) jobs.items }
    ensures len { IfOk result (λ r. vec_len r.1 ≡ vec_len jobs) }
    ensures numbered { IfOk result (λ r. AreNumbered (λ d. d.worker) r.1.items) }
{
    // One for each controller, so that no list is made once threads run.
    let mut calls = vec![in alloc; 0u32; shared.script.controllers.len() as usize]?;
    let made_calls = calls.as_mut_slice();
    let lock = Mutex::new(kept);
    let kept = &lock;
    let (made, ()) = thread::join(
        rt,
        || -> Result<Vec<Done<N>>, AllocError>
            requires { IsShared N.table N.script shared.now.words.now shared.now.script.now
                × AreNumbered (λ j. j.worker) jobs.items }
            ensures { IfOk result (λ d. (vec_len d ≡ vec_len jobs)
                × AreNumbered (λ d. d.worker) d.items) }
        { work_beside(rt, shared, jobs) },
        || -> ()
            requires { shared.now.words.now ≡ N.table }
        { call_beside(rt, shared, kept, made_calls) },
    );
    let made = made?;
    Ok((lock.into_inner(), made))
}

// Makes the touches of each worker in a thread of its own. What the workers did is in their order.
fn work_beside<N: Named + Send + Sync, R: Threads + Sync, P: Pace + Sync>(
    rt: &R,
    shared: &Shared<P>,
    jobs: Vec<Job<N>>,
) -> Result<Vec<Done<N>>, AllocError>
    requires shared { IsShared N.table N.script shared.now.words.now shared.now.script.now }
    requires numbered { AreNumbered (λ j. j.worker) jobs.items }
    ensures len { IfOk result (λ d. vec_len d ≡ vec_len jobs) }
    ensures numbered { IfOk result (λ d. AreNumbered (λ d. d.worker) d.items) }
{
    let made = thread::map_vec(
        rt,
        jobs,
        &|job: Job<N>| -> Done<N>
            requires { IsShared N.table N.script shared.now.words.now shared.now.script.now }
            ensures { result.worker ≡ job.worker }
        { work(shared, job) },
    )?;
    Ok(made)
}

// Makes the calls of each controller in a thread of its own, and the passes in this one.
fn call_beside<N: Named + Send + Sync, R: Threads + Wait + Sync, P: Pace + Sync>(
    rt: &R,
    shared: &Shared<P>,
    lock: &Mutex<Kept<'_, N>>,
    made: &mut [u32],
)
    requires { shared.now.words.now ≡ N.table }
{
    thread::join(
        rt,
        || {
            let threads = made.len().max(1);
            thread::for_each_mut(
                rt,
                made,
                threads,
                &|controller: usize, calls: &mut u32| {
                    *calls = call_all(rt, shared, lock, controller);
                },
            );
        },
        || -> ()
            requires { shared.now.words.now ≡ N.table }
        { pass_all(rt, shared, lock) },
    );
}

// Makes the calls of a controller, each in one hold of the lock, and returns how many were made.
fn call_all<N: Named, P: Pace>(
    rt: &impl Wait,
    shared: &Shared<P>,
    lock: &Mutex<Kept<'_, N>>,
    controller: usize,
) -> u32 {
    let controllers = &shared.script.controllers;
    let controller = controller.min(u32::MAX as usize) as u32;
    if controller >= controllers.len() {
        return 0;
    }
    let calls = controllers.get(controller).len();
    for index in 0..calls {
        shared.pace.wait(Spot::BeforeCall { controller, index });
        call_next(rt, lock, controller);
        shared.pace.wait(Spot::AfterCall { controller, index });
    }
    calls
}

// Makes the next call of a controller, if one is left, in one hold of the lock.
fn call_next<N: Named>(rt: &impl Wait, lock: &Mutex<Kept<'_, N>>, controller: u32) {
    let mut kept = lock.lock(rt);
    if kept.calls(controller) < kept.call_limit(controller) {
        kept.call(controller);
    }
}

// Makes the passes, each in two holds of the lock.
fn pass_all<N: Named, P: Pace>(rt: &impl Wait, shared: &Shared<P>, lock: &Mutex<Kept<'_, N>>)
    requires { shared.now.words.now ≡ N.table }
{
    for pass in 1..=u64::from(shared.script.passes) {
        shared.pace.wait(Spot::BeforePass { pass });
        arm_next(rt, lock, shared.words);
        shared.pace.wait(Spot::Armed { pass });
        check_begun(rt, lock, shared.words);
    }
}

// Arms the next pass, if one is left, in one hold of the lock.
fn arm_next<N: Named>(rt: &impl Wait, lock: &Mutex<Kept<'_, N>>, words: &PageWords)
    requires { words.now ≡ N.table }
{
    let mut kept = lock.lock(rt);
    if let Phase::Idle = kept.phase() {
        if kept.passes() < kept.limit() {
            kept.arm(words);
        }
    }
}

// Ends the pass that is begun, if there is one, in one hold of the lock.
fn check_begun<N: Named>(rt: &impl Wait, lock: &Mutex<Kept<'_, N>>, words: &PageWords)
    requires { words.now ≡ N.table }
{
    let mut kept = lock.lock(rt);
    end_begun(&mut kept, words);
}
